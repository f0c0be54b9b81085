// Worked examples: what the meaning gives for small packages, computed. Each is the contract of a function that does
// nothing.

ghost use Rattle.std.specs.Prelude.{◌≡◌, true, false};
ghost use Rattle.wf_ast.specs.declared.things.Thing.TheVariants.{Local, This};
ghost use Rattle.wf_ast.specs.Places.{expr_places, IsFirstAt};
ghost use Rattle.wf_ast.specs.TypedTrees.{tree_of};
ghost use Rattle.wf_ast.specs.Same.{same};
ghost use Rattle.wf_ast.specs.Mentions.{mentions};
ghost use Rattle.wf_meaning.specs.Examples.{on};
ghost use Rattle.wf_ast.specs.WellTyped.{well_typed};
ghost use Rattle.wf_ast.specs.TypedInvariant.{IsTyped};
ghost use Rattle.wf_ast.specs.TypedPackage.{package_of, surface_of};
ghost use Rattle.wf_meaning.specs.Demo.{demo, demo_surface};
ghost use Rattle.wf_meaning.specs.DemoNodes.{demo_nodes};
ghost use Rattle.wf_meaning.specs.Packages.{two, keep, word, resuming, nested, copies, labels, giving_up, spin};
ghost use Rattle.wf_meaning.specs.SourceCall.{source_run};
ghost use Rattle.wf_meaning.specs.Rows.{one_piece_receivers, one_piece_actions, one_piece_seen, byte_by_byte_receivers, byte_by_byte_actions, byte_by_byte_seen, too_large_receivers, too_large_actions, too_large_seen, not_ready_receivers, not_ready_actions, not_ready_seen, null_buffer_receivers, null_buffer_actions, null_buffer_seen, interleaved_calls_receivers, interleaved_calls_actions, interleaved_calls_seen, outliving_receivers, outliving_actions, outliving_seen, word_in_pieces_receivers, word_in_pieces_actions, word_in_pieces_seen, anew_receivers, anew_actions, anew_seen, inside_receivers, inside_actions, inside_seen, copying_receivers, copying_actions, copying_seen, leaving_two_receivers, leaving_two_actions, leaving_two_seen, no_suspension_receivers, no_suspension_actions, no_suspension_seen, counting_receivers, counting_actions, counting_seen};

/// The packages of the examples keep the rules of types and effects.
pub fn examples_are_well_typed()
    ensures demo { well_typed demo ≡ true }
    ensures two { well_typed two ≡ true }
    ensures keep { well_typed keep ≡ true }
    ensures word { well_typed word ≡ true }
    ensures resuming { well_typed resuming ≡ true }
    ensures nested { well_typed nested ≡ true }
    ensures copies { well_typed copies ≡ true }
    ensures labels { well_typed labels ≡ true }
    ensures giving_up { well_typed giving_up ≡ true }
    ensures spin { well_typed spin ≡ true }
{}

/// The nodes of the package `demo` are those of a typed package, and make its tree; a host knows of it its public
/// struct with two methods, and its statuses.
pub fn the_nodes_of_a_package()
    ensures typed { IsTyped demo_nodes }
    ensures tree { package_of demo_nodes ≡ demo }
    ensures surface { surface_of demo ≡ demo_surface }
{}

/// Expressions of `demo`: the target of `c -= 0x30` stands a second time as the operand of `-`, with the same place, by
/// which the first of the two is found; `(10 * this.val) + (c as base.u32)` stands twice and mentions `c` and a field;
/// its product is another expression, and `c - 0x30` mentions no field.
pub fn expressions_of_a_package()
    ensures place { IsFirstAt (expr_places demo_nodes) (on 19 9) 14 }
    ensures target { same (tree_of demo_nodes (record { 0 = 14 })) (tree_of demo_nodes (record { 0 = 15 })) ≡ true }
    ensures sums { same (tree_of demo_nodes (record { 0 = 24 })) (tree_of demo_nodes (record { 0 = 42 })) ≡ true }
    ensures product { same (tree_of demo_nodes (record { 0 = 24 })) (tree_of demo_nodes (record { 0 = 21 })) ≡ false }
    ensures local { mentions (tree_of demo_nodes (record { 0 = 24 })) (Local (record { 0 = 0 })) ≡ true }
    ensures field { mentions (tree_of demo_nodes (record { 0 = 24 })) This ≡ true }
    ensures no_field { mentions (tree_of demo_nodes (record { 0 = 17 })) This ≡ false }
{}

/// A number in two pieces, in a buffer with room for it.
pub fn one_piece()
    ensures { source_run demo one_piece_receivers one_piece_actions ≡ one_piece_seen }
{}

/// The same number byte by byte, in a buffer of one byte.
pub fn byte_by_byte()
    ensures { source_run demo byte_by_byte_receivers byte_by_byte_actions ≡ byte_by_byte_seen }
{}

/// The largest number, and one more, which disables its receiver until it is made ready again.
pub fn too_large()
    ensures { source_run demo too_large_receivers too_large_actions ≡ too_large_seen }
{}

/// A receiver that was never made ready, and a null one.
pub fn not_ready()
    ensures { source_run demo not_ready_receivers not_ready_actions ≡ not_ready_seen }
{}

/// A coroutine that goes on with another buffer, and a null buffer, which disables the receiver.
pub fn null_buffer()
    ensures { source_run demo null_buffer_receivers null_buffer_actions ≡ null_buffer_seen }
{}

/// A call of one coroutine while another one is active disables its receiver, and no other.
pub fn interleaved_calls()
    ensures { source_run two interleaved_calls_receivers interleaved_calls_actions ≡ interleaved_calls_seen }
{}

/// A private coroutine outlives its caller, and goes on in a call of another method.
pub fn outliving()
    ensures { source_run keep outliving_receivers outliving_actions ≡ outliving_seen }
{}

/// A number of four bytes that come in pieces: it keeps those that it has.
pub fn word_in_pieces()
    ensures { source_run word word_in_pieces_receivers word_in_pieces_actions ≡ word_in_pieces_seen }
{}

/// The arguments of a call that goes on are those of the resuming call.
pub fn anew()
    ensures { source_run resuming anew_receivers anew_actions ≡ anew_seen }
{}

/// A field of struct type: its calls pass the entry table, and an interleaved one disables the field alone.
pub fn inside()
    ensures { source_run nested inside_receivers inside_actions ≡ inside_seen }
{}

/// Copies to an empty slice, and to a writer with room for one byte.
pub fn copying()
    ensures { source_run copies copying_receivers copying_actions ≡ copying_seen }
{}

/// A `break` that leaves two loops.
pub fn leaving_two()
    ensures { source_run labels leaving_two_receivers leaving_two_actions ≡ leaving_two_seen }
{}

/// A suspension that is returned is an error, and so is an argument outside its refinement.
pub fn no_suspension()
    ensures { source_run giving_up no_suspension_receivers no_suspension_actions ≡ no_suspension_seen }
{}

/// A loop of nine ways back takes ten turns with its entry, and one more is too many.
pub fn counting()
    ensures { source_run spin counting_receivers counting_actions ≡ counting_seen }
{}
