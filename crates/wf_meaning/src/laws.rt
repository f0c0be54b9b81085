// The laws of the source's meaning. Each is the contract of a function that does nothing.

ghost use Rattle.std.specs.Prelude.{◌≡◌, ℕ, ◌+◌, true, false, List, Some, None, IsSome, slice_get, length, is_some, nat_eq, ◌∷◌};
ghost use Rattle.std.specs.List.{AllByRecursion};
ghost use Rattle.wf_text.specs.Seen.{Answer, status as status_answer};
ghost use Rattle.wf_text.specs.HostActions.{Receiver};
ghost use Rattle.wf_base.specs.HostRun.{Host, HostCall, answers, needs_more, not_defined};
ghost use Rattle.wf_ast.specs.TypedTree.{Site, Block};
ghost use Rattle.wf_ast.specs.declared.typed_nodes.TypedNodes.{TypedNodes};
ghost use Rattle.wf_ast.specs.TypedPackage.{MethodTree, PackageTree, package_of};
ghost use Rattle.wf_ast.specs.TypedInvariant.{IsTyped};
ghost use Rattle.wf_ast.specs.WellTyped.{is_pure, is_coroutine};
ghost use Rattle.wf_meaning.specs.SourceState.{Object, SourceState, raw, ready, disabled, fresh_state};
ghost use Rattle.wf_meaning.specs.Remaining.{Items, points_in, number_of, rest};
ghost use Rattle.wf_meaning.specs.Entry.{ok, bad_receiver, bad_argument, not_initialized, interleaved, was_disabled, text_of_status, disabled_by, made_disabled, refusal_of};
ghost use Rattle.wf_meaning.specs.World.{updated};
ghost use Rattle.wf_meaning.specs.SourceCall.{source_call, source_init, seen_answer, host_values};
ghost use Rattle.wf_meaning.specs.Laws.{BeginsWithPoint, Ascend, IsReady, Anything, IsRest, IsSettled, ChangesOnlyNamed};

/// A call that answers within `n` turns answers the same, and leaves the same, within any greater number; one that
/// is stuck within `n` turns is stuck within any greater number; and one that needs more than a number of turns
/// needs more than any smaller number.
pub fn more_turns_change_no_call()
    ensures answer { (p : PackageTree) (state : SourceState) (call : HostCall) (h : Host) (n more : ℕ) (a : Answer) (after : SourceState × Host)
        → source_call p state call h n ≡ answers a after → source_call p state call h (n + more) ≡ answers a after }
    ensures stuck { (p : PackageTree) (state : SourceState) (call : HostCall) (h : Host) (n more : ℕ)
        → source_call p state call h n ≡ not_defined → source_call p state call h (n + more) ≡ not_defined }
    ensures want { (p : PackageTree) (state : SourceState) (call : HostCall) (h : Host) (n more : ℕ)
        → source_call p state call h (n + more) ≡ needs_more → source_call p state call h n ≡ needs_more }
{}

/// What remains of a method at a point begins with the statement of that point; and something remains at each
/// point of the method.
pub fn what_remains_begins_with_its_point()
    ensures first { (body : Block) (k : ℕ) (items : Items) → rest body k ≡ Some items → BeginsWithPoint body k items }
    ensures each { (body : Block) (i : ℕ) (site : Site) → slice_get (points_in body) i ≡ Some site → IsSome (rest body (number_of body site)) }
{}

/// The points of each method of a typed package stand in order of place, and have the numbers 1, 2 and so on.
pub fn points_are_numbered_in_order()
    ensures order { (nodes : TypedNodes) (m : ℕ) (method : MethodTree)
        → IsTyped nodes → slice_get (package_of nodes).methods m ≡ Some method → Ascend (points_in method.body) }
    ensures numbers { (nodes : TypedNodes) (m i : ℕ) (method : MethodTree) (site : Site)
        → IsTyped nodes → slice_get (package_of nodes).methods m ≡ Some method → slice_get (points_in method.body) i ≡ Some site
        → number_of method.body site ≡ 1 + i }
{}

/// An init makes a receiver ready with all struct states inside it, whatever they were: their fields zero, nothing
/// active and nothing remaining. It leaves every other receiver, and a null one stays null.
pub fn an_init_makes_ready()
    ensures answer { (p : PackageTree) (state : SourceState) (r turns : ℕ) (objects : List Object) → slice_get state r ≡ Some (Some objects)
        → (after : SourceState) × (left : List Object) × (source_init p state r turns ≡ answers (status_answer (text_of_status p ok)) after)
        × (slice_get after r ≡ Some (Some left)) × (length left ≡ length objects) × AllByRecursion IsReady left
        × ((other : ℕ) → (other ≡ r → ⊥) → slice_get after other ≡ slice_get state other) }
    ensures null { (p : PackageTree) (state : SourceState) (r turns : ℕ) → slice_get state r ≡ Some None
        → source_init p state r turns ≡ answers (status_answer (text_of_status p bad_receiver)) state }
{}

/// The entry table, row by row: what a public call answers that doesn't come to its body, and what it leaves.
pub fn refused_calls()
    ensures null { (p : PackageTree) (state : SourceState) (call : HostCall) (h : Host) (n : ℕ) (m : MethodTree)
        → slice_get p.methods call.method ≡ Some m → slice_get state call.receiver ≡ Some None
        → source_call p state call h n ≡ answers (seen_answer p (refusal_of m bad_receiver)) (state, h) }
    ensures raw { (p : PackageTree) (state : SourceState) (call : HostCall) (h : Host) (n : ℕ) (m : MethodTree) (o : Object) (inside : List Object)
        → slice_get p.methods call.method ≡ Some m → slice_get state call.receiver ≡ Some (Some (o ∷ inside)) → o.life ≡ raw
        → source_call p state call h n ≡ answers (seen_answer p (refusal_of m not_initialized)) (state, h) }
    ensures disabled { (p : PackageTree) (state : SourceState) (call : HostCall) (h : Host) (n : ℕ) (m : MethodTree) (o : Object) (inside : List Object)
        → slice_get p.methods call.method ≡ Some m → slice_get state call.receiver ≡ Some (Some (o ∷ inside)) → o.life ≡ disabled → is_pure m.mark ≡ false
        → source_call p state call h n ≡ answers (seen_answer p (refusal_of m was_disabled)) (state, h) }
    ensures argument { (p : PackageTree) (state : SourceState) (call : HostCall) (h : Host) (n : ℕ) (m : MethodTree) (o : Object) (inside : List Object)
        → slice_get p.methods call.method ≡ Some m → slice_get state call.receiver ≡ Some (Some (o ∷ inside)) → o.life ≡ ready
        → host_values h.arrays m.args call.args ≡ None
        → source_call p state call h n ≡ answers (seen_answer p (refusal_of m bad_argument)) (updated (λ _. Some (disabled_by m.mark o ∷ inside)) call.receiver state, h) }
    ensures interleaved { (p : PackageTree) (state : SourceState) (call : HostCall) (h : Host) (n other : ℕ) (m : MethodTree) (o : Object) (inside : List Object)
        → slice_get p.methods call.method ≡ Some m → slice_get state call.receiver ≡ Some (Some (o ∷ inside)) → o.life ≡ ready
        → is_some (host_values h.arrays m.args call.args) ≡ true → is_coroutine m.mark ≡ true → o.active ≡ Some other → nat_eq other call.method ≡ false
        → source_call p state call h n ≡ answers (seen_answer p (refusal_of m interleaved)) (updated (λ _. Some (made_disabled o ∷ inside)) call.receiver state, h) }
{}

/// A call leaves every other receiver as it was, and every buffer and byte array that its arguments don't name. The
/// premise, that what remains of coroutines keeps no elements of slices, holds at first, and after each init and
/// each call.
pub fn a_call_changes_only_what_it_names()
    ensures changes { (p : PackageTree) (state : SourceState) (call : HostCall) (h : Host) (n : ℕ) (a : Answer) (after : SourceState × Host)
        → IsSettled Anything state → source_call p state call h n ≡ answers a after → ChangesOnlyNamed state call h after }
    ensures first { (p : PackageTree) (receivers : List Receiver) → IsSettled Anything (fresh_state p receivers) }
    ensures init { (p : PackageTree) (state : SourceState) (r turns : ℕ) (a : Answer) (after : SourceState)
        → IsSettled Anything state → source_init p state r turns ≡ answers a after → IsSettled Anything after }
    ensures call { (p : PackageTree) (state : SourceState) (call : HostCall) (h : Host) (n : ℕ) (a : Answer) (after : SourceState × Host)
        → IsSettled Anything state → source_call p state call h n ≡ answers a after → IsSettled Anything after.0 }
{}

/// In every state of a typed package that a host reaches, what remains of each suspended coroutine is what stands at
/// one of its points: so it is at first, and after each init and each call.
pub fn what_remains_stands_at_a_point()
    ensures first { (p : PackageTree) (receivers : List Receiver) → IsSettled (IsRest p) (fresh_state p receivers) }
    ensures init { (p : PackageTree) (state : SourceState) (r turns : ℕ) (a : Answer) (after : SourceState)
        → IsSettled (IsRest p) state → source_init p state r turns ≡ answers a after → IsSettled (IsRest p) after }
    ensures call { (nodes : TypedNodes) (state : SourceState) (call : HostCall) (h : Host) (n : ℕ) (a : Answer) (after : SourceState × Host)
        → IsTyped nodes → IsSettled (IsRest (package_of nodes)) state → source_call (package_of nodes) state call h n ≡ answers a after
        → IsSettled (IsRest (package_of nodes)) after.0 }
{}
