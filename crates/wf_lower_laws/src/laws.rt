// The laws of the C text of a package. Each is the contract of a function that does nothing.

ghost use Rattle.wf_ast.specs.TypedPackage.{PackageTree};
ghost use Rattle.wf_lower_laws.specs.BracketLaw.{TextsAreShallow};
ghost use Rattle.wf_lower_laws.specs.FormLaw.{TextsAreFormed};
ghost use Rattle.wf_lower_laws.specs.HelperLaw.{TextsHaveHelpers};
ghost use Rattle.wf_lower_laws.specs.ItemLaw.{ItemsNameApart};
ghost use Rattle.wf_lower_laws.specs.JumpLaw.{TextsJumpForward};
ghost use Rattle.wf_lower_laws.specs.KindLaw.{ExpressionsKeepKinds};
ghost use Rattle.wf_lower_laws.specs.LabelLaw.{TextsAreLabelled};
ghost use Rattle.wf_lower_laws.specs.LoopLaw.{LoopsAreMarked, LoopsAreSpelt};
ghost use Rattle.wf_lower_laws.specs.NameLaw.{TextsNameApart};
ghost use Rattle.wf_lower_laws.specs.PlaceLaw.{BodiesResume, BodiesBreak, BodiesContinue};
ghost use Rattle.wf_lower_laws.specs.SurfaceLaw.{TextsMeetSurfaces};
ghost use Rattle.wf_lower_laws.specs.TurnLaw.{LoopAlike, TextsLoopAlike};
ghost use Rattle.wf_lower_laws.specs.TypeLaw.{TextsAreTyped};

/// Each `goto` of the text of a typed package leads to a label of its function that stands after it. So it takes no turn, and no
/// function goes back but by a `while`.
pub fn jumps_lead_forward()
    ensures { TextsJumpForward }
{}

/// The body of a method has as many `while` statements as the method has loops, and no other function of a text has any.
pub fn methods_and_bodies_loop_alike()
    ensures { (p : PackageTree) → LoopAlike p }
{}

/// So the text of a package that keeps the rules of types has, all its items together, as many `while` statements as the package has
/// loops, all its methods together: each body stands in it once, in whatever order.
pub fn texts_and_packages_loop_alike()
    ensures { TextsLoopAlike }
{}

/// The loops of each method of a typed package have numbers that labels spell apart, and so has each loop that a `break` or a
/// `continue` names, as the laws of their labels (`breaks_behind_loop` and `continues_at_loop` of wf_lower_stmts) ask.
pub fn labels_of_loops_are_spelt()
    ensures { LoopsAreSpelt }
{}

/// The loop behind which the label of a `break` is found, and the one at whose end that of a `continue`, is the one whose marker the
/// source's meaning goes on with.
pub fn markers_agree()
    ensures { LoopsAreMarked }
{}

/// In the text of a typed package the body of each coroutine switches on the number of the point where it goes on. After the `case` of a
/// point stands the rest of the point's statement, and then, item by item, what remains of the source when the point is reached.
pub fn bodies_resume_at_points()
    ensures { BodiesResume }
{}

/// In the body of each method of that text a `break` leads to what follows its loop in the source, item by item.
pub fn bodies_break_behind_loops()
    ensures { BodiesBreak }
{}

/// And a `continue` leads to the test of its loop, and then to what follows the loop in the source, item by item.
pub fn bodies_continue_at_loops()
    ensures { BodiesContinue }
{}

/// The labels of each function of the text of a typed package differ, and each `goto` names one of them. The cases of each `switch`
/// differ, and are numbers below 1,025, where no method has more points than it may have.
pub fn labels_and_cases_differ()
    ensures { TextsAreLabelled }
{}

/// No text opens a bracket where 512 are open, as the reader of C texts counts them: where in no method more than 97 parts stand
/// inside one another, as 48 open brackets of a source allow.
pub fn texts_open_few_brackets()
    ensures { TextsAreShallow }
{}

/// The parameters and locals of each function of a text have different names, all of them names of C and none a word of C or of
/// the headers that a text includes, or the name of an item, where the arguments of each method of the package differ, and its
/// locals, and are made of letters, digits and `_`.
pub fn names_of_a_function_differ()
    ensures { TextsNameApart }
{}

/// No two items of a text have one name, where no two structs have and no two methods of a struct, names of structs have no two
/// `_` in a row and don't end with one, no method is named `initialize`, and the package isn't named `base`.
pub fn names_of_items_differ()
    ensures { ItemsNameApart }
{}

/// A text has the function of each saturating operator that a function of it reads, under its name, and no other function under that
/// name. So in an expression of a function that stands after it a call of it is the operator, as the law of expressions supposes.
pub fn texts_have_their_helpers()
    ensures { TextsHaveHelpers }
{}

/// In the text of a package that keeps the rules of types, and whose names of items are as above, each item with the name of one of
/// the surface's functions or structs is as the surface has it, and each function of the surface is there.
pub fn texts_meet_their_surfaces()
    ensures { TextsMeetSurfaces }
{}

/// The text of a typed package with such names, in which no method has too many points, has the unit form for the package's surface,
/// where the rules of types hold of its items and the surface's functions are there. All other rules hold of it: the first item,
/// the names of items, results, the names of a function, its labels, jumps, loops and cases.
pub fn a_text_has_the_unit_form_where_typed()
    ensures { TextsAreFormed }
{}

/// Each item but the first of the text of a package that keeps the rules of types has the types that C asks of it, after the items
/// before it: fields, parameters, locals and statements. Names are as above; the fields of each struct differ, and so do its
/// methods, whose names have no two `_` in a row; each array has fewer than 2^31 elements; and the statuses of the language are there.
pub fn items_of_a_text_are_typed()
    ensures { TextsAreTyped }
{}

/// In a scope that declares what a method's paths name, each expression of the method that keeps the rules of types has its kind in
/// C: a number, a pointer to numbers of a width with a length, or a status. The scope declares besides what the expression uses of
/// statuses, functions of saturating operators, and pointers to a reader's bytes.
pub fn expressions_keep_their_kinds()
    ensures { ExpressionsKeepKinds }
{}
