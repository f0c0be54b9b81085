// What is found of the uses of names is what the rules say. Each law is the contract of a function that does nothing.

ghost use Rattle.std.specs.Prelude.{◌≡◌, None, true};
ghost use Rattle.wf_text.specs.Precedence.{Decides};
ghost use Rattle.wf_ast.specs.ParsedTree.{CallTree};
ghost use Rattle.wf_names_rules.specs.Declarations.{Declared};
ghost use Rattle.wf_names_rules.specs.Uses.{Use, Scope, method};
ghost use Rattle.wf_names_rules.specs.Meanings.{known_at, has_meaning, call_has_meaning};
ghost use Rattle.wf_names_rules.specs.NameRules.{UseBreaks, IsUsed};
ghost use Rattle.wf_names_uses.specs.Fitting.{Fits};
ghost use Rattle.wf_names_scopes.specs.UsesFound.{uses_found};

/// What is found at all places that use a name is the first refusal of all that the table has of uses, and
/// there is none exactly where every use keeps the rules.
pub fn what_the_uses_break_is_found()
    ensures { (d : Declared) → Decides (UseBreaks d) (uses_found d None) }
{}

/// Where nothing is found every use has a meaning (clause `uses`). So no call is passed over: one on something that isn't
/// there breaks no rule itself, and is refused by what isn't there. And in every call its method and all that the values
/// of its arguments use have one (clause `calls`), so that the rules of arguments have been asked of every call.
pub fn where_nothing_is_found_all_names_have_a_meaning()
    ensures uses { (d : Declared) → uses_found d None ≡ None → (scope : Scope) (usage : Use) → IsUsed d scope usage → has_meaning (known_at d scope) usage ≡ true }
    ensures calls { (d : Declared) → uses_found d None ≡ None → (scope : Scope) (c : CallTree) → IsUsed d scope (method c) → call_has_meaning (known_at d scope) c ≡ true }
{}

/// And every call fits: its method is there and may be called, each argument that is given is one of the method's and is
/// given once, each of the method's is given, and no reader or writer is passed twice.
pub fn where_nothing_is_found_every_call_fits()
    ensures { (d : Declared) → uses_found d None ≡ None → (scope : Scope) (c : CallTree) → IsUsed d scope (method c) → Fits d scope c }
{}
