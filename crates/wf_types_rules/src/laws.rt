// The law of the rules of types and effects. It is the contract of a function that does nothing.

ghost use Rattle.wf_text.specs.Precedence.{Decides};
ghost use Rattle.wf_named.specs.NamedTree.{NamedPackageTree};
ghost use Rattle.wf_types_rules.specs.TypeRules.{Breaks};
ghost use Rattle.wf_types_rules.specs.FirstBreak.{deciding};

/// The refusal that is computed from the parts of a package is the first among all that the table has, and
/// there is none exactly where the package keeps every rule.
pub fn the_computed_refusal_decides()
    ensures { (p : NamedPackageTree) → Decides (Breaks p) (deciding p) }
{}
