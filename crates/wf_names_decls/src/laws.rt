// What the passes find is what the rules say. Each law is the contract of a function that does nothing.

ghost use Rattle.std.specs.Prelude.{None};
ghost use Rattle.wf_text.specs.Precedence.{Decides};
ghost use Rattle.wf_names_rules.specs.Declarations.{Declared};
ghost use Rattle.wf_names_rules.specs.NameRules.{DeclarationBreaks, LabelBreaks};
ghost use Rattle.wf_names_decls.specs.DeclarationPass.{declarations_found};
ghost use Rattle.wf_names_rules.specs.Jumps.{labels_found};

/// Of what the declarations of a package break by their names and their number the pass finds the first refusal, and
/// nothing exactly where they break nothing.
pub fn found_of_declarations_decides()
    ensures { (d : Declared) → Decides (DeclarationBreaks d) (declarations_found d None) }
{}

/// Of what the loops of a package and the jumps in them break: the same.
pub fn found_of_labels_decides()
    ensures { (d : Declared) → Decides (LabelBreaks d) (labels_found d None) }
{}
