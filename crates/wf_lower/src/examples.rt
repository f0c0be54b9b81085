// Worked examples. Each is the contract of a function that does nothing.

ghost use Rattle.std.specs.Prelude.{◌≡◌};
ghost use Rattle.wf_ast.specs.TypedPackage.{surface_of};
ghost use Rattle.wf_meaning.specs.Demo.{demo};
ghost use Rattle.c_meaning.specs.UnitForm.{HasUnitForm};
ghost use Rattle.wf_lower.specs.Unit.{lowered_unit};
ghost use Rattle.wf_lower.specs.DemoText.{demo_text};

/// What a parser of decimal numbers is lowered to is this text, and it has the unit form for its package.
pub fn a_parsers_text_is_this()
    ensures text { lowered_unit demo ≡ demo_text }
    ensures form { HasUnitForm (surface_of demo) demo_text }
{}
