// What holds of every public surface of a package, and of every script that was read over one.

ghost use Rattle.wf_text.specs.Surface.{Surface};
ghost use Rattle.wf_base.specs.LawfulActions.{AreDeclared, AreLawful};
ghost use Rattle.wf_ast.specs.TypedPackage.{PackageTree, surface_of};
ghost use Rattle.wf_script_rules.specs.Scripts.{Script, actions_of};
ghost use Rattle.wf_script_drive.specs.Lawful.{HasOwnNumbers, IsScript};

/// A law: each receiver of a script is of a public struct, and a host may perform the script's actions.
pub fn scripts_are_lawful()
    ensures declared { (surface : Surface) (script : Script) → HasOwnNumbers surface → IsScript surface script → AreDeclared surface script.declared.receivers }
    ensures lawful { (surface : Surface) (script : Script) → HasOwnNumbers surface → IsScript surface script → AreLawful surface script.declared.receivers 0 0 (actions_of script) }
{}

/// A law: the methods of a package's public surface have numbers of their own.
pub fn surfaces_have_own_numbers()
    ensures { (p : PackageTree) → HasOwnNumbers (surface_of p) }
{}
