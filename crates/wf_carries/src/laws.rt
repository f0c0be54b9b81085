// The laws of carrying. Each is the contract of a function that does nothing.

ghost use Rattle.std.specs.Prelude.{◌≡◌, List};
ghost use Rattle.wf_text.specs.HostActions.{HostAction, Receiver};
ghost use Rattle.wf_base.specs.BaseOps.{Buffer};
ghost use Rattle.wf_base.specs.LawfulActions.{AreDeclared, AreLawful};
ghost use Rattle.wf_ast.specs.TypedPackage.{PackageTree, surface_of};
ghost use Rattle.c_text.specs.CTree.{ItemTree};
ghost use Rattle.c_meaning.specs.CRun.{c_run};
ghost use Rattle.wf_carries.specs.Carries.{TreeCarries};

/// Two texts that carry one package answer every lawful list of host actions alike.
pub fn carrying_texts_answer_alike()
    ensures { (p : PackageTree) (items others : List ItemTree) → TreeCarries p items → TreeCarries p others
        → (receivers : List Receiver) (actions : List (HostAction Buffer))
        → AreDeclared (surface_of p) receivers → AreLawful (surface_of p) receivers 0 0 actions
        → c_run items (surface_of p) receivers actions ≡ c_run others (surface_of p) receivers actions }
{}
