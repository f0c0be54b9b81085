// A law of the source's meaning. It is the contract of a function that does nothing.

ghost use Rattle.std.specs.Prelude.{◌≡◌, ℕ, List, Option};
ghost use Rattle.turns.specs.Run.{Got};
ghost use Rattle.wf_ast.specs.TypedPackage.{MethodTree, PackageTree};
ghost use Rattle.wf_ast.specs.Value.{Value};
ghost use Rattle.wf_meaning.specs.Entry.{Answered};
ghost use Rattle.wf_meaning.specs.World.{World};
ghost use Rattle.wf_meaning.specs.SourceCall.{entry_of};
ghost use Rattle.wf_meaning_sizes.specs.Sizes.{sizes};

/// A call of a method that comes to an answer leaves as many buffers and byte arrays as there were, with their capacities and
/// lengths, whatever the package, the arguments and the struct states are.
pub fn a_call_keeps_sizes()
    ensures { (p : PackageTree) (m : MethodTree) (number : ℕ) (args : Option (List Value)) (n left : ℕ) (w : World) (it : Answered × World)
        → entry_of p m number args n w ≡ Got left it → sizes it.1.host ≡ sizes w.host }
{}
