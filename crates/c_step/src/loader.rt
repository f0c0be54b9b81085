// What makes an engine of a text of C.

ghost use Rattle.std.specs.Prelude.{◌≡◌, Bool, false, List, [], map, slice_get, Some, IfOk, OnOk, IfErr};
ghost use Rattle.wf_text.specs.HostActions.{HostAction};
ghost use Rattle.wf_base.specs.BaseOps.{Buffer};
ghost use Rattle.wf_base.specs.HostRun.{empty_host, run};
ghost use Rattle.wf_base.specs.LawfulActions.{AreDeclared, AreLawful};
ghost use Rattle.wf_bufs.specs.EngineLaw.{steps_of};
ghost use Rattle.wf_bufs.specs.SurfaceViews.{receiver_of};
ghost use Rattle.c_text.specs.CNodes.{unit_tree};
ghost use Rattle.c_meaning.specs.UnitForm.{HasUnitForm};
ghost use Rattle.c_form.specs.Formed.{Refuses};
ghost use Rattle.c_step.specs.Loading.{SeenOf, IsPlain};

use c_form::LoadFault;
use c_text::Unit;
use std::alloc::Global;
use wf_bufs::{Engine, PublicSurface, ReceiverDecl};

/// Makes an engine of a C text that has the unit form for a package.
pub trait Loader {
    /// The engine.
    type E: Engine + Drop;

    // What is seen of the engine that is made of a text, for a package's surface, receivers and a list of host actions.
    ghost seen: { Self → SeenOf };

    // Whether that is what is seen of the text by the meaning of C.
    ghost plain: { Self → Bool };

    ghost law: { (loader : Self) → IsPlain (plain loader) (seen loader) };

    /// Takes all memory that the engine needs. The receivers are of the package's public structs, zero or null, and none of
    /// them is initialized; the package's first status is ok, whose text is empty. `NoSuchForm`: the text hasn't the unit form
    /// for the package with this surface; its number is that of the first item that breaks it, or of the items, where there is
    /// none or a public function is missing. `Memory`: memory was refused, or the engine has no room for a chain of calls as
    /// long as one in the text.
    fn load(
        &mut self,
        alloc: Global,
        u: Unit,
        surface: &PublicSurface,
        receivers: &[ReceiverDecl],
    ) -> Result<Self::E, LoadFault>
        requires ok { slice_get surface.now.statuses 0 ≡ Some [] }
        requires declared { AreDeclared surface.now (map receiver_of receivers.now) }
        ensures same { (seen self.new ≡ seen self.old) × (plain self.new ≡ plain self.old) }
        ensures form { OnOk result (HasUnitForm surface.now (unit_tree u)) }
        ensures surface { IfOk result (λ engine. Self.E.surface (Self.E.state engine) ≡ surface.now) }
        ensures receivers { IfOk result (λ engine. Self.E.receivers (Self.E.state engine) ≡ map receiver_of receivers.now) }
        ensures goes_on { IfOk result (λ engine. Self.E.stopped (Self.E.state engine) ≡ false) }
        ensures seen { IfOk result (λ engine. (actions : List (HostAction Buffer)) → AreLawful surface.now (map receiver_of receivers.now) 0 0 actions
            → run (steps_of Self.E.surface Self.E.init_gives Self.E.call_gives) (Self.E.state engine) empty_host actions ≡ seen self.old (unit_tree u) surface.now (map receiver_of receivers.now) actions) }
        ensures refused { IfErr result (Refuses surface.now (unit_tree u)) };
}
