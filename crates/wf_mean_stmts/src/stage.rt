// Where a body runs.

ghost use Rattle.std.specs.Prelude.{◌≡◌};
ghost use Rattle.wf_mean_exprs.specs.MachineState.{seen_from};
ghost use Rattle.wf_mean_stmts.specs.Stages.{sight_on};

use wf_ast::Typed;
use wf_bufs::Bufs;
use wf_mean_exprs::objects::{Frame, ObjectState};
use wf_mean_exprs::reading::Scene;

/// What a body that runs reads and writes: its frame, the struct states of its receiver, and the host's buffers and byte
/// arrays; and how many turns are left.
#[derive(Drop)]
pub struct Stage {
    pub frame: Frame,
    pub objects: Vec<ObjectState>,
    pub host: Bufs,
    pub turns: u64,
}

impl Stage {
    /// What the expressions of the body look at.
    pub(crate) fn scene<'s>(&'s self, t: &'s Typed) -> Scene<'s>
        ensures package { result.package.now ≡ t.now }
        ensures seen { seen_from result ≡ sight_on t.now self.now }
    {
        Scene {
            package: t,
            frame: &self.frame,
            objects: self.objects.as_slice(),
            host: &self.host,
        }
    }
}
