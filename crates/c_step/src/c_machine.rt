// The loader of the machine that executes a text of C.

use crate::loader::Loader;
use crate::machine::Machine;
use c_form::LoadFault;
use c_step_engine::laws::what_is_seen_is_c_run;
use c_text::Unit;
use std::alloc::Global;
use wf_bufs::{PublicSurface, ReceiverDecl};

/// Its engine executes the text by the meaning of C, so it is plain.
#[derive(Clone, Copy)]
pub struct CMachine;

impl Loader for CMachine {
    ghost use Rattle.std.specs.Prelude.{true, refl};
    ghost use Rattle.c_meaning.specs.CRun.{c_run};

    type E = Machine;

    ghost seen = { λ _. c_run };

    ghost plain = { λ _. true };

    ghost law = { λ _ items surface receivers actions. refl };

    fn load(
        &mut self,
        alloc: Global,
        u: Unit,
        surface: &PublicSurface,
        receivers: &[ReceiverDecl],
    ) -> Result<Machine, LoadFault> {
        what_is_seen_is_c_run();
        Machine::load(alloc, u, surface, receivers)
    }
}
