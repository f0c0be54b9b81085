// A loader for tests, whose engine runs nothing.

use crate::loader::Loader;
use crate::loading::copied;
use crate::surface_copies::surface_copied;
use c_form::{LoadFault, formed};
use c_text::Unit;
use std::alloc::Global;
use wf_bufs::{PublicSurface, ReceiverDecl, ZeroEngine};

/// Of its engine each init is ok, and each call has the least answer of the method's kind: ok, 0, false or nothing. No buffer
/// is changed. It isn't plain.
#[derive(Clone, Copy)]
pub struct ZeroLoader;

impl Loader for ZeroLoader {
    ghost use Rattle.std.specs.Prelude.{false};
    ghost use Rattle.c_step.specs.Loading.{zero_seen};

    type E = ZeroEngine;

    ghost seen = { λ _. zero_seen };

    ghost plain = { λ _. false };

    ghost law = { λ _. tt };

    fn load(
        &mut self,
        alloc: Global,
        u: Unit,
        surface: &PublicSurface,
        receivers: &[ReceiverDecl],
    ) -> Result<ZeroEngine, LoadFault> {
        formed(alloc, &u, surface)?;
        let surface = surface_copied(alloc, surface)?;
        let receivers = copied(alloc, receivers)?;
        Ok(ZeroEngine::new(surface, receivers))
    }
}
