// An engine that runs nothing: it answers ok, 0, false or nothing, and leaves the buffers.

ghost use Rattle.std.specs.Prelude.{◌≡◌, ◌<◌, false, length, map, option_map};
ghost use Rattle.wf_bufs.specs.HostViews.{call_of};
ghost use Rattle.wf_bufs.specs.SurfaceViews.{answer_kind_of, receiver_of};
ghost use Rattle.wf_bufs.specs.ZeroAnswers.{zero_of, zero_init, zero_call};
ghost use Rattle.wf_base.specs.LawfulActions.{called_method};

use crate::bufs::Bufs;
use crate::calls::{Call, ReceiverDecl};
use crate::engine::Engine;
use crate::outcomes::{Outcome, Reply};
use crate::surfaces::{AnswerKind, PublicSurface};
use std::marker::Model;
use wf_text::StatusId;

/// An engine for tests, over any public surface and receivers. It never stops.
#[derive(Drop)]
pub struct ZeroEngine {
    surface: PublicSurface,
    receivers: Vec<ReceiverDecl>,
}

impl Model for ZeroEngine {
    ghost use Rattle.std.specs.Prelude.{List, map, length, ◌<◌};
    ghost use Rattle.wf_text.specs.Surface.{Surface};
    ghost use Rattle.wf_text.specs.HostActions.{Receiver};
    ghost use Rattle.wf_bufs.specs.SurfaceViews.{receiver_of};

    ghost Value = { Surface × List Receiver };

    ghost view = { λ it. (it.surface, map receiver_of it.receivers.items) };

    ghost invariant = { λ it. 0 < length it.surface.statuses };
}

impl ZeroEngine {
    /// An engine over these. The first status is ok.
    pub fn new(surface: PublicSurface, receivers: Vec<ReceiverDecl>) -> ZeroEngine
        requires { 0 < length surface.statuses }
        ensures { result ≡ (surface, map receiver_of receivers.items) }
    {
        ZeroEngine { surface, receivers }
    }

    // What the called method answers.
    fn called(&self, what: &Call<'_>) -> Option<AnswerKind>
        ensures { option_map answer_kind_of result ≡ option_map (λ it. it.answers) (called_method self.now.0 self.now.1 (call_of what.now)) }
    {
        let receiver = self.receivers.get(what.receiver as usize)?;
        self.surface.answers(*receiver, what.method)
    }
}

fn zero(kind: AnswerKind) -> Outcome
    ensures { result ≡ zero_of (answer_kind_of kind) }
{
    match kind {
        AnswerKind::Status => Outcome::Status(StatusId(0)),
        AnswerKind::Number(_) => Outcome::Num(0),
        AnswerKind::Flag => Outcome::Flag(false),
        AnswerKind::Nothing => Outcome::Nothing,
    }
}

impl Engine for ZeroEngine {
    ghost use Rattle.std.specs.Prelude.{List, false};
    ghost use Rattle.wf_text.specs.Surface.{Surface};
    ghost use Rattle.wf_text.specs.HostActions.{Receiver};
    ghost use Rattle.wf_bufs.specs.ZeroAnswers.{zero_init, zero_call};

    ghost State = { Surface × List Receiver };

    ghost state = { λ it. it };

    ghost surface = { λ state. state.0 };

    ghost receivers = { λ state. state.1 };

    ghost stopped = { λ _. false };

    ghost init_gives = { λ state receiver turns. zero_init state };

    ghost call_gives = { λ state called host turns. zero_call state called host };

    fn init(&mut self, _receiver: u16, _turns: u64) -> Reply {
        let _surface = &self.surface;
        Reply::Done(Outcome::Status(StatusId(0)))
    }

    fn call(&mut self, what: &Call<'_>, _bufs: &mut Bufs, _turns: u64) -> Reply {
        let _surface = &self.surface;
        match self.called(what) {
            Some(kind) => Reply::Done(zero(kind)),
            None => Reply::Done(Outcome::Nothing),
        }
    }
}
