// What every machine that runs a package is: the law under which one script drives any of them.

ghost use Rattle.std.specs.Prelude.{◌≡◌, ℕ, ◌<◌, Bool, false, List, length};
ghost use Rattle.wf_text.specs.Surface.{Surface, status};
ghost use Rattle.wf_text.specs.HostActions.{Receiver};
ghost use Rattle.wf_base.specs.HostRun.{Host, HostCall};
ghost use Rattle.wf_base.specs.LawfulActions.{CanCall};
ghost use Rattle.wf_bufs.specs.HostViews.{call_of};
ghost use Rattle.wf_bufs.specs.HostSeen.{host_of};
ghost use Rattle.wf_bufs.specs.EngineLaw.{Gives, Replies, stops, DoneFits, FitsCalled, KeepsSizes};

use crate::bufs::Bufs;
use crate::calls::Call;
use crate::outcomes::Reply;

/// A machine that runs a package. Its meaning is a state. What an init or a call replies, and the state and the
/// buffers that it leaves after an outcome, are functions of the state and of what it is given.
pub trait Engine {
    // What the machine's answers depend on.
    ghost State: { Type 0 };

    ghost state: { Self → State };

    // What the state tells: the public surface of the package, the receivers, and whether it has stopped.
    ghost surface: { State → Surface };

    ghost receivers: { State → List Receiver };

    ghost stopped: { State → Bool };

    // How the init of a receiver ends, within so many turns.
    ghost init_gives: { State → ℕ → ℕ → Gives State };

    // How a call on the host's buffers and byte arrays ends, within so many turns.
    ghost call_gives: { State → HostCall → Host → ℕ → Gives (State × Host) };

    /// Makes a receiver ready, whatever it was before, within `turns` turns. The outcome is a status. After
    /// Turns (it needs more) and Undefined (a step isn't defined) the engine has stopped.
    fn init(&mut self, receiver: u16, turns: u64) -> Reply
        requires goes_on { stopped (state self.old) ≡ false }
        requires exists { receiver < length (receivers (state self.old)) }
        ensures law { Replies (init_gives (state self.old) receiver turns) result (state self.new) }
        ensures stops { stopped (state self.new) ≡ stops result }
        ensures surface { surface (state self.new) ≡ surface (state self.old) }
        ensures receivers { receivers (state self.new) ≡ receivers (state self.old) }
        ensures kind { DoneFits (surface (state self.old)) status result };

    /// One public call on the host's buffers and byte arrays, within `turns` turns. An outcome is of the method's
    /// kind of answer. After Turns and Undefined the engine has stopped, and nothing is said of the
    /// buffers.
    fn call(&mut self, what: &Call<'_>, bufs: &mut Bufs, turns: u64) -> Reply
        requires goes_on { stopped (state self.old) ≡ false }
        requires lawful { CanCall (surface (state self.old)) (receivers (state self.old)) (length bufs.old.bufs) (length bufs.old.arrays) (call_of what.now) }
        ensures law { Replies (call_gives (state self.old) (call_of what.now) (host_of bufs.old) turns) result (state self.new, host_of bufs.new) }
        ensures stops { stopped (state self.new) ≡ stops result }
        ensures surface { surface (state self.new) ≡ surface (state self.old) }
        ensures receivers { receivers (state self.new) ≡ receivers (state self.old) }
        ensures kind { FitsCalled (surface (state self.old)) (receivers (state self.old)) (call_of what.now) result }
        ensures sizes { KeepsSizes result (host_of bufs.old) (host_of bufs.new) };
}
