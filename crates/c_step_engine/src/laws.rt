// The law of an engine of a text. It is the contract of a function that does nothing.

ghost use Rattle.std.specs.Prelude.{◌≡◌, List, [], Some, slice_get};
ghost use Rattle.wf_text.specs.Surface.{Surface};
ghost use Rattle.wf_text.specs.HostActions.{HostAction, Receiver};
ghost use Rattle.wf_base.specs.BaseOps.{Buffer};
ghost use Rattle.wf_base.specs.HostRun.{empty_host, run};
ghost use Rattle.wf_bufs.specs.EngineLaw.{steps_of};
ghost use Rattle.c_text.specs.CTree.{ItemTree};
ghost use Rattle.c_meaning.specs.CRun.{c_run};
ghost use Rattle.c_step_engine.specs.Engines.{surface_of, init_gives, call_gives, first_state};

/// What is seen of an engine whose inits and calls give what the meaning gives, from the state in which a text has been
/// loaded, is what is seen of the text, for every list of actions. The first status is ok, whose text is empty.
pub fn what_is_seen_is_c_run()
    ensures { (items : List ItemTree) (surface : Surface) (receivers : List Receiver) (actions : List (HostAction Buffer)) → slice_get surface.statuses 0 ≡ Some []
        → run (steps_of surface_of init_gives call_gives) (first_state items surface receivers) empty_host actions ≡ c_run items surface receivers actions }
{}
