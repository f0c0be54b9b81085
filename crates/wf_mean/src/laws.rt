// The law of the source's engine. It is the contract of a function that does nothing.

ghost use Rattle.std.specs.Prelude.{◌≡◌, ℕ, [], Some, slice_get};
ghost use Rattle.wf_base.specs.HostRun.{Host, HostCall};
ghost use Rattle.wf_meaning.specs.SourceCall.{source_call, source_init};
ghost use Rattle.wf_mean.specs.SourceEngines.{EngineState, call_gives, init_gives};
ghost use Rattle.wf_mean.specs.Told.{CallTold, InitTold};

/// An outcome of an engine's call or init is what the meaning answers, and leaves the receivers, the buffers and the byte arrays as
/// the meaning does; and where the engine needs more turns, so does the meaning. The first status is ok, whose text is empty.
pub fn a_reply_is_the_meanings()
    ensures calls { (e : EngineState) (called : HostCall) (host : Host) (n : ℕ) → slice_get e.package_tree.statuses 0 ≡ Some [] → CallTold e.package_tree (call_gives e called host n) (source_call e.package_tree e.objects called host n) }
    ensures inits { (e : EngineState) (receiver n : ℕ) → InitTold e.package_tree (init_gives e receiver n) (source_init e.package_tree e.objects receiver n) }
{}
