// A worked example: what the law supposes of a package can be met.

ghost use Rattle.wf_ast.specs.TypedTrees.{no_place};
ghost use Rattle.wf_meaning.specs.Demo.{demo};
ghost use Rattle.wf_sound_runs.specs.Accepted.{IsAccepted};

/// The package `demo` is accepted.
pub fn the_package_demo_is_accepted()
    ensures { IsAccepted (λ m n. no_place) demo }
{}
