// Tests of marks.

ghost use Rattle.std.specs.Prelude.{◌≡◌};
ghost use Rattle.wf_ast.specs.WellTyped.{is_pure as pure_mark, is_coroutine as coroutine_mark, same_mark as same_marks};
ghost use Rattle.wf_types_rules.specs.Judgements.{is_impure as impure_mark};

use wf_base::Mark;

/// Whether it is no mark.
pub fn is_pure(mark: Mark) -> bool
    ensures { result ≡ pure_mark mark }
{
    match mark {
        Mark::Pure => true,
        Mark::Impure | Mark::Coroutine => false,
    }
}

/// Whether it is `!`.
pub fn is_impure(mark: Mark) -> bool
    ensures { result ≡ impure_mark mark }
{
    match mark {
        Mark::Impure => true,
        Mark::Pure | Mark::Coroutine => false,
    }
}

/// Whether it is `?`.
pub fn is_coroutine(mark: Mark) -> bool
    ensures { result ≡ coroutine_mark mark }
{
    match mark {
        Mark::Coroutine => true,
        Mark::Pure | Mark::Impure => false,
    }
}

/// Whether two marks are the same.
pub fn same_mark(a: Mark, b: Mark) -> bool
    ensures { result ≡ same_marks a b }
{
    match a {
        Mark::Pure => is_pure(b),
        Mark::Impure => is_impure(b),
        Mark::Coroutine => is_coroutine(b),
    }
}
