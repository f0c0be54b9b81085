// What calls give, and what is known of the method that is called.

ghost use Rattle.std.specs.Prelude.{◌≡◌, not, ◌&&◌, None, if◌then◌else◌, slice_get, option_map, option_and_then, is_some};
ghost use Rattle.wf_base.specs.BaseTable.{row_of};
ghost use Rattle.wf_ast.specs.WellTyped.{is_coroutine as coroutine_mark, is_pure as pure_mark};
ghost use Rattle.wf_types_rules.specs.declared.meanings.Meaning.TheVariants as meanings;
ghost use Rattle.wf_types_rules.specs.Meanings.{there};
ghost use Rattle.wf_types_rules.specs.ExprTypes.{given_by_base as base_gives};
ghost use Rattle.wf_types_rules.specs.Judgements.{fails, result_of as result_in, gives_no_value as lacks_value, answer_type as type_answered, declared_mark as mark_declared, is_coroutine_called as calls_coroutine, is_given_nothing as nothing_given, is_base as base_called};

use crate::marks::{is_coroutine, is_pure};
use crate::variables::{typed, variable};
use wf_ast::Ty;
use wf_base::{BaseSig, Gives, Mark};
use wf_named::NamedCallee;
use wf_text::MethodId;
use wf_types_operators::meanings::all_of;
use wf_types_rules::{Around, Meaning, MethodType};

/// The type of what a base method gives.
pub(crate) fn given_by_base(gives: Gives) -> Option<Ty>
    ensures { result ≡ base_gives gives }
{
    match gives {
        Gives::Nothing => None,
        Gives::Num(width) => Some(all_of(width)),
        Gives::Flag => Some(Ty::Flag),
    }
}

/// What a base method answers inside an expression, where it is pure and no mark is written.
pub fn pure_answer(sig: BaseSig, written: Mark) -> Option<Meaning>
    ensures { result ≡ (if pure_mark (row_of sig).mark && pure_mark written then option_map meanings.Typed (base_gives (row_of sig).gives) else None) }
{
    if is_pure(sig.mark()) && is_pure(written) {
        typed(given_by_base(sig.gives()))
    } else {
        None
    }
}

// What a method gives as the right side of `=`: a coroutine nothing.
fn result_of(m: &MethodType) -> Option<Option<Ty>>
    ensures { result ≡ result_in m.now }
{
    if is_coroutine(m.mark) { None } else { m.gives }
}

fn result_at(methods: &[MethodType], m: MethodId) -> Option<Option<Ty>>
    ensures { result ≡ option_and_then result_in (slice_get methods.now m.0) }
{
    result_of(methods.get(m.0 as usize)?)
}

fn mark_at(methods: &[MethodType], m: MethodId) -> Option<Mark>
    ensures { result ≡ option_map (λ m. m.mark) (slice_get methods.now m.0) }
{
    Some(methods.get(m.0 as usize)?.mark)
}

/// The mark that the method declares which is called.
pub fn declared_mark(around: &Around<'_>, callee: NamedCallee) -> Option<Mark>
    ensures { result ≡ mark_declared around.now callee }
{
    match callee {
        NamedCallee::Own(m) => mark_at(around.methods(), m),
        NamedCallee::Sub { method, .. } => mark_at(around.methods(), method),
        NamedCallee::Base { sig, .. } => Some(sig.mark()),
    }
}

/// Whether a base method is called.
pub fn is_base(callee: NamedCallee) -> bool
    ensures { result ≡ base_called callee }
{
    match callee {
        NamedCallee::Base { .. } => true,
        NamedCallee::Own(_) | NamedCallee::Sub { .. } => false,
    }
}

fn gives_no_result(methods: &[MethodType], m: MethodId) -> bool
    ensures { result ≡ fails (λ m. is_some (result_in m)) (slice_get methods.now m.0) }
{
    match methods.get(m.0 as usize) {
        Some(m) => result_of(m).is_none(),
        None => false,
    }
}

fn is_given_nothing(gives: Gives) -> bool
    ensures { result ≡ nothing_given gives }
{
    match gives {
        Gives::Nothing => true,
        Gives::Num(_) | Gives::Flag => false,
    }
}

/// Whether a call gives no value as the right side of `=`.
pub fn gives_no_value(around: &Around<'_>, callee: NamedCallee) -> bool
    ensures { result ≡ lacks_value around.now callee }
{
    match callee {
        NamedCallee::Own(m) => gives_no_result(around.methods(), m),
        NamedCallee::Sub { method, .. } => gives_no_result(around.methods(), method),
        NamedCallee::Base { on, sig } => {
            variable(around, on.of).is_some() && is_given_nothing(sig.gives())
        }
    }
}

fn result_type(methods: &[MethodType], m: MethodId) -> Option<Ty>
    ensures { result ≡ there (option_and_then result_in (slice_get methods.now m.0)) }
{
    result_at(methods, m)?
}

/// The type of what a call gives as the right side of `=`.
pub fn answer_type(around: &Around<'_>, callee: NamedCallee) -> Option<Ty>
    ensures { result ≡ type_answered around.now callee }
{
    match callee {
        NamedCallee::Own(m) => result_type(around.methods(), m),
        NamedCallee::Sub { method, .. } => result_type(around.methods(), method),
        NamedCallee::Base { on, sig } => {
            if variable(around, on.of).is_some() {
                given_by_base(sig.gives())
            } else {
                None
            }
        }
    }
}

fn is_coroutine_at(methods: &[MethodType], m: MethodId) -> bool
    ensures { result ≡ not (fails (λ m. coroutine_mark m.mark) (slice_get methods.now m.0)) }
{
    match methods.get(m.0 as usize) {
        Some(m) => is_coroutine(m.mark),
        None => true,
    }
}

/// Whether a coroutine of the package is called.
pub fn is_coroutine_called(around: &Around<'_>, callee: NamedCallee) -> bool
    ensures { result ≡ calls_coroutine around.now callee }
{
    match callee {
        NamedCallee::Own(m) => is_coroutine_at(around.methods(), m),
        NamedCallee::Sub { method, .. } => is_coroutine_at(around.methods(), method),
        NamedCallee::Base { .. } => false,
    }
}
