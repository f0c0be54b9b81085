// What a variable is.

ghost use Rattle.std.specs.Prelude.{◌≡◌, slice_get, option_map};
ghost use Rattle.wf_types_rules.specs.declared.meanings.Meaning.TheVariants as meanings;
ghost use Rattle.wf_types_rules.specs.Meanings.{there, as_constant, variable as variable_in};

use wf_ast::{ConstId, Ty};
use wf_named::Variable;
use wf_types_rules::{Around, Constant, Meaning};

fn constant_at(constants: &[Option<Constant>], c: ConstId) -> Option<Constant>
    ensures { result ≡ there (slice_get constants.now c.0) }
{
    *constants.get(c.0 as usize)?
}

fn type_at(types: &[Option<Ty>], n: u32) -> Option<Ty>
    ensures { result ≡ there (slice_get types.now n) }
{
    *types.get(n as usize)?
}

fn constant(of: Option<Constant>) -> Option<Meaning>
    ensures { result ≡ option_map as_constant of }
{
    let c = of?;
    Some(Meaning::Constant {
        width: Some(c.width),
        value: c.value,
    })
}

/// What has a type that may be absent.
pub fn typed(of: Option<Ty>) -> Option<Meaning>
    ensures { result ≡ option_map meanings.Typed of }
{
    Some(Meaning::Typed(of?))
}

/// What a variable is.
pub fn variable(around: &Around<'_>, of: Variable) -> Option<Meaning>
    ensures { result ≡ variable_in around.now of }
{
    match of {
        Variable::Const(c) => constant(constant_at(around.constants(), c)),
        Variable::Local(x) => typed(type_at(around.locals(), x.0)),
        Variable::Field(x) => typed(type_at(around.fields(), x.0)),
        Variable::Arg(x) => typed(type_at(around.args(), x.0)),
    }
}
