// What is known where a method begins: each of its numeric locals is 0.

ghost use Rattle.std.specs.Prelude.{◌≡◌, ◌<◌, ◌+◌, length, slice_get, true, IfSome};
ghost use Rattle.wf_ast.specs.TypedTrees.{type_of_node};
ghost use Rattle.wf_ast.specs.TypedInvariant.{is_numeric};
ghost use Rattle.wf_facts_exprs.specs.Claims.{claims_in};
ghost use Rattle.wf_facts.specs.IndexedFacts.{IsOver};
ghost use Rattle.wf_bounds.specs.MethodWalks.{start_facts, zeros_before, IsReady, LocalFound};

use wf_ast::{ExprId, LocalId, Ty, Typed};
use wf_facts::Facts;
use wf_facts_exprs::{Cmp, Fact, Side};
use wf_text::MethodId;

/// Makes a list the one with which a method begins.
pub(crate) fn start(t: &Typed, m: MethodId, facts: &mut Facts)
    requires ready { IsReady t.now m.0 }
    ensures over { IsOver t.now facts.new }
    ensures starts { claims_in t.now facts.new.list ≡ start_facts t.now m.0 }
{
    facts.clear();
    let locals = t.method(m).locals.as_slice();
    for x in 0..locals.len() {
        start_local(t, m, LocalId(x as u32), facts);
    }
}

// Makes known that a local is 0, if it is numeric, where this is known of those before it.
fn start_local(t: &Typed, m: MethodId, x: LocalId, facts: &mut Facts)
    requires ready { IsReady t.now m.0 }
    requires local { IfSome (slice_get t.now.methods m.0) (λ method. x.0 < length method.locals) }
    requires before { claims_in t.now facts.old.list ≡ zeros_before t.now m.0 x.0 }
    requires over { IsOver t.now facts.old }
    ensures over { IsOver t.now facts.new }
    ensures after { claims_in t.now facts.new.list ≡ zeros_before t.now m.0 (x.0 + 1) }
{
    let e = t.local_expr(m, x);
    if is_number(t.type_of(e)) {
        start_number(t, m, x, e, facts);
    }
}

// Whether a type is one of numbers.
fn is_number(ty: Ty) -> bool
    ensures { result ≡ is_numeric ty }
{
    matches!(ty, Ty::Num { .. })
}

// Makes known that a numeric local is 0.
fn start_number(t: &Typed, m: MethodId, x: LocalId, e: ExprId, facts: &mut Facts)
    requires ready { IsReady t.now m.0 }
    requires local { LocalFound t.now m.0 x.0 e }
    requires number { is_numeric (type_of_node t.now e.0) ≡ true }
    requires before { claims_in t.now facts.old.list ≡ zeros_before t.now m.0 x.0 }
    requires over { IsOver t.now facts.old }
    ensures over { IsOver t.now facts.new }
    ensures after { claims_in t.now facts.new.list ≡ zeros_before t.now m.0 (x.0 + 1) }
{
    match facts.push(
        t,
        Fact::Compare {
            left: Side::Expr(e),
            op: Cmp::Eq,
            right: Side::Num(0),
        },
    ) {
        Ok(()) => {}
        Err(_) => unreachable!(),
    }
}
