// What the typed tree of a small package has, which is read, resolved and given types with ample memory.

ghost use Rattle.std.specs.Prelude.{IfOk};
ghost use Rattle.wf_ast.specs.TypedInvariant.{IsTyped};

use std::alloc::Global;
use wf_ast::{Callee, Expr, LocalId, Package, Stmt, StmtId, Thing, Ty, Typed, Var, mentions, same};
use wf_base::{Mark, Width};
use wf_named::Named;
use wf_names::resolving::resolve;
use wf_parse::parse;
use wf_text::{MethodId, PhaseFault, Place, StatusId, StructId};
use wf_types::typing::type_check;

// A constant in a bound, two statuses, two structs, one in the other, and three methods, each before the one that it calls.
const DECLARED: &str =
    "pri const MOST : base.u8 = 9\npub status \"#too large\"\npri status \"$more wanted\"\npub struct k?(\nn : base.u32[..= MOST],\na : array[4] base.u8,\nin : part,\n)\npri struct part(\non : base.bool,\n)\npub func k.run?(from: base.io_reader) {\nthis.add!(by: 3)\nyield? \"$more wanted\"\nreturn \"#too large\"\n}\npri func k.add!(by: base.u8) {\nvar x : base.u8\nvar more : base.bool\nif more {\nx = this.twice(by: 2)\n}\n}\npri func k.twice(by: base.u8[1 ..= 3]) base.u8 {\nreturn args.by\n}\n";

// A package of one file.
fn read(alloc: Global, text: &str) -> Result<Package, PhaseFault> {
    let mut bytes: Vec<u8> = Vec::new(alloc);
    bytes.extend_from_slice(text.as_bytes())?;
    if 1_048_576 < bytes.len() {
        return Err(PhaseFault::Memory);
    }
    let files = vec![in alloc; bytes]?;
    parse(alloc, "k", files.as_slice())
}

// The resolved package of one file.
fn resolved(alloc: Global, text: &str) -> Result<Named, PhaseFault> {
    let parsed = read(alloc, text)?;
    resolve(alloc, parsed)
}

pub(crate) fn typed(alloc: Global, text: &str) -> Result<Typed, PhaseFault>
    ensures { IfOk result (λ typed. IsTyped typed) }
{
    let named = resolved(alloc, text)?;
    type_check(alloc, named)
}

fn has_text(typed: &Typed, status: u32, text: &[u8]) -> bool {
    status < typed.statuses() && typed.status_text(StatusId(status)) == text
}

// Whether the base statuses stand before the package's own, these as a caller sees them.
fn has_statuses(typed: &Typed) -> bool {
    let base = has_text(typed, 0, b"") && has_text(typed, 1, b"$base: short read");
    let own = has_text(typed, 10, b"#k: too large") && has_text(typed, 11, b"$k: more wanted");
    typed.statuses() == 12 && base && own
}

// Whether these variables have these types.
fn have_types(variables: &[Var], types: &[Ty]) -> bool {
    for n in 0..types.len() {
        match variables.get(n) {
            Some(variable) => {
                if variable.ty != types[n] {
                    return false;
                }
            }
            None => return false,
        }
    }
    variables.len() == types.len()
}

// Whether the struct with this number is public or not, and has these types of fields.
fn has_fields(typed: &Typed, number: u32, public: bool, types: &[Ty]) -> bool {
    if typed.structs() <= number {
        return false;
    }
    let it = typed.structure(StructId(number));
    it.public == public && have_types(it.fields.as_slice(), types)
}

// A number of this width from the one to the other.
fn number(width: Width, lo: u64, hi: u64) -> Ty {
    Ty::Num { width, lo, hi }
}

fn has_structs(typed: &Typed) -> bool {
    let bytes = Ty::Array {
        width: Width::W8,
        lo: 0,
        hi: 255,
        len: 4,
    };
    let first = [number(Width::W32, 0, 9), bytes, Ty::Part(StructId(1))];
    let has_first = has_fields(typed, 0, true, &first);
    let has_second = has_fields(typed, 1, false, &[Ty::Flag]);
    typed.structs() == 2 && has_first && has_second
}

// Whether the method with this number has this mark, this result, and these types of arguments and locals.
fn has_head(
    typed: &Typed,
    number: u32,
    mark: Mark,
    gives: Option<Ty>,
    args: &[Ty],
    locals: &[Ty],
) -> bool {
    if typed.methods() <= number {
        return false;
    }
    let it = typed.method(MethodId(number));
    let has_args = have_types(it.args.as_slice(), args);
    let has_locals = have_types(it.locals.as_slice(), locals);
    it.mark == mark && it.gives == gives && has_args && has_locals
}

fn has_methods(typed: &Typed) -> bool {
    let byte = number(Width::W8, 0, 255);
    let some = number(Width::W8, 1, 3);
    let run = has_head(typed, 0, Mark::Coroutine, None, &[Ty::Reader], &[]);
    let add = has_head(typed, 1, Mark::Impure, None, &[byte], &[byte, Ty::Flag]);
    let twice = has_head(typed, 2, Mark::Pure, Some(byte), &[some], &[]);
    typed.methods() == 3 && run && add && twice
}

// Whether each method stands after those that it calls, and each struct after those that its fields hold.
fn has_orders(typed: &Typed) -> bool {
    typed.order() == [2, 1, 0].as_slice() && typed.struct_order() == [1, 0].as_slice()
}

// Whether the body of the method with this number has these statements.
fn has_body(typed: &Typed, number: u32, items: &[StmtId]) -> bool {
    number < typed.methods() && typed.body(MethodId(number)).items.as_slice() == items
}

// Whether statements are numbered throughout, each after those inside it. A `var` is no statement.
fn has_bodies(typed: &Typed) -> bool {
    let run = has_body(typed, 0, &[StmtId(0), StmtId(1), StmtId(2)]);
    let add = has_body(typed, 1, &[StmtId(4)]);
    let twice = has_body(typed, 2, &[StmtId(5)]);
    run && add && twice
}

pub(crate) fn place(line: u32, col: u32) -> Place {
    Place { file: 0, line, col }
}

// Whether the name at this place is the local with this number, and has this type.
fn is_local(typed: &Typed, at: Place, number: u32, ty: Ty) -> bool {
    match typed.expr_at(at) {
        Some(e) => match typed.expr(e) {
            Expr::Local(local) => *local == LocalId(number) && typed.type_of(e) == ty,
            _ => false,
        },
        None => false,
    }
}

// Whether the second method tells the expression at this place of the local with this number.
fn tells_local(typed: &Typed, at: Place, number: u32) -> bool {
    let m = MethodId(1);
    if typed.methods() <= 1 || typed.method(m).locals.as_slice().len() <= number as usize {
        return false;
    }
    let told = typed.local_expr(m, LocalId(number));
    typed.expr_at(at) == Some(told)
}

// Whether each local has a node where it is declared.
fn has_locals(typed: &Typed) -> bool {
    let first = is_local(typed, place(18, 5), 0, number(Width::W8, 0, 255));
    let second = is_local(typed, place(19, 5), 1, Ty::Flag);
    first && second && tells_local(typed, place(18, 5), 0) && tells_local(typed, place(19, 5), 1)
}

// Whether the second method calls the third with 2, and keeps its result in a local, where a condition holds.
fn has_call(typed: &Typed) -> bool {
    let Some(s) = typed.stmt_at(place(21, 1)) else {
        return false;
    };
    let Stmt::Call {
        target: Some(target),
        keep: false,
        callee: Callee::Own(method),
        args,
    } = typed.stmt(s)
    else {
        return false;
    };
    let kept = is_local(
        typed,
        typed.expr_place(*target),
        0,
        number(Width::W8, 0, 255),
    );
    let given = match args.as_slice() {
        [two] => typed.constant(*two) == Some(2),
        _ => false,
    };
    s == StmtId(3) && kept && *method == MethodId(2) && given
}

// Sums of two locals, one of them twice, and an element of a slice.
const SUMS: &str =
    "pub struct s()\npub func s.f() {\nvar x : base.u8\nvar y : base.u8\nvar l : slice base.u8\nx = x + y\nx = x + y\nx = l[0]\n}\n";

// Two places, and whether the expressions that stand there are the same.
const SAME: &[((u32, u32), (u32, u32), bool)] = &[
    ((6, 7), (7, 7), true),
    ((6, 5), (7, 5), true),
    ((6, 5), (6, 9), false),
    ((6, 7), (6, 5), false),
    ((8, 6), (8, 6), true),
    ((8, 6), (6, 7), false),
];

// A place, and whether the expression that stands there mentions a thing.
const MENTIONED: &[((u32, u32), Thing, bool)] = &[
    ((6, 7), Thing::Local(LocalId(0)), true),
    ((6, 7), Thing::Local(LocalId(1)), true),
    ((6, 7), Thing::Local(LocalId(2)), false),
    ((6, 7), Thing::Element, false),
    ((6, 7), Thing::This, false),
    ((8, 6), Thing::Element, true),
    ((8, 6), Thing::SliceLocals, true),
    ((8, 6), Thing::Args, false),
    ((8, 5), Thing::SliceLocals, true),
    ((8, 5), Thing::Element, false),
];

fn are_same(typed: &Typed, a: (u32, u32), b: (u32, u32)) -> Option<bool> {
    match (
        typed.expr_at(place(a.0, a.1)),
        typed.expr_at(place(b.0, b.1)),
    ) {
        (Some(a), Some(b)) => Some(same(typed, a, b)),
        _ => None,
    }
}

fn is_mentioned(typed: &Typed, at: (u32, u32), thing: Thing) -> Option<bool> {
    let e = typed.expr_at(place(at.0, at.1))?;
    Some(mentions(typed, e, thing))
}

fn all_are_told(typed: &Typed) -> bool {
    for (a, b, wanted) in SAME {
        if are_same(typed, *a, *b) != Some(*wanted) {
            return false;
        }
    }
    for (at, thing, wanted) in MENTIONED {
        if is_mentioned(typed, *at, *thing) != Some(*wanted) {
            return false;
        }
    }
    true
}

fn sums_are_told(alloc: Global) -> Result<bool, PhaseFault> {
    Ok(all_are_told(&typed(alloc, SUMS)?))
}

// Whether the package has its declarations, its statements and its expressions as they should be.
fn is_typed(alloc: Global) -> Result<bool, PhaseFault> {
    let typed = typed(alloc, DECLARED)?;
    let declared = has_statuses(&typed) && has_structs(&typed) && has_methods(&typed);
    let stated = has_orders(&typed) && has_bodies(&typed);
    Ok(declared && stated && has_locals(&typed) && has_call(&typed))
}

#[test]
fn a_package_gets_its_typed_tree(rt: HostRuntime) {
    assert!(rt; is_typed(rt.alloc()) == Ok(true));
    assert!(rt; sums_are_told(rt.alloc()) == Ok(true));
}
