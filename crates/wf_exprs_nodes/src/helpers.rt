// The functions of the saturating operators.

ghost use Rattle.std.specs.Prelude.{◌≡◌, ◌<◌, ◌^◌, ◌-◌, [], ◌∷◌, true, false, length, map, Some, IfOk, codes};
ghost use Rattle.wf_base.specs.BaseTable.{bits_of};
ghost use Rattle.c_text.specs.CFits.{FitsItem, FitsStmt, HasParams};
ghost use Rattle.c_text.specs.CNodes.{bytes_at, code_of, expr_of, made_code, made_item, param_tree};
ghost use Rattle.c_text.specs.CTree as c;
ghost use Rattle.c_text.specs.CTree.{finish, leave};
ghost use Rattle.wf_exprs.specs.Grown.{Grows, HasCode, HasExpr};
ghost use Rattle.wf_exprs.specs.Helpers.{saturating as saturating_item, saturating_value as value_of};
ghost use Rattle.wf_exprs.specs.Words.{two as two_trees};
ghost use Rattle.wf_exprs_nodes.specs.Growth.{GrowsBy, helper_item, leaves_width, parameters_of};

use c_text::{CExprId, CItem, CList, CNameId, COp, CParam, CStmt, CStmtId, CType, Linkage, Unit};
use std::alloc::Global;
use wf_base::Width;
use wf_exprs::names::put_name;
use wf_exprs::nodes::{choice, number, two, uint_of, variable};
use wf_exprs::rated::saturating_name;
use wf_text::NoMemory;

// The greatest number of a width.
fn greatest(width: Width) -> u64
    ensures { result ≡ 2 ^ bits_of width - 1 }
{
    match width {
        Width::W8 => 0xff,
        Width::W16 => 0xffff,
        Width::W32 => 0xffff_ffff,
        Width::W64 => 0xffff_ffff_ffff_ffff,
    }
}

// `(a op b)`
#[tactic(auto, unfolding(c_text::specs::CSpelling::is_reserved))]
fn of_both(alloc: Global, u: &mut Unit, op: COp) -> Result<CExprId, NoMemory>
    ensures grows { Grows u.old u.new }
    ensures made { IfOk result (λ it. HasExpr u.new it.0 (two_trees op (c.variable (codes "a")) (c.variable (codes "b")))) }
{
    let a = variable(u, b"a")?;
    let b = variable(u, b"b")?;
    two(alloc, u, op, a, b)
}

// Whether `a + b` leaves the width: in `int` by its value, else by having come round.
#[tactic(auto, unfolding(c_text::specs::CSpelling::is_reserved))]
fn too_much(alloc: Global, u: &mut Unit, width: Width) -> Result<CExprId, NoMemory>
    ensures grows { Grows u.old u.new }
    ensures made { IfOk result (λ it. HasExpr u.new it.0 (leaves_width (bits_of width))) }
{
    let sum = of_both(alloc, u, COp::Add)?;
    match width {
        Width::W8 | Width::W16 => {
            let most = number(u, greatest(width))?;
            two(alloc, u, COp::Gt, sum, most)
        }
        Width::W32 | Width::W64 => {
            let a = variable(u, b"a")?;
            two(alloc, u, COp::Lt, sum, a)
        }
    }
}

fn saturated_sum(alloc: Global, u: &mut Unit, width: Width) -> Result<CExprId, NoMemory>
    ensures grows { Grows u.old u.new }
    ensures made { IfOk result (λ it. HasExpr u.new it.0 (value_of true (bits_of width))) }
{
    let test = too_much(alloc, u, width)?;
    let most = number(u, greatest(width))?;
    let sum = of_both(alloc, u, COp::Add)?;
    choice(u, test, most, sum)
}

fn saturated_difference(alloc: Global, u: &mut Unit) -> Result<CExprId, NoMemory>
    ensures grows { Grows u.old u.new }
    ensures made { IfOk result (λ it. HasExpr u.new it.0 (value_of false 0)) }
{
    let test = of_both(alloc, u, COp::Lt)?;
    let zero = number(u, 0)?;
    let difference = of_both(alloc, u, COp::Sub)?;
    choice(u, test, zero, difference)
}

// `return value;`
fn body(alloc: Global, u: &mut Unit, is_sum: bool, width: Width) -> Result<CStmtId, NoMemory>
    ensures grows { Grows u.old u.new }
    ensures made { IfOk result (λ it. HasCode u.new it.0 (leave (Some (value_of is_sum (bits_of width))) finish)) }
{
    let value = if is_sum {
        saturated_sum(alloc, u, width)
    } else {
        saturated_difference(alloc, u)
    };
    returned(u, value?)
}

// A block that returns a value.
fn returned(u: &mut Unit, value: CExprId) -> Result<CStmtId, NoMemory>
    requires { value.0 < length u.old.exprs }
    ensures grows { Grows u.old u.new }
    ensures made { IfOk result (λ it. HasCode u.new it.0 (leave (Some (expr_of u.old value.0)) finish)) }
{
    let rest = put_end(u)?;
    put_stmt(
        u,
        CStmt::Return {
            value: Some(value),
            rest,
        },
    )
}

/// The end of a block.
pub fn put_end(u: &mut Unit) -> Result<CStmtId, NoMemory>
    ensures grows { Grows u.old u.new }
    ensures made { IfOk result (λ it. HasCode u.new it.0 finish) }
{
    u.is_sound();
    u.share_end()
}

/// Adds a statement whose parts the unit has.
pub fn put_stmt(u: &mut Unit, x: CStmt) -> Result<CStmtId, NoMemory>
    requires { FitsStmt u.old (length u.old.stmts) x }
    ensures grows { Grows u.old u.new }
    ensures made { IfOk result (λ it. HasCode u.new it.0 (made_code u.old.names (expr_of u.old) (code_of u.old) x)) }
{
    u.is_sound();
    u.add_stmt(x)
}

// The parameters `a` and `b`.
#[tactic(auto, unfolding(c_text::specs::CSpelling::is_reserved))]
fn parameters(alloc: Global, u: &mut Unit, width: Width) -> Result<CList<CParam>, NoMemory>
    ensures grows { Grows u.old u.new }
    ensures made { IfOk result (λ list. HasParams u.new list × (map (param_tree u.new.names) list ≡ parameters_of (bits_of width))) }
{
    let a = put_name(u, b"a")?;
    let b = put_name(u, b"b")?;
    let kind = CType::Uint(uint_of(width));
    CList::from_slice(alloc, &[CParam { kind, name: a }, CParam { kind, name: b }])
}

/// Adds the function of a saturating operator at the end of the text.
pub fn put_saturating(
    alloc: Global,
    u: &mut Unit,
    is_sum: bool,
    width: Width,
) -> Result<(), NoMemory>
    ensures { IfOk result (λ _. GrowsBy (saturating_item is_sum (bits_of width) ∷ []) u.old u.new) }
{
    u.is_sound();
    let name = saturating_name(u, is_sum, width)?;
    let body = body(alloc, u, is_sum, width)?;
    let params = parameters(alloc, u, width)?;
    put_function(alloc, u, width, name, params, body)
}

fn put_function(
    alloc: Global,
    u: &mut Unit,
    width: Width,
    name: CNameId,
    params: CList<CParam>,
    body: CStmtId,
) -> Result<(), NoMemory>
    requires name { name.0 < length u.old.names }
    requires params { HasParams u.old params }
    requires body { body.0 < length u.old.stmts }
    ensures { IfOk result (λ _. GrowsBy (helper_item (bits_of width) (bytes_at u.old.names name.0) (map (param_tree u.old.names) params) (code_of u.old body.0) ∷ []) u.old u.new) }
{
    put_item(
        u,
        CItem::Function {
            linkage: Linkage::StaticInline,
            result: Some(CType::Uint(uint_of(width))),
            name,
            params,
            locals: CList::new(alloc),
            body,
        },
    )
}

/// Adds an item whose parts the unit has.
pub fn put_item(u: &mut Unit, x: CItem) -> Result<(), NoMemory>
    requires { FitsItem u.old x }
    ensures { IfOk result (λ _. GrowsBy (made_item u.old x ∷ []) u.old u.new) }
{
    u.is_sound();
    u.add_item(x)?;
    Ok(())
}
