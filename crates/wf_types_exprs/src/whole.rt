// Declared types, and calls that stand as a whole.

ghost use Rattle.std.specs.Prelude.{◌≡◌, length, IfOk, OnOk};
ghost use Rattle.wf_named.specs.NamedParts.{exprs_of, ArgsBelow, NamedTypeBelow};
ghost use Rattle.wf_named.specs.NamedTrees.{call_at, type_at};
ghost use Rattle.wf_types_rules.specs.DeclaredTypes.{declared};
ghost use Rattle.wf_types_rules.specs.Judgements.{whole_answer as answers_whole};
ghost use Rattle.wf_types_rules.specs.Parts.{declared_parts, whole_call_parts};
ghost use Rattle.wf_types_exprs.specs.Judged.{judged};

use crate::here::Here;
use crate::parts::whole_answer;
use crate::types::tell_place;
use crate::walk::{judge_call, judge_written};
use wf_ast::Ty;
use wf_named::{NamedCall, NamedType};
use wf_text::faults::NoMemory;
use wf_text::found::Found;
use wf_types_meanings::types::allowed;
use wf_types_rules::{Meaning, Role};

/// A type at its place: a declaration's, or the one after `as`. It is absent where it breaks a rule.
pub fn judge_type(
    here: &Here<'_>,
    found: &mut Found,
    role: Role,
    of: &NamedType,
) -> Result<Option<Ty>, NoMemory>
    requires { NamedTypeBelow (length here.now.nodes.now.exprs) of.now }
    ensures found { OnOk result (found.new ≡ judged here.now.around.now found.old (declared_parts role (type_at (exprs_of here.now.nodes.now) of.now))) }
    ensures of { IfOk result (λ ty. ty ≡ declared here.now.around.now role (type_at (exprs_of here.now.nodes.now) of.now)) }
{
    let written = judge_written(here, found, of)?;
    tell_place(found, role, written);
    Ok(allowed(role, written.of))
}

/// A call that stands by itself, as a statement or after `=` or `=?`, and what it gives.
pub fn judge_whole_call(
    here: &Here<'_>,
    found: &mut Found,
    call: &NamedCall,
) -> Result<Option<Meaning>, NoMemory>
    requires { ArgsBelow (length here.now.nodes.now.exprs) call.now.args }
    ensures found { OnOk result (found.new ≡ judged here.now.around.now found.old (whole_call_parts (call_at (exprs_of here.now.nodes.now) call.now))) }
    ensures of { IfOk result (λ m. m ≡ answers_whole here.now.around.now (call_at (exprs_of here.now.nodes.now) call.now)) }
{
    let fit = judge_call(here, found, call, false)?;
    Ok(whole_answer(here.around, call.callee, fit))
}
