// The lines that the program writes.

ghost use Rattle.std.specs.Prelude.{◌≡◌, IfOk, string_bytes};
ghost use Rattle.wf_tool.specs.Lines.{accepted_line, fault_line, refused_line, script_line, script_rule_name, text_line, usage_line};

use std::alloc::{AllocError, Global};
use wf_script_rules::XRule;
use wf_text::{Refusal, rule_name};
use wf_tool_runs::TextFault;

/// What words get that are no command form.
pub(crate) fn usage_line(alloc: Global) -> Result<String, AllocError>
    ensures { IfOk result (λ line. string_bytes line ≡ usage_line) }
{
    String::from_str(alloc, "usage: wuffsc COMMAND PKG [SCRIPT] FILE\n")
}

/// `ok N methods`, which an accepted package with so many methods gets.
#[tactic(auto, unfolding(crate::specs::Lines::accepted_line))]
pub(crate) fn accepted_line(alloc: Global, methods: usize) -> Result<String, AllocError>
    ensures { IfOk result (λ line. string_bytes line ≡ accepted_line methods) }
{
    format!(in alloc; "ok {methods} methods\n")
}

/// `refused RULE FILE:LINE:COL`
#[tactic(auto, unfolding(crate::specs::Lines::refused_line))]
pub(crate) fn refused_line(
    alloc: Global,
    file: &str,
    refusal: Refusal,
) -> Result<String, AllocError>
    ensures { IfOk result (λ line. string_bytes line ≡ refused_line file.now refusal) }
{
    let rule = rule_name(refusal.rule);
    let line = refusal.at.line;
    let col = refusal.at.col;
    format!(in alloc; "refused {rule} {file}:{line}:{col}\n")
}

/// `input fault FILE`
pub(crate) fn fault_line(alloc: Global, file: &str) -> Result<String, AllocError>
    ensures { IfOk result (λ line. string_bytes line ≡ fault_line file.now) }
{
    format!(in alloc; "input fault {file}\n")
}

// The name of a rule of scripts.
fn script_rule_name(rule: XRule) -> &'static str
    ensures { result.now ≡ script_rule_name rule }
{
    match rule {
        XRule::X1 => "X1",
        XRule::X2 => "X2",
        XRule::X3 => "X3",
        XRule::X4 => "X4",
        XRule::X5 => "X5",
    }
}

/// `script RULE line N`
#[tactic(auto, unfolding(crate::specs::Lines::script_line))]
pub(crate) fn script_line(alloc: Global, rule: XRule, line: u32) -> Result<String, AllocError>
    ensures { IfOk result (λ text. string_bytes text ≡ script_line rule line) }
{
    let name = script_rule_name(rule);
    format!(in alloc; "script {name} line {line}\n")
}

/// `text long`, `text deep AT`, `text notc AT` or `text form ITEM`
#[tactic(auto, unfolding(crate::specs::Lines::text_line))]
pub(crate) fn text_line(alloc: Global, fault: TextFault) -> Result<String, AllocError>
    ensures { IfOk result (λ text. string_bytes text ≡ text_line fault) }
{
    match fault {
        TextFault::TooLong => String::from_str(alloc, "text long\n"),
        TextFault::TooDeep { at } => format!(in alloc; "text deep {at}\n"),
        TextFault::NotC { at } => format!(in alloc; "text notc {at}\n"),
        TextFault::NoSuchForm { item } => format!(in alloc; "text form {item}\n"),
    }
}
