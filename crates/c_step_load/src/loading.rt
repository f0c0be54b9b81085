// The functions of a unit, one after the other (ISO/IEC 9899:1999, 6.9).

ghost use Rattle.std.specs.Prelude.{◌≡◌, ◌<◌, ◌+◌, ◌++◌, ◌∷◌, [], List, true, length, map, IfOk, OnOk};
ghost use Rattle.c_text.specs.CNodes.{local_tree, expr_of, code_of as body_of, unit_tree};
ghost use Rattle.c_meaning.specs.CTypes.{Function};
ghost use Rattle.c_meaning.specs.CCall.{program_of, scope_in};
ghost use Rattle.c_meaning.specs.UnitForm.{all_distinct};
ghost use Rattle.c_form_stmts.specs.Functions.{HasParts};
ghost use Rattle.c_step_text.specs.Layout.{Names as NamesOf, go};
ghost use Rattle.c_step_text.specs.Emitted.{exprs_of};
ghost use Rattle.c_step_load_stmts.specs.Bodies.{nodes_of, Fits, Tells};
ghost use Rattle.c_step_run.specs.Coding.{CodeView, inline_length as inline_length_of};
ghost use Rattle.c_step_program.specs.Programs.{initial_exprs, initials_of, with_function, no_code, code_of};
ghost use Rattle.c_step_load.specs.Loading.{nodes_in, program_in, own_names, IsKnown, IsFunction, names_by, with_body, IsBuilt, code_before};

use crate::functions::{Known, inline, inline_length, scope_of, takes_turn};
use crate::initials::put_initials;
use crate::numbered::Numbered;
use c_form_stmts::Parts;
use c_step_load_exprs::Names;
use c_step_load_stmts::{Body, Spot, Work, label_numbers, put};
use c_step_places::{Weighed, number, weigh_all};
use c_step_run::{Code, Func, Initial};
use c_step_text::{Span, StmtInstr, Text};
use c_text::{CItem, CItemId, CStmt, CStmtId, Unit};
use std::alloc::Global;
use wf_text::NoMemory;

/// The code that is made, function by function.
pub(crate) struct Build {
    /// The text, and what is left of a body.
    pub work: Work,
    /// The locals of all functions.
    pub initials: Vec<Initial>,
    /// The functions.
    pub functions: Vec<Func>,
    /// How many instructions their values in expressions have.
    pub rank: usize,
}

impl Drop for Build {
    fn drop(self) {
        let Build {
            work: _,
            initials: _,
            functions: _,
            rank: _,
        } = self;
    }
}

/// How many instructions of statements a text has.
fn statements_end(text: &Text) -> usize
    ensures { result ≡ length text.now.statements }
{
    text.statements.len()
}

/// How many instructions of expressions a text has.
fn exprs_end(text: &Text) -> usize
    ensures { result ≡ length text.now.exprs }
{
    text.exprs.len()
}

/// How many locals there are.
fn initials_end(initials: &Vec<Initial>) -> usize
    ensures { result ≡ length initials.now.items }
{
    initials.len()
}

/// How many functions there are.
fn functions_end(functions: &Vec<Func>) -> usize
    ensures { result ≡ length functions.now.items }
{
    functions.len()
}

/// Puts down a function with these parts, whose body begins at a number: its body, its end and its locals. The number of
/// the instructions up to the end of its body's expressions.
fn put_function(
    body: &Body<'_, '_, '_>,
    work: &mut Work,
    initials: &mut Vec<Initial>,
    at: Spot,
    parts: Parts<'_>,
) -> Result<usize, NoMemory>
    requires fits { Fits body.now }
    requires parts { HasParts (nodes_of body.now) parts }
    requires left { work.old.left.items ≡ [] }
    ensures left { OnOk result (work.new.left.items ≡ []) }
    ensures text { (names : NamesOf) → Tells body.now names → OnOk result (work.new.text ≡ with_body names work.old.text at.number at.next (body_of (nodes_of body.now) parts.entry.body.0) (initial_exprs names.scope (map (local_tree (nodes_of body.now).names (expr_of (nodes_of body.now))) parts.entry.locals.now))) }
    ensures initials { (names : NamesOf) → Tells body.now names → OnOk result (initials.new.items ≡ initials.old.items ++ initials_of names.scope (length parts.entry.params.now) (length work.old.text.exprs + length (exprs_of names (body_of (nodes_of body.now) parts.entry.body.0))) (map (local_tree (nodes_of body.now).names (expr_of (nodes_of body.now))) parts.entry.locals.now)) }
    ensures end { (names : NamesOf) → Tells body.now names → IfOk result (λ end. end ≡ length work.old.text.exprs + length (exprs_of names (body_of (nodes_of body.now) parts.entry.body.0))) }
{
    body.lay_all(work, at, parts.body)?;
    put(&mut work.text, StmtInstr::Finish)?;
    let end = exprs_end(&work.text);
    let first = parts.params.len();
    put_initials(body, &mut work.text, initials, first, parts.locals)?;
    Ok(end)
}

/// The same of a function of the unit before which so many functions stand, with the names of its expressions and the
/// numbers of its labels.
fn load_text(
    known: &Known<'_, '_>,
    count: usize,
    work: &mut Work,
    initials: &mut Vec<Initial>,
    at: Spot,
    parts: Parts<'_>,
) -> Result<usize, NoMemory>
    requires known { IsKnown known.now }
    requires parts { HasParts (nodes_in known.now) parts }
    requires own { all_distinct (map (λ it. it.name) (own_names (nodes_in known.now) parts)) ≡ true }
    requires left { work.old.left.items ≡ [] }
    ensures left { OnOk result (work.new.left.items ≡ []) }
    ensures text { (f : Function) (others callable : List Function) → IsFunction (nodes_in known.now) parts.entry f others callable → count ≡ length callable → OnOk result (work.new.text ≡ with_body (names_by (nodes_in known.now) f callable at.number) work.old.text at.number at.next f.body (initial_exprs (scope_in (program_in (nodes_in known.now)) f) f.locals)) }
    ensures initials { (f : Function) (others callable : List Function) → IsFunction (nodes_in known.now) parts.entry f others callable → count ≡ length callable → OnOk result (initials.new.items ≡ initials.old.items ++ initials_of (scope_in (program_in (nodes_in known.now)) f) (length f.params) (length work.old.text.exprs + length (exprs_of (names_by (nodes_in known.now) f callable at.number) f.body)) f.locals) }
    ensures end { (f : Function) (others callable : List Function) → IsFunction (nodes_in known.now) parts.entry f others callable → count ≡ length callable → IfOk result (λ end. end ≡ length work.old.text.exprs + length (exprs_of (names_by (nodes_in known.now) f callable at.number) f.body)) }
{
    let scope = scope_of(known.alloc, known.front, parts)?;
    let labels = label_numbers(known.alloc, &known.weighed, parts.body, at.number)?;
    let body = Body {
        names: Names {
            scope: &scope,
            numbers: known.numbers,
        },
        weighed: known.weighed,
        labels: &labels,
        result: parts.result_type,
        number: count,
        alloc: known.alloc,
    };
    put_function(&body, work, initials, at, parts)
}

/// Adds a function; `rank` counts the instructions of values in expressions.
fn add(functions: &mut Vec<Func>, rank: &mut usize, func: Func) -> Result<(), NoMemory>
    ensures functions { OnOk result (functions.new.items ≡ functions.old.items ++ func ∷ []) }
    ensures rank { OnOk result (rank.new ≡ rank.old + inline_length_of func.inline) }
{
    functions.push(func)?;
    *rank = number(*rank, inline_length(func.inline), 0)?;
    Ok(())
}

/// The number to go to for a body at a place.
fn entry(unit: &Unit, at: Spot, body: CStmtId) -> usize
    requires { body.0 < length unit.now.stmts }
    ensures { result ≡ go at.number at.next (body_of unit.now body.0) }
{
    match unit.stmt(body) {
        CStmt::End => at.next,
        _ => at.number,
    }
}

impl Build {
    /// No code yet; nothing is allocated.
    fn new(alloc: Global) -> Build
        ensures { IsBuilt result no_code }
    {
        Build {
            work: Work::new(alloc),
            initials: Vec::new(alloc),
            functions: Vec::new(alloc),
            rank: 0,
        }
    }

    /// The code.
    fn code(self) -> Code
        ensures { (c : CodeView) → IsBuilt self c → result ≡ c }
    {
        let Build {
            work,
            initials,
            functions,
            rank: _,
        } = self;
        Code {
            text: work.text(),
            initials,
            functions,
        }
    }

    /// Puts down a function with these parts.
    fn load_function(&mut self, known: &Known<'_, '_>, parts: Parts<'_>) -> Result<(), NoMemory>
        requires known { IsKnown known.now }
        requires parts { HasParts (nodes_in known.now) parts }
        requires own { all_distinct (map (λ it. it.name) (own_names (nodes_in known.now) parts)) ≡ true }
        requires left { self.old.work.left.items ≡ [] }
        ensures { (f : Function) (others callable : List Function) (c : CodeView) → IsFunction (nodes_in known.now) parts.entry f others callable → length c.functions ≡ length callable → IsBuilt self.old c → OnOk result (IsBuilt self.new (with_function (program_in (nodes_in known.now)) f callable c)) }
    {
        let start = statements_end(&self.work.text);
        let from = exprs_end(&self.work.text);
        let locals = initials_end(&self.initials);
        let next = number(start, known.weighed.weight(parts.body), 0)?;
        let at = Spot {
            number: start,
            next,
        };
        let count = functions_end(&self.functions);
        let to = load_text(known, count, &mut self.work, &mut self.initials, at, parts)?;
        let func = Func {
            start,
            entry: entry(known.weighed.unit, at, parts.body),
            turn: takes_turn(parts.linkage),
            initials: Span {
                from: locals,
                to: initials_end(&self.initials),
            },
            inline: inline(known.weighed.unit, parts, Span { from, to }),
            rank: self.rank,
        };
        add(&mut self.functions, &mut self.rank, func)
    }

    /// Puts down an item, where it is a function.
    fn load_item(&mut self, known: &Known<'_, '_>, i: usize) -> Result<(), NoMemory>
        requires known { IsKnown known.now }
        requires within { i < length (nodes_in known.now).items }
        requires built { IsBuilt self.old (code_before (nodes_in known.now) i) }
        ensures { OnOk result (IsBuilt self.new (code_before (nodes_in known.now) (i + 1))) }
    {
        match known.weighed.unit.item(CItemId(i)) {
            CItem::Function {
                linkage,
                result,
                params,
                locals,
                body,
                ..
            } => {
                let parts = Parts {
                    linkage: *linkage,
                    result_type: *result,
                    params: params.as_slice(),
                    locals: locals.as_slice(),
                    body: *body,
                };
                self.load_function(known, parts)
            }
            CItem::Struct { .. } => Ok(()),
            CItem::Text { .. } => Ok(()),
        }
    }
}

/// The code of the functions of a unit of which all is known.
fn load_items(known: &Known<'_, '_>) -> Result<Code, NoMemory>
    requires { IsKnown known.now }
    ensures { IfOk result (λ code. code ≡ code_of (program_in (nodes_in known.now)) (program_in (nodes_in known.now)).functions) }
{
    let mut build = Build::new(known.alloc);
    let mut i = 0;
    while i < known.weighed.unit.items() {
        build.load_item(known, i)?;
        i += 1;
    }
    Ok(build.code())
}

/// The code of the functions of a unit that has the unit form.
pub(crate) fn load_code(alloc: Global, numbered: &Numbered<'_>) -> Result<Code, NoMemory>
    ensures { IfOk result (λ code. code ≡ code_of (program_of (unit_tree numbered.now)) (program_of (unit_tree numbered.now)).functions) }
{
    numbered.formed().is_formed();
    let unit = numbered.unit();
    let weights = weigh_all(alloc, unit)?;
    let known = Known {
        front: numbered.front(),
        numbers: numbered.numbers(),
        weighed: Weighed {
            unit,
            weights: weights.as_slice(),
        },
        alloc,
    };
    load_items(&known)
}
