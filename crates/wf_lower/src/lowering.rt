// The whole text of a package: the io buffer, the structs, each after those that its fields hold, the statuses and helpers that are
// used, and the functions, each after those that it calls.

ghost use Rattle.std.specs.Prelude.{◌≡◌, ◌<◌, ◌++◌, ◌∷◌, [], ℕ, List, true, length, slice_get, Some, IfOk, OnOk};
ghost use Rattle.wf_base.specs.BaseTable.{bits_of};
ghost use Rattle.wf_ast.specs.TypedPackage.{MethodTree, package_of};
ghost use Rattle.c_text.specs.CNodes.{bytes_at, made_item, unit_tree};
ghost use Rattle.c_text.specs.CSpelling.{is_string};
ghost use Rattle.c_text.specs.CTree.{ItemTree, text_item};
ghost use Rattle.wf_exprs.specs.Grown.{Grows};
ghost use Rattle.wf_exprs.specs.Helpers.{all_saturating, saturating};
ghost use Rattle.wf_exprs_nodes.specs.Growth.{GrowsBy};
ghost use Rattle.wf_exprs_nodes.specs.Marks.{Marks};
ghost use Rattle.wf_lower_stmts.specs.Forms.{form_of};
ghost use Rattle.wf_lower.specs.Bodies.{body_function as body_function_of, functions_of};
ghost use Rattle.wf_lower.specs.Called.{AreCalled};
ghost use Rattle.wf_lower.specs.Coroutines.{HaveCoroutines};
ghost use Rattle.wf_lower.specs.Made.{AddsFunctions, AreRead, FitFunctions, FitsFunction, HasFunctionTrees, IsReady, IsSpelt, item_trees};
ghost use Rattle.wf_lower.specs.Shared.{HasOwnNames, HasShared};
ghost use Rattle.wf_lower.specs.Parts.{entry_functions, items_before, saturating_widths};
ghost use Rattle.wf_lower.specs.Unit.{all_functions as all_functions_of, initialize_function as initialize_function_of, initialize_functions, io_buffer_item, is_read_in, lowered_unit, method_functions, struct_items, used_helpers, used_texts};

use crate::bodies::body_function;
use crate::called::called_methods;
use crate::coroutines::structs_with_coroutines;
use crate::entries::entry_function;
use crate::initializing::initialize_function;
use crate::shared::{OwnNames, Shared, put_shared};
use crate::source::{Source, started_by_method, statements};
use crate::structs::{io_buffer, struct_item};
use c_text::{CItem, CNameId, Unit};
use std::alloc::Global;
use wf_ast::StructId;
use wf_base::Width;
use wf_bounds::Accepted;
use wf_exprs::names::put_numbered;
use wf_exprs::rated::saturating_name;
use wf_exprs_nodes::helpers::{put_item, put_saturating};
use wf_exprs_nodes::marks::{ReadNames, mark_code};
use wf_lower_stmts::Body;
use wf_text::{MethodId, NoMemory, StatusId};

/// Adds the names that a function reads.
fn mark_function(u: &Unit, read: &mut ReadNames, item: &CItem)
    requires fits { FitsFunction u.now item.now }
    requires sized { length read.old ≡ length u.now.names }
    ensures marks { Marks (λ name. is_read_in name (made_item u.now item.now)) u.now.names read.old read.new }
    ensures sized { length read.new ≡ length read.old }
{
    match item {
        CItem::Function { body, .. } => mark_code(u, read, *body),
        CItem::Struct { .. } | CItem::Text { .. } => {}
    }
}

/// The names that these functions read.
fn names_read(alloc: Global, u: &Unit, functions: &[CItem]) -> Result<ReadNames, NoMemory>
    requires { FitFunctions u.now functions.now }
    ensures { IfOk result (λ read. AreRead (item_trees u.now functions.now) u.now.names read) }
{
    let mut read = ReadNames::new(alloc);
    read.begin(u)?;
    for item in functions {
        mark_function(u, &mut read, item);
    }
    Ok(read)
}

/// The function that makes an object of a struct ready.
fn add_initialize(
    p: &Source,
    u: &mut Unit,
    s: u32,
    functions: &mut Vec<CItem>,
) -> Result<(), NoMemory>
    requires ready { IsReady p.now.t.now p.now.points.now p.now.started.now }
    requires known { s < length p.now.t.now.structs }
    ensures grows { Grows u.old u.new }
    ensures made { OnOk result (AddsFunctions u.old u.new functions.old.items functions.new.items (initialize_function_of (package_of p.now.t.now) s ∷ [])) }
{
    let item = initialize_function(p.alloc, p.t, u, StructId(s))?;
    put_into(functions, item)
}

/// Adds an item at the end.
fn put_into(items: &mut Vec<CItem>, item: CItem) -> Result<(), NoMemory>
    ensures { OnOk result (items.new.items ≡ items.old.items ++ item ∷ []) }
{
    items.push(item)?;
    Ok(())
}

fn add_all_initialize(p: &Source, u: &mut Unit, functions: &mut Vec<CItem>) -> Result<(), NoMemory>
    requires { IsReady p.now.t.now p.now.points.now p.now.started.now }
    ensures grows { Grows u.old u.new }
    ensures made { OnOk result (AddsFunctions u.old u.new functions.old.items functions.new.items (initialize_functions (package_of p.now.t.now) (package_of p.now.t.now).struct_order)) }
{
    let order = p.t.struct_order();
    for i in 0..order.len() {
        add_initialize(p, u, order[i], functions)?;
    }
    Ok(())
}

/// The body of a method. `read` only serves for what the body reads.
fn add_body(
    p: &Source,
    u: &mut Unit,
    m: MethodId,
    names: &OwnNames,
    functions: &mut Vec<CItem>,
    read: &mut ReadNames,
) -> Result<(), NoMemory>
    requires names { HasOwnNames u.old names.now }
    requires ready { IsReady p.now.t.now p.now.points.now p.now.started.now }
    requires known { m.0 < length p.now.t.now.methods }
    ensures grows { Grows u.old u.new }
    ensures made { OnOk result ((method : MethodTree) → slice_get (package_of p.now.t.now).methods m.0 ≡ Some method → AddsFunctions u.old u.new functions.old.items functions.new.items (body_function_of (form_of (package_of p.now.t.now) method) ∷ [])) }
{
    let b = Body::new(p.alloc, p.t, p.points, p.started(m), m);
    let item = body_function(&b, u, p.t.body(m), read, names)?;
    put_into(functions, item)
}

/// The entry of a method, where it has one.
fn add_entry(
    p: &Source,
    u: &mut Unit,
    m: MethodId,
    shared: &Shared,
    functions: &mut Vec<CItem>,
) -> Result<(), NoMemory>
    requires shared { HasShared u.old shared.now }
    requires ready { IsReady p.now.t.now p.now.points.now p.now.started.now }
    requires called { AreCalled (package_of p.now.t.now) p.now.called.now }
    requires known { m.0 < length p.now.t.now.methods }
    ensures grows { Grows u.old u.new }
    ensures made { OnOk result ((method : MethodTree) → slice_get (package_of p.now.t.now).methods m.0 ≡ Some method → AddsFunctions u.old u.new functions.old.items functions.new.items (entry_functions (package_of p.now.t.now) m.0 method)) }
{
    if p.has_entry(m) {
        let item = entry_function(p.alloc, p.t, u, m, shared)?;
        put_into(functions, item)
    } else {
        Ok(())
    }
}

/// The body of a method, and its entry where it has one.
fn add_method(
    p: &Source,
    u: &mut Unit,
    m: u32,
    shared: &Shared,
    functions: &mut Vec<CItem>,
    read: &mut ReadNames,
) -> Result<(), NoMemory>
    requires shared { HasShared u.old shared.now }
    requires ready { IsReady p.now.t.now p.now.points.now p.now.started.now }
    requires called { AreCalled (package_of p.now.t.now) p.now.called.now }
    requires known { m < length p.now.t.now.methods }
    ensures grows { Grows u.old u.new }
    ensures made { OnOk result (AddsFunctions u.old u.new functions.old.items functions.new.items (functions_of (package_of p.now.t.now) m (slice_get (package_of p.now.t.now).methods m))) }
{
    add_body(p, u, MethodId(m), &shared.names, functions, read)?;
    add_entry(p, u, MethodId(m), shared, functions)
}

fn add_methods(p: &Source, u: &mut Unit, functions: &mut Vec<CItem>) -> Result<(), NoMemory>
    requires ready { IsReady p.now.t.now p.now.points.now p.now.started.now }
    requires called { AreCalled (package_of p.now.t.now) p.now.called.now }
    ensures grows { Grows u.old u.new }
    ensures made { OnOk result (AddsFunctions u.old u.new functions.old.items functions.new.items (method_functions (package_of p.now.t.now) (package_of p.now.t.now).order)) }
{
    let order = p.t.order();
    let shared = put_shared(p.alloc, u)?;
    let mut read = ReadNames::new(p.alloc);
    for i in 0..order.len() {
        add_method(p, u, order[i], &shared, functions, &mut read)?;
    }
    Ok(())
}

/// All functions, in the order of the text.
fn all_functions(p: &Source, u: &mut Unit) -> Result<Vec<CItem>, NoMemory>
    requires ready { IsReady p.now.t.now p.now.points.now p.now.started.now }
    requires called { AreCalled (package_of p.now.t.now) p.now.called.now }
    ensures grows { Grows u.old u.new }
    ensures made { IfOk result (λ functions. HasFunctionTrees u.new functions.items (all_functions_of (package_of p.now.t.now))) }
{
    let count = p
        .t
        .struct_order()
        .len()
        .saturating_add(p.t.order().len().saturating_mul(2));
    let mut functions = Vec::with_capacity(p.alloc, count)?;
    add_all_initialize(p, u, &mut functions)?;
    add_methods(p, u, &mut functions)?;
    Ok(functions)
}

fn add_buffer(p: &Source, u: &mut Unit) -> Result<(), NoMemory>
    ensures { OnOk result (GrowsBy (io_buffer_item ∷ []) u.old u.new) }
{
    u.is_sound();
    let item = io_buffer(p.alloc, u)?;
    put_item(u, item)
}

fn add_struct(p: &Source, u: &mut Unit, s: u32) -> Result<(), NoMemory>
    requires ready { IsReady p.now.t.now p.now.points.now p.now.started.now }
    requires coroutines { HaveCoroutines (package_of p.now.t.now) p.now.coroutines.now }
    requires known { s < length p.now.t.now.structs }
    ensures { OnOk result (GrowsBy (struct_items (package_of p.now.t.now) (s ∷ [])) u.old u.new) }
{
    u.is_sound();
    let item = struct_item(p, u, StructId(s))?;
    put_item(u, item)
}

fn add_structs(p: &Source, u: &mut Unit) -> Result<(), NoMemory>
    requires ready { IsReady p.now.t.now p.now.points.now p.now.started.now }
    requires coroutines { HaveCoroutines (package_of p.now.t.now) p.now.coroutines.now }
    ensures { OnOk result (GrowsBy (struct_items (package_of p.now.t.now) (package_of p.now.t.now).struct_order) u.old u.new) }
{
    let order = p.t.struct_order();
    for i in 0..order.len() {
        add_struct(p, u, order[i])?;
    }
    Ok(())
}

/// A string with a name that the unit has.
fn put_text(u: &mut Unit, name: CNameId, bytes: &[u8]) -> Result<(), NoMemory>
    requires name { name.0 < length u.old.names }
    requires string { is_string bytes.now ≡ true }
    ensures { OnOk result (GrowsBy (text_item (bytes_at u.old.names name.0) bytes.now ∷ []) u.old u.new) }
{
    u.is_sound();
    let text = u.add_string(bytes)?;
    put_item(u, CItem::Text { name, text })
}

/// A status, where a function reads it.
fn add_text(p: &Source, u: &mut Unit, n: u32, read: &ReadNames) -> Result<(), NoMemory>
    requires ready { IsReady p.now.t.now p.now.points.now p.now.started.now }
    requires known { n < length p.now.t.now.statuses }
    ensures { OnOk result ((functions : List ItemTree) → AreRead functions u.old.names read.now → (text : List ℕ) → slice_get p.now.t.now.statuses n ≡ Some text → GrowsBy (used_texts functions n (text ∷ [])) u.old u.new) }
{
    u.is_sound();
    let name = put_numbered(u, b"status_", n as u64)?;
    if read.has(u, name) {
        put_text(u, name, p.t.status_text(StatusId(n)))
    } else {
        Ok(())
    }
}

fn add_texts(p: &Source, u: &mut Unit, read: &ReadNames) -> Result<(), NoMemory>
    requires { IsReady p.now.t.now p.now.points.now p.now.started.now }
    ensures { OnOk result ((functions : List ItemTree) → AreRead functions u.old.names read.now → GrowsBy (used_texts functions 0 p.now.t.now.statuses) u.old u.new) }
{
    for n in 0..p.t.statuses() {
        add_text(p, u, n, read)?;
    }
    Ok(())
}

/// A saturating function, where it is called.
fn add_helper(
    p: &Source,
    u: &mut Unit,
    is_sum: bool,
    width: Width,
    read: &ReadNames,
) -> Result<(), NoMemory>
    ensures { OnOk result ((functions : List ItemTree) → AreRead functions u.old.names read.now → GrowsBy (used_helpers functions (saturating is_sum (bits_of width) ∷ [])) u.old u.new) }
{
    u.is_sound();
    let name = saturating_name(u, is_sum, width)?;
    if read.has(u, name) {
        put_saturating(p.alloc, u, is_sum, width)
    } else {
        Ok(())
    }
}

/// The functions of one saturating operator.
fn add_widths(p: &Source, u: &mut Unit, is_sum: bool, read: &ReadNames) -> Result<(), NoMemory>
    ensures { OnOk result ((functions : List ItemTree) → AreRead functions u.old.names read.now → GrowsBy (used_helpers functions (saturating_widths is_sum)) u.old u.new) }
{
    add_helper(p, u, is_sum, Width::W8, read)?;
    add_helper(p, u, is_sum, Width::W16, read)?;
    add_helper(p, u, is_sum, Width::W32, read)?;
    add_helper(p, u, is_sum, Width::W64, read)
}

fn add_helpers(p: &Source, u: &mut Unit, read: &ReadNames) -> Result<(), NoMemory>
    ensures { OnOk result ((functions : List ItemTree) → AreRead functions u.old.names read.now → GrowsBy (used_helpers functions all_saturating) u.old u.new) }
{
    add_widths(p, u, true, read)?;
    add_widths(p, u, false, read)
}

fn add_functions(u: &mut Unit, functions: Vec<CItem>) -> Result<(), NoMemory>
    requires { FitFunctions u.old functions.items }
    ensures { OnOk result (GrowsBy (item_trees u.old functions.items) u.old u.new) }
{
    for item in functions {
        put_item(u, item)?;
    }
    Ok(())
}

/// The items before the functions, where these read these names.
fn add_before(p: &Source, u: &mut Unit, read: &ReadNames) -> Result<(), NoMemory>
    requires ready { IsReady p.now.t.now p.now.points.now p.now.started.now }
    requires coroutines { HaveCoroutines (package_of p.now.t.now) p.now.coroutines.now }
    ensures { OnOk result ((functions : List ItemTree) → AreRead functions u.old.names read.now → GrowsBy (items_before (package_of p.now.t.now) functions) u.old u.new) }
{
    add_buffer(p, u)?;
    add_structs(p, u)?;
    add_texts(p, u, read)?;
    add_helpers(p, u, read)
}

/// The items of the text.
fn add_items(p: &Source, u: &mut Unit) -> Result<(), NoMemory>
    requires ready { IsReady p.now.t.now p.now.points.now p.now.started.now }
    requires called { AreCalled (package_of p.now.t.now) p.now.called.now }
    requires coroutines { HaveCoroutines (package_of p.now.t.now) p.now.coroutines.now }
    ensures { OnOk result (GrowsBy (lowered_unit (package_of p.now.t.now)) u.old u.new) }
{
    u.is_sound();
    let functions = all_functions(p, u)?;
    let read = names_read(p.alloc, u, functions.as_slice())?;
    add_before(p, u, &read)?;
    add_functions(u, functions)
}

/// The C text of an accepted package whose names and status texts are spelt as C spells names and strings. `Err` where memory was
/// refused.
pub fn lower(alloc: Global, a: &Accepted) -> Result<Unit, NoMemory>
    requires { IsSpelt a.now.nodes }
    ensures { IfOk result (λ u. unit_tree u ≡ lowered_unit (package_of a.now.nodes)) }
{
    let t = a.typed();
    let started = started_by_method(alloc, t)?;
    let called = called_methods(alloc, t)?;
    let coroutines = structs_with_coroutines(alloc, t)?;
    let mut u = Unit::new(alloc);
    // A statement of a coroutine often becomes about a dozen of C's, with not as many expressions.
    let stmts = statements(t);
    u.reserve(stmts.saturating_mul(8), stmts.saturating_mul(12))?;
    let p = Source {
        alloc,
        t,
        points: a.points(),
        started: started.as_slice(),
        called: called.as_slice(),
        coroutines: coroutines.as_slice(),
    };
    add_items(&p, &mut u)?;
    Ok(u)
}
