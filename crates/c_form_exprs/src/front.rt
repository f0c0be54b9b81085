// What the first items of a unit declare.

ghost use Rattle.std.specs.Prelude.{◌≡◌, ◌<◌, ◌+◌, length, map, slice_get, Some, is_some, find, option_and_then, IfOk, OnOk};
ghost use Rattle.std.specs.Str.{bytes_eq};
ghost use Rattle.c_text.specs.CNodes.{bytes_at, field_tree, unit_tree};
ghost use Rattle.c_text.specs.CFits.{HasName, HasFields};
ghost use Rattle.c_text.specs.CTree.{struct_item};
ghost use Rattle.c_meaning.specs.CTypes.{structs_of, functions_of, texts_of, struct_named, function_named, field_named};
ghost use Rattle.c_meaning.specs.UnitForm.{is_among, item_name};
ghost use Rattle.c_form_exprs.specs.Front.{Finds, Tells, IsField, IsHead, IsNextText, IsNextFunction, front_items};

use crate::callable::in_expressions;
use crate::tables::NameTable;
use c_text::{CField, CItem, CItemId, CNameId, CParam, CType, Unit};
use std::alloc::Global;
use std::marker::Model;
use wf_text::NoMemory;

/// What a call asks of a function.
#[derive(Clone, Copy)]
pub struct Head<'u> {
    /// The parameters.
    pub params: &'u [CParam],
    /// The type of the result; none for `void`.
    pub result: Option<CType>,
    /// Whether it may be called in an expression.
    pub in_expressions: bool,
}

/// The structs, strings and functions that some items of a unit declare, the first ones of the text.
pub struct Front<'u> {
    unit: &'u Unit,
    count: usize,
    structs: NameTable<'u, usize>,
    fields: Vec<NameTable<'u, CField>>,
    texts: NameTable<'u, ()>,
    functions: NameTable<'u, Head<'u>>,
    alloc: Global,
}

impl<'u> Drop for Front<'u> {
    fn drop(self) {
        let Front {
            unit: _,
            count: _,
            structs: _,
            fields: _,
            texts: _,
            functions: _,
            alloc: _,
        } = self;
    }
}

impl<'u> Model for Front<'u> {
    ghost use Rattle.c_form_exprs.specs.Front.{Front, TellsFront};

    ghost Value = { Front };

    ghost view = { λ front. record { nodes = front.unit.now; count = front.count } };

    ghost invariant = { λ front. TellsFront front.unit.now front.count front.structs front.fields.items front.texts front.functions };
}

impl<'u> Front<'u> {
    /// Nothing is declared yet; nothing is allocated.
    pub fn new(alloc: Global, unit: &'u Unit) -> Front<'u>
        ensures { result ≡ record { nodes = unit.now; count = 0 } }
    {
        Front {
            unit,
            count: 0,
            structs: NameTable::new(alloc, unit),
            fields: Vec::new(alloc),
            texts: NameTable::new(alloc, unit),
            functions: NameTable::new(alloc, unit),
            alloc,
        }
    }

    /// The unit.
    pub fn unit(&self) -> &'u Unit
        ensures { result.now ≡ self.now.nodes }
    {
        self.unit
    }

    /// Whether the name is that of a struct.
    #[tactic(auto, using(crate::proofs::FrontLemmas::struct_listed, crate::proofs::FrontLemmas::in_structs))]
    pub fn is_struct(&self, name: CNameId) -> bool
        requires { HasName self.now.nodes name }
        ensures { result ≡ is_some (struct_named (structs_of (front_items self.now)) (bytes_at self.now.nodes.names name.0)) }
    {
        self.structs.get(name).is_some()
    }

    /// Whether the name is that of a string.
    #[tactic(auto, using(crate::proofs::FrontLemmas::text_listed, crate::proofs::FrontLemmas::in_texts))]
    pub(crate) fn is_text(&self, name: CNameId) -> bool
        requires { HasName self.now.nodes name }
        ensures { result ≡ is_some (find (λ it. bytes_eq it.name (bytes_at self.now.nodes.names name.0)) (texts_of (front_items self.now))) }
    {
        self.texts.get(name).is_some()
    }

    /// The function of this name.
    #[tactic(auto, using(crate::proofs::FrontLemmas::function_listed, crate::proofs::FrontLemmas::in_functions))]
    pub(crate) fn function(&self, name: CNameId) -> Option<Head<'u>>
        requires { HasName self.now.nodes name }
        ensures { Finds (IsHead self.now.nodes) result (function_named (functions_of (front_items self.now)) (bytes_at self.now.nodes.names name.0)) }
    {
        self.functions.get(name)
    }

    /// The field of this name in the struct of that name.
    pub(crate) fn field(&self, of: CNameId, name: CNameId) -> Option<CField>
        requires of { HasName self.now.nodes of }
        requires name { HasName self.now.nodes name }
        ensures { Finds (IsField self.now.nodes) result (option_and_then (λ it. field_named it.fields (bytes_at self.now.nodes.names name.0)) (struct_named (structs_of (front_items self.now)) (bytes_at self.now.nodes.names of.0))) }
    {
        let k = self.structs.get(of)?;
        self.fields[k].get(name)
    }

    /// Whether the name is that of a function.
    #[tactic(auto, using(crate::proofs::FrontLemmas::function_known, crate::proofs::FrontLemmas::in_functions))]
    fn is_function(&self, name: CNameId) -> bool
        requires { HasName self.now.nodes name }
        ensures { result ≡ is_some (function_named (functions_of (front_items self.now)) (bytes_at self.now.nodes.names name.0)) }
    {
        self.functions.get(name).is_some()
    }

    /// Whether one of the items has this name.
    #[tactic(auto, using(crate::proofs::FrontLemmas::among_items))]
    pub fn is_declared(&self, name: CNameId) -> bool
        requires { HasName self.now.nodes name }
        ensures { result ≡ is_among (map item_name (front_items self.now)) (bytes_at self.now.nodes.names name.0) }
    {
        if self.is_struct(name) {
            return true;
        }
        if self.is_text(name) {
            return true;
        }
        self.is_function(name)
    }

    /// The number of items with the next one.
    fn next(&self) -> usize
        requires { self.now.count < length self.now.nodes.items }
        ensures { result ≡ self.now.count + 1 }
    {
        let _items = self.unit.items();
        self.count + 1
    }

    /// Adds what the next item declares. What has the name of an earlier item isn't found. After `NoMemory` the items
    /// are as before.
    pub fn declare(&mut self) -> Result<(), NoMemory>
        requires { self.old.count < length self.old.nodes.items }
        ensures { OnOk result (self.new ≡ record self.old { count = self.old.count + 1 }) }
    {
        let unit = self.unit;
        match unit.item(CItemId(self.count)) {
            CItem::Struct { fields, name } => self.declare_struct(*name, fields.as_slice()),
            CItem::Text { name, .. } => self.declare_text(*name),
            CItem::Function {
                linkage,
                result,
                name,
                params,
                locals,
                body,
            } => {
                let head = Head {
                    params: params.as_slice(),
                    result: *result,
                    in_expressions: in_expressions(
                        unit,
                        *linkage,
                        *result,
                        params.as_slice(),
                        locals.as_slice(),
                        *body,
                    ),
                };
                self.declare_function(*name, head)
            }
        }
    }

    /// Adds the next item, a struct of this name with these fields.
    fn declare_struct(&mut self, name: CNameId, fields: &'u [CField]) -> Result<(), NoMemory>
        requires more { self.old.count < length self.old.nodes.items }
        requires next { slice_get (unit_tree self.old.nodes) self.old.count ≡ Some (struct_item (map (field_tree self.old.nodes.names) fields.now) (bytes_at self.old.nodes.names name.0)) }
        requires name { HasName self.old.nodes name }
        requires fields { HasFields self.old.nodes fields.now }
        ensures { OnOk result (self.new ≡ record self.old { count = self.old.count + 1 }) }
    {
        let next = self.next();
        let k = self.fields.len();
        let table = field_table(self.alloc, self.unit, fields)?;
        self.fields.push(table)?;
        self.structs.add(name, k)?;
        self.count = next;
        Ok(())
    }

    /// Adds the next item, a string of this name.
    fn declare_text(&mut self, name: CNameId) -> Result<(), NoMemory>
        requires more { self.old.count < length self.old.nodes.items }
        requires next { IsNextText self.old (bytes_at self.old.nodes.names name.0) }
        requires name { HasName self.old.nodes name }
        ensures { OnOk result (self.new ≡ record self.old { count = self.old.count + 1 }) }
    {
        let next = self.next();
        self.texts.add(name, ())?;
        self.count = next;
        Ok(())
    }

    /// Adds the next item, a function of this name.
    fn declare_function(&mut self, name: CNameId, head: Head<'u>) -> Result<(), NoMemory>
        requires more { self.old.count < length self.old.nodes.items }
        requires next { IsNextFunction self.old (bytes_at self.old.nodes.names name.0) head }
        requires name { HasName self.old.nodes name }
        ensures { OnOk result (self.new ≡ record self.old { count = self.old.count + 1 }) }
    {
        let next = self.next();
        self.functions.add(name, head)?;
        self.count = next;
        Ok(())
    }
}

/// The fields of a struct by their names; of two with one name, the first.
fn field_table<'u>(
    alloc: Global,
    unit: &'u Unit,
    fields: &'u [CField],
) -> Result<NameTable<'u, CField>, NoMemory>
    requires { HasFields unit.now fields.now }
    ensures names { IfOk result (λ table. table.names ≡ unit.now.names) }
    ensures tells { IfOk result (λ table. Tells (IsField unit.now) (λ f. f.name) table.entries (map (field_tree unit.now.names) fields.now)) }
{
    let mut table = NameTable::new(alloc, unit);
    for field in fields {
        table.add(field.name, *field)?;
    }
    Ok(table)
}
