// The numbers of what a unit declares, by name: a string is one of the strings of the text in order, a function one of its
// functions, a field one of its struct's. A name of the unit is looked up by its number; where only its bytes are at hand, a
// function is looked up by these.

ghost use Rattle.std.specs.Prelude.{◌≡◌, ◌<◌, ◌++◌, ◌∷◌, [], ℕ, List, length, map, position, slice_get, Some, bytes_eq, option_and_then, IfOk, IfSome, OnOk};
ghost use Rattle.std.specs.Option.{option_map_or};
ghost use Rattle.c_text.specs.CTree.{ItemTree};
ghost use Rattle.c_text.specs.CNodes.{Nodes, bytes_at, field_tree, unit_tree};
ghost use Rattle.c_text.specs.CFits.{HasName, HasFields};
ghost use Rattle.c_meaning.specs.CTypes.{StructDecl, structs_of, texts_of, functions_of, struct_named};
ghost use Rattle.c_step_load_exprs.specs.declared.numbers.Kind.TheVariants as kinds;
ghost use Rattle.c_step_load_exprs.specs.Knowing.{HasPlaces, HasNamePlaces, HasStructs, names_of};

use c_form_exprs::{NameTable, SpellingTable};
use c_text::{CField, CItem, CItemId, CNameId, Unit};
use std::alloc::Global;
use std::marker::Model;
use wf_text::NoMemory;

/// The numbers of the strings, functions and fields of a unit.
pub struct Numbers<'u> {
    unit: &'u Unit,
    structs: Structs<'u>,
    texts: NameTable<'u, usize>,
    functions: NameTable<'u, usize>,
    /// The numbers of the functions by the bytes of their names.
    spellings: SpellingTable<'u, usize>,
}

impl<'u> Drop for Numbers<'u> {
    fn drop(self) {
        let Numbers {
            unit: _,
            structs: _,
            texts: _,
            functions: _,
            spellings: _,
        } = self;
    }
}

impl<'u> Model for Numbers<'u> {
    ghost use Rattle.c_text.specs.CNodes.{Nodes};
    ghost use Rattle.c_step_load_exprs.specs.Knowing.{HasNumbers};

    ghost Value = { Nodes };

    ghost view = { λ n. n.unit.now };

    ghost invariant = { λ n. HasNumbers n.unit.now n.structs.by_name n.structs.fields.items n.texts n.functions n.spellings };
}

impl<'u> Numbers<'u> {
    /// The numbers of what a unit declares.
    pub fn new(alloc: Global, unit: &'u Unit) -> Result<Numbers<'u>, NoMemory>
        ensures { IfOk result (λ n. n ≡ unit.now) }
    {
        let texts = number_items(alloc, unit, Kind::Text)?;
        let functions = number_items(alloc, unit, Kind::Function)?;
        let spellings = spell_functions(alloc, unit)?;
        let structs = number_structs(alloc, unit)?;
        Ok(Numbers {
            unit,
            structs,
            texts,
            functions,
            spellings,
        })
    }

    /// The number of a string among those of the text.
    pub(crate) fn text(&self, name: CNameId) -> Option<usize>
        requires { HasName self.now name }
        ensures { result ≡ position (λ it. bytes_eq it.name (bytes_at self.now.names name.0)) (texts_of (unit_tree self.now)) }
    {
        self.texts.get(name)
    }

    /// The number of a function: that of the functions before it.
    pub(crate) fn function(&self, name: CNameId) -> Option<usize>
        requires { HasName self.now name }
        ensures { result ≡ position (λ it. bytes_eq it.name (bytes_at self.now.names name.0)) (functions_of (unit_tree self.now)) }
    {
        self.functions.get(name)
    }

    /// The number of the function whose name has these bytes.
    pub fn function_spelt(&self, name: &[u8]) -> Option<usize>
        ensures { result ≡ position (λ it. bytes_eq it.name name.now) (functions_of (unit_tree self.now)) }
    {
        self.spellings.get(name)
    }

    /// The number of a field among those of its struct.
    pub(crate) fn field(&self, of: CNameId, name: CNameId) -> Option<usize>
        requires of { HasName self.now of }
        requires name { HasName self.now name }
        ensures { result ≡ option_and_then (λ it. position (λ f. bytes_eq f.name (bytes_at self.now.names name.0)) it.fields) (struct_named (structs_of (unit_tree self.now)) (bytes_at self.now.names of.0)) }
    {
        let k = self.structs.by_name.get(of)?;
        self.structs.fields[k].get(name)
    }
}

/// What has names of its own in a text.
#[derive(Clone, Copy)]
pub(crate) enum Kind {
    /// Strings.
    Text,
    /// Functions.
    Function,
}

/// The name that an item declares, where the item is of a kind.
fn declared(unit: &Unit, i: usize, kind: Kind) -> Option<CNameId>
    requires { i < length unit.now.items }
    ensures is { (item : ItemTree) → slice_get (unit_tree unit.now) i ≡ Some item → names_of kind (item ∷ []) ≡ option_map_or (λ name. bytes_at unit.now.names name.0 ∷ []) result [] }
    ensures has { IfSome result (HasName unit.now) }
{
    match unit.item(CItemId(i)) {
        CItem::Text { name, .. } => match kind {
            Kind::Text => Some(*name),
            Kind::Function => None,
        },
        CItem::Function { name, .. } => match kind {
            Kind::Text => None,
            Kind::Function => Some(*name),
        },
        CItem::Struct { .. } => None,
    }
}

/// Gives a name a number, where it has none.
fn add<'u>(table: &mut NameTable<'u, usize>, name: CNameId, number: usize) -> Result<(), NoMemory>
    requires { name.0 < length table.old.names }
    ensures { (nodes : Nodes) (names : List (List ℕ)) → number ≡ length names → HasNamePlaces nodes table.old names → OnOk result (HasNamePlaces nodes table.new (names ++ bytes_at nodes.names name.0 ∷ [])) }
{
    table.add(name, number)?;
    Ok(())
}

/// Gives the name that an item declares the next number, where the item is of a kind; how many there are then.
fn add_item<'u>(
    table: &mut NameTable<'u, usize>,
    unit: &'u Unit,
    i: usize,
    kind: Kind,
    number: usize,
) -> Result<usize, NoMemory>
    requires within { i < length unit.now.items }
    requires same { table.old.names ≡ unit.now.names }
    ensures { (names : List (List ℕ)) (item : ItemTree) → slice_get (unit_tree unit.now) i ≡ Some item → number ≡ length names → HasNamePlaces unit.now table.old names → IfOk result (λ next. (next ≡ length (names ++ names_of kind (item ∷ []))) × HasNamePlaces unit.now table.new (names ++ names_of kind (item ∷ []))) }
{
    match declared(unit, i, kind) {
        Some(name) => match number.checked_add(1) {
            Some(next) => {
                add(table, name, number)?;
                Ok(next)
            }
            None => Err(NoMemory),
        },
        None => Ok(number),
    }
}

/// The numbers of the items of a kind, by name.
fn number_items<'u>(
    alloc: Global,
    unit: &'u Unit,
    kind: Kind,
) -> Result<NameTable<'u, usize>, NoMemory>
    ensures { IfOk result (λ table. HasNamePlaces unit.now table (names_of kind (unit_tree unit.now))) }
{
    let mut table = NameTable::new(alloc, unit);
    let mut number = 0;
    let mut i = 0;
    while i < unit.items() {
        number = add_item(&mut table, unit, i, kind, number)?;
        i += 1;
    }
    Ok(table)
}

/// Gives the bytes of a name a number, where they have none.
fn spell<'u>(
    table: &mut SpellingTable<'u, usize>,
    unit: &'u Unit,
    name: CNameId,
    number: usize,
) -> Result<(), NoMemory>
    requires { HasName unit.now name }
    ensures { (names : List (List ℕ)) → number ≡ length names → HasPlaces table.old names → OnOk result (HasPlaces table.new (names ++ bytes_at unit.now.names name.0 ∷ [])) }
{
    table.add(unit.name(name), number)?;
    Ok(())
}

/// Gives the bytes of the name that an item declares the next number, where the item is a function; how many there are
/// then.
fn spell_item<'u>(
    table: &mut SpellingTable<'u, usize>,
    unit: &'u Unit,
    i: usize,
    number: usize,
) -> Result<usize, NoMemory>
    requires { i < length unit.now.items }
    ensures { (names : List (List ℕ)) (item : ItemTree) → slice_get (unit_tree unit.now) i ≡ Some item → number ≡ length names → HasPlaces table.old names → IfOk result (λ next. (next ≡ length (names ++ names_of kinds.Function (item ∷ []))) × HasPlaces table.new (names ++ names_of kinds.Function (item ∷ []))) }
{
    match declared(unit, i, Kind::Function) {
        Some(name) => match number.checked_add(1) {
            Some(next) => {
                spell(table, unit, name, number)?;
                Ok(next)
            }
            None => Err(NoMemory),
        },
        None => Ok(number),
    }
}

/// The numbers of the functions, by the bytes of their names.
fn spell_functions<'u>(alloc: Global, unit: &'u Unit) -> Result<SpellingTable<'u, usize>, NoMemory>
    ensures { IfOk result (λ table. HasPlaces table (names_of kinds.Function (unit_tree unit.now))) }
{
    let mut table = SpellingTable::new(alloc);
    let mut number = 0;
    let mut i = 0;
    while i < unit.items() {
        number = spell_item(&mut table, unit, i, number)?;
        i += 1;
    }
    Ok(table)
}

/// The numbers of the fields of a struct, by name.
fn number_fields<'u>(
    alloc: Global,
    unit: &'u Unit,
    fields: &'u [CField],
) -> Result<NameTable<'u, usize>, NoMemory>
    requires { HasFields unit.now fields.now }
    ensures { IfOk result (λ table. HasNamePlaces unit.now table (map (λ f. bytes_at unit.now.names f.name.0) fields.now)) }
{
    let mut table = NameTable::new(alloc, unit);
    let mut i = 0;
    while i < fields.len() {
        add(&mut table, fields[i].name, i)?;
        i += 1;
    }
    Ok(table)
}

/// The structs of a unit by name, each with the table of its fields.
pub(crate) struct Structs<'u> {
    /// The number of the table of a struct's fields.
    pub by_name: NameTable<'u, usize>,
    /// The numbers of the fields of each struct.
    pub fields: Vec<NameTable<'u, usize>>,
}

impl<'u> Drop for Structs<'u> {
    fn drop(self) {
        let Structs {
            by_name: _,
            fields: _,
        } = self;
    }
}

impl<'u> Structs<'u> {
    /// Adds an item, where it is a struct.
    fn add_item(&mut self, alloc: Global, unit: &'u Unit, i: usize) -> Result<(), NoMemory>
        requires within { i < length unit.now.items }
        requires same { self.old.by_name.names ≡ unit.now.names }
        ensures { (before : List StructDecl) (item : ItemTree) → slice_get (unit_tree unit.now) i ≡ Some item → HasStructs unit.now self.old.fields.items self.old.by_name before → OnOk result (HasStructs unit.now self.new.fields.items self.new.by_name (before ++ structs_of (item ∷ []))) }
    {
        match unit.item(CItemId(i)) {
            CItem::Struct { fields, name } => { self.add(alloc, unit, *name, fields.as_slice()) }
            CItem::Text { .. } => Ok(()),
            CItem::Function { .. } => Ok(()),
        }
    }

    /// Adds a struct.
    fn add(
        &mut self,
        alloc: Global,
        unit: &'u Unit,
        name: CNameId,
        fields: &'u [CField],
    ) -> Result<(), NoMemory>
        requires name { HasName unit.now name }
        requires fields { HasFields unit.now fields.now }
        requires same { self.old.by_name.names ≡ unit.now.names }
        ensures { (before : List StructDecl) → HasStructs unit.now self.old.fields.items self.old.by_name before → OnOk result (HasStructs unit.now self.new.fields.items self.new.by_name (before ++ record { fields = map (field_tree unit.now.names) fields.now; name = bytes_at unit.now.names name.0 } ∷ [])) }
    {
        let k = self.fields.len();
        let table = number_fields(alloc, unit, fields)?;
        self.fields.push(table)?;
        self.by_name.add(name, k)?;
        Ok(())
    }
}

/// The structs of a unit.
fn number_structs<'u>(alloc: Global, unit: &'u Unit) -> Result<Structs<'u>, NoMemory>
    ensures { IfOk result (λ it. HasStructs unit.now it.fields.items it.by_name (structs_of (unit_tree unit.now))) }
{
    let mut structs = Structs {
        by_name: NameTable::new(alloc, unit),
        fields: Vec::new(alloc),
    };
    let mut i = 0;
    while i < unit.items() {
        structs.add_item(alloc, unit, i)?;
        i += 1;
    }
    Ok(structs)
}
