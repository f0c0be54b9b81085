// The structs of a text, by number (ISO/IEC 9899:1999, 6.7.2.1).

ghost use Rattle.std.specs.Prelude.{◌≡◌, ◌<◌, ◌+◌, ◌∷◌, [], List, suc, length, map, IfOk, OnOk};
ghost use Rattle.c_text.specs.CNodes.{field_tree, unit_tree};
ghost use Rattle.c_text.specs.CFits.{HasField, HasFields};
ghost use Rattle.c_meaning.specs.CTypes.{StructDecl};
ghost use Rattle.c_meaning.specs.CCall.{program_of};
ghost use Rattle.c_meaning.specs.CRun.{count_of};
ghost use Rattle.c_step_objects.specs.Shapes.{struct_number, field_of, own_fields, size_at, fields_at, size_inside as inside_size, sizes_inside, HasNumbers};
ghost use Rattle.c_step_objects.specs.Structs.{AreShapes, structs_before};

use crate::names::StructNumbers;
use c_mem::FieldDecl;
use c_step_load_exprs::cell_type;
use c_text::{CField, CFieldType, CItem, CItemId, CNumber, Unit};
use std::alloc::Global;
use std::marker::Model;
use wf_text::NoMemory;

/// A struct.
#[derive(Drop)]
pub(crate) struct Shape {
    /// Its fields; an object inside is told by the number of its struct.
    pub(crate) fields: Vec<FieldDecl>,
    /// How many objects one is, with those inside it.
    pub(crate) size: usize,
}

impl Model for Shape {
    ghost use Rattle.c_step_objects.specs.Shapes.{ShapeView};

    ghost Value = { ShapeView };

    ghost view = { λ it. record { fields = it.fields.items; size = it.size } };
}

/// The structs of a text. Number 0 is one without fields, which stands for every name that no struct has.
pub(crate) struct Shapes<'u> {
    /// The numbers.
    pub(crate) numbers: StructNumbers<'u>,
    /// The structs with these.
    pub(crate) all: Vec<Shape>,
}

impl<'u> Drop for Shapes<'u> {
    fn drop(self) {
        let Shapes { numbers: _, all: _ } = self;
    }
}

/// The sum; `NoMemory` where nothing can have so many parts.
pub(crate) fn sum(a: usize, b: usize) -> Result<usize, NoMemory>
    ensures { IfOk result (λ n. n ≡ a + b) }
{
    match a.checked_add(b) {
        Some(n) => Ok(n),
        None => Err(NoMemory),
    }
}

/// The size of the struct with a number.
pub(crate) fn size_of(shapes: &[Shape], k: usize) -> usize
    ensures { result ≡ size_at shapes.now k }
{
    match shapes.get(k) {
        Some(shape) => shape.size,
        None => 1,
    }
}

/// The fields of the struct with a number.
pub(crate) fn fields_of(shapes: &[Shape], k: usize) -> &[FieldDecl]
    ensures { result.now ≡ fields_at shapes.now k }
{
    match shapes.get(k) {
        Some(shape) => shape.fields.as_slice(),
        None => &[],
    }
}

/// How many cells a field has.
fn cells_in(count: Option<CNumber>) -> Result<u32, NoMemory>
    ensures { IfOk result (λ n. n ≡ count_of count) }
{
    match count {
        None => Ok(1),
        Some(CNumber::Int(n)) => Ok(n),
        Some(CNumber::Unsigned(n)) => Ok(n),
        Some(CNumber::Long(n)) => u32::try_from(n).map_err(|_| NoMemory),
    }
}

/// A field.
fn field(unit: &Unit, numbers: &StructNumbers<'_>, it: CField) -> Result<FieldDecl, NoMemory>
    requires { HasField unit.now it }
    ensures { (structs : List StructDecl) → HasNumbers numbers.now structs → IfOk result (λ decl. decl ≡ field_of (struct_number structs) (field_tree unit.now.names it)) }
{
    match it.kind {
        CFieldType::Plain(ty) => {
            let count = cells_in(it.count)?;
            Ok(FieldDecl::Cells {
                ty: cell_type(ty),
                count,
            })
        }
        CFieldType::Struct(name) => Ok(FieldDecl::Part(numbers.number(unit.name(name)))),
    }
}

/// Fields.
fn fields(
    alloc: Global,
    unit: &Unit,
    numbers: &StructNumbers<'_>,
    them: &[CField],
) -> Result<Vec<FieldDecl>, NoMemory>
    requires { HasFields unit.now them.now }
    ensures { (structs : List StructDecl) → HasNumbers numbers.now structs → IfOk result (λ all. all.items ≡ own_fields structs (map (field_tree unit.now.names) them.now)) }
{
    let mut all = Vec::new(alloc);
    for it in them {
        all.push(field(unit, numbers, *it)?)?;
    }
    Ok(all)
}

/// How many objects are inside by a field.
fn size_inside(shapes: &[Shape], field: FieldDecl) -> usize
    ensures { result ≡ inside_size shapes.now field }
{
    match field {
        FieldDecl::Cells { .. } => 0,
        FieldDecl::Part(k) => size_of(shapes, k),
    }
}

/// How many objects one with these fields is.
fn size(shapes: &[Shape], fields: &[FieldDecl]) -> Result<usize, NoMemory>
    ensures { IfOk result (λ n. n ≡ suc (sizes_inside shapes.now fields.now)) }
{
    let mut n = 1;
    for field in fields {
        n = sum(n, size_inside(shapes, *field))?;
    }
    Ok(n)
}

impl<'u> Shapes<'u> {
    /// No struct of the text yet.
    fn new(alloc: Global) -> Result<Shapes<'u>, NoMemory>
        ensures { IfOk result (λ it. AreShapes it []) }
    {
        let mut all = Vec::new(alloc);
        all.push(Shape {
            fields: Vec::new(alloc),
            size: 1,
        })?;
        Ok(Shapes {
            numbers: StructNumbers::new(alloc),
            all,
        })
    }

    /// The structs.
    pub(crate) fn shapes(self) -> Vec<Shape>
        ensures { result.items ≡ self.entry.all.items }
    {
        let Shapes { numbers: _, all } = self;
        all
    }

    /// Adds a struct.
    fn add(
        &mut self,
        alloc: Global,
        unit: &'u Unit,
        name: &'u [u8],
        them: &[CField],
    ) -> Result<(), NoMemory>
        requires { HasFields unit.now them.now }
        ensures { (structs : List StructDecl) → AreShapes self.old structs → OnOk result (AreShapes self.new (record { fields = map (field_tree unit.now.names) them.now; name = name.now } ∷ structs)) }
    {
        let fields = fields(alloc, unit, &self.numbers, them)?;
        let size = size(&self.all, &fields)?;
        let number = self.all.len();
        self.all.push(Shape { fields, size })?;
        self.numbers.put(name, number)?;
        Ok(())
    }

    /// Adds an item, where it is a struct.
    fn add_item(&mut self, alloc: Global, unit: &'u Unit, i: usize) -> Result<(), NoMemory>
        requires { i < length unit.now.items }
        ensures { AreShapes self.old (structs_before unit.now i) → OnOk result (AreShapes self.new (structs_before unit.now (i + 1))) }
    {
        match unit.item(CItemId(i)) {
            CItem::Struct { fields, name } => {
                self.add(alloc, unit, unit.name(*name), fields.as_slice())
            }
            CItem::Text { .. } => Ok(()),
            CItem::Function { .. } => Ok(()),
        }
    }
}

/// The structs of a unit.
pub(crate) fn shapes_of<'u>(alloc: Global, unit: &'u Unit) -> Result<Shapes<'u>, NoMemory>
    ensures { IfOk result (λ it. AreShapes it (program_of (unit_tree unit.now)).structs) }
{
    let mut shapes = Shapes::new(alloc)?;
    let mut i = 0;
    while i < unit.items() {
        shapes.add_item(alloc, unit, i)?;
        i += 1;
    }
    Ok(shapes)
}
