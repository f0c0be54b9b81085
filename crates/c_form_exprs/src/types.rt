// The types of expressions and of what lvalues stand for (ISO/IEC 9899:1999, 6.2.5, 6.3).

ghost use Rattle.std.specs.Prelude.{◌≡◌, Some, option_map, IfSome};
ghost use Rattle.c_text.specs.CNodes.{bytes_at, type_in, field_tree};
ghost use Rattle.c_text.specs.CFits.{HasName, HasType, HasField};
ghost use Rattle.c_meaning.specs.CTypes.{promoted as promotes, value_type as type_of_value, is_numeric as is_numeric_tree, held_type as held_value, target_held as held_behind, pointed_held, is_bytes_field as is_bytes_name, as_number as number_of, literal_type as type_of_literal, address_type, same_uint as are_same_uints, same_type as are_same_types, same_target as are_same_targets, field_held as held_field};
ghost use Rattle.c_meaning.specs.CValues.{common as common_of};
ghost use Rattle.c_form_exprs.specs.TypeViews.{target_in, value_in, held_in, HasTarget, HasValue, HasHeld};

use crate::scope::CScope;
use c_text::{CField, CFieldType, CNameId, CNumber, CType, CUint};
use wf_num::CTy;

/// What a pointer points to (6.2.5p20).
#[derive(Clone, Copy)]
pub enum Target {
    /// Cells of a type.
    Cell(CType),
    /// An object of the struct of this name.
    Object(CNameId),
    /// The bytes of a string.
    Byte,
}

/// The type of an expression's value.
#[derive(Clone, Copy)]
pub enum ExprType {
    /// A number after its promotion.
    Numbers(CTy),
    /// A pointer.
    PointsTo(Target),
    /// The literal 0, which is a number and a null pointer (6.3.2.3p3).
    ZeroLiteral,
}

/// What an lvalue stands for (6.3.2.1).
#[derive(Clone, Copy)]
pub enum Held {
    /// A cell.
    One(CType),
    /// A cell that is neither assigned nor stands under `&`.
    Fixed(CType),
    /// The cells of an array field.
    Many(CType),
    /// An object of the struct of this name, inside another one.
    Inner(CNameId),
    /// A byte of a string.
    Character,
    /// A string.
    Characters,
}

/// The type of a number after its promotion (6.3.1.1p2).
fn promoted(width: CUint) -> CTy
    ensures { result ≡ promotes width }
{
    match width {
        CUint::U8 | CUint::U16 => CTy::Int,
        CUint::U32 => CTy::U32,
        CUint::U64 => CTy::U64,
    }
}

fn is_same_uint(a: CUint, b: CUint) -> bool
    ensures { result ≡ are_same_uints a b }
{
    match (a, b) {
        (CUint::U8, CUint::U8) => true,
        (CUint::U16, CUint::U16) => true,
        (CUint::U32, CUint::U32) => true,
        (CUint::U64, CUint::U64) => true,
        (_, _) => false,
    }
}

/// The type of two operands after the usual conversions (6.3.1.8).
pub(crate) fn common_type(a: CTy, b: CTy) -> CTy
    ensures { result ≡ common_of a b }
{
    match (a, b) {
        (CTy::U64, _) | (CTy::U32, CTy::U64) => CTy::U64,
        (CTy::U32, _) => CTy::U32,
        (CTy::Int, _) => b,
    }
}

impl<'k, 'u> CScope<'k, 'u> {
    /// The type of a value that is held.
    pub fn value_type(&self, ty: CType) -> ExprType
        ensures tells { value_in self.now.front.nodes.names result ≡ type_of_value (type_in self.now.front.nodes.names ty) }
        ensures has { HasType self.now.front.nodes ty → HasValue self.now.front.nodes result }
    {
        match ty {
            CType::Uint(width) => ExprType::Numbers(promoted(width)),
            CType::Size => ExprType::Numbers(CTy::U64),
            CType::Bool => ExprType::Numbers(CTy::Int),
            CType::UintPointer(width) => ExprType::PointsTo(Target::Cell(CType::Uint(width))),
            CType::StructPointer(name) => ExprType::PointsTo(Target::Object(name)),
            CType::Text => ExprType::PointsTo(Target::Byte),
        }
    }

    /// Whether a type is one of numbers, flags among them (6.2.5p18).
    pub(crate) fn is_numeric(&self, ty: CType) -> bool
        ensures { result ≡ is_numeric_tree (type_in self.now.front.nodes.names ty) }
    {
        match ty {
            CType::Uint(_) | CType::Size | CType::Bool => true,
            CType::UintPointer(_) | CType::StructPointer(_) | CType::Text => false,
        }
    }

    /// The type of the value of what an lvalue stands for; None for an object.
    pub(crate) fn held_type(&self, held: Held) -> Option<ExprType>
        ensures tells { option_map (value_in self.now.front.nodes.names) result ≡ held_value (held_in self.now.front.nodes.names held) }
        ensures has { HasHeld self.now.front.nodes held → IfSome result (HasValue self.now.front.nodes) }
    {
        match held {
            Held::One(ty) | Held::Fixed(ty) => Some(self.value_type(ty)),
            Held::Many(ty) => Some(ExprType::PointsTo(Target::Cell(ty))),
            Held::Inner(_) => None,
            Held::Character => Some(ExprType::Numbers(CTy::Int)),
            Held::Characters => Some(ExprType::PointsTo(Target::Byte)),
        }
    }

    /// What `*` of a pointer stands for; None for an object (6.5.3.2p4).
    fn held_at(&self, target: Target) -> Option<Held>
        ensures tells { option_map (held_in self.now.front.nodes.names) result ≡ held_behind (target_in self.now.front.nodes.names target) }
        ensures has { HasTarget self.now.front.nodes target → IfSome result (HasHeld self.now.front.nodes) }
    {
        match target {
            Target::Cell(ty) => Some(Held::One(ty)),
            Target::Object(_) => None,
            Target::Byte => Some(Held::Character),
        }
    }

    /// What a pointer's target stands for; None where that is an object, and for a number.
    pub(crate) fn pointed_to(&self, pointer: ExprType) -> Option<Held>
        ensures tells { option_map (held_in self.now.front.nodes.names) result ≡ pointed_held (Some (value_in self.now.front.nodes.names pointer)) }
        ensures has { HasValue self.now.front.nodes pointer → IfSome result (HasHeld self.now.front.nodes) }
    {
        match pointer {
            ExprType::PointsTo(target) => self.held_at(target),
            ExprType::Numbers(_) | ExprType::ZeroLiteral => None,
        }
    }

    /// The type of a number; None for a pointer. The literal 0 is an `int` (6.4.4.1p5).
    pub fn as_number(&self, ty: ExprType) -> Option<CTy>
        ensures { result ≡ number_of (value_in self.now.front.nodes.names ty) }
    {
        match ty {
            ExprType::Numbers(number) => Some(number),
            ExprType::PointsTo(_) => None,
            ExprType::ZeroLiteral => Some(CTy::Int),
        }
    }

    /// The type of a literal (6.4.4.1p5).
    pub fn literal_type(&self, number: CNumber) -> ExprType
        ensures tells { value_in self.now.front.nodes.names result ≡ type_of_literal number }
        ensures has { HasValue self.now.front.nodes result }
    {
        match number {
            CNumber::Int(0) => ExprType::ZeroLiteral,
            CNumber::Int(_) => ExprType::Numbers(CTy::Int),
            CNumber::Unsigned(_) => ExprType::Numbers(CTy::U32),
            CNumber::Long(_) => ExprType::Numbers(CTy::U64),
        }
    }

    /// The pointer to what an lvalue stands for; there is none to an array or a string (6.5.3.2).
    pub fn address_of(&self, held: Held) -> Option<ExprType>
        ensures tells { option_map (value_in self.now.front.nodes.names) result ≡ address_type (held_in self.now.front.nodes.names held) }
        ensures has { HasHeld self.now.front.nodes held → IfSome result (HasValue self.now.front.nodes) }
    {
        match held {
            Held::One(ty) => Some(ExprType::PointsTo(Target::Cell(ty))),
            Held::Inner(name) => Some(ExprType::PointsTo(Target::Object(name))),
            Held::Character => Some(ExprType::PointsTo(Target::Byte)),
            Held::Fixed(_) | Held::Many(_) | Held::Characters => None,
        }
    }

    /// Whether two types are alike (6.2.7).
    pub(crate) fn is_same_type(&self, a: CType, b: CType) -> bool
        requires first { HasType self.now.front.nodes a }
        requires second { HasType self.now.front.nodes b }
        ensures { result ≡ are_same_types (type_in self.now.front.nodes.names a) (type_in self.now.front.nodes.names b) }
    {
        match (a, b) {
            (CType::Uint(x), CType::Uint(y)) => is_same_uint(x, y),
            (CType::Size, CType::Size) => true,
            (CType::Bool, CType::Bool) => true,
            (CType::UintPointer(x), CType::UintPointer(y)) => is_same_uint(x, y),
            (CType::StructPointer(x), CType::StructPointer(y)) => self.is_same_name(x, y),
            (CType::Text, CType::Text) => true,
            (_, _) => false,
        }
    }

    /// Whether two pointers point to what is alike (6.7.5.1p2).
    pub(crate) fn is_same_target(&self, a: Target, b: Target) -> bool
        requires first { HasTarget self.now.front.nodes a }
        requires second { HasTarget self.now.front.nodes b }
        ensures { result ≡ are_same_targets (target_in self.now.front.nodes.names a) (target_in self.now.front.nodes.names b) }
    {
        match (a, b) {
            (Target::Cell(x), Target::Cell(y)) => self.is_same_type(x, y),
            (Target::Object(x), Target::Object(y)) => self.is_same_name(x, y),
            (Target::Byte, Target::Byte) => true,
            (_, _) => false,
        }
    }

    /// Whether this is the field of an io buffer that points to the bytes.
    fn is_bytes_field(&self, of: CNameId, field: CNameId) -> bool
        requires of { HasName self.now.front.nodes of }
        requires field { HasName self.now.front.nodes field }
        ensures { result ≡ is_bytes_name (bytes_at self.now.front.nodes.names of.0) (bytes_at self.now.front.nodes.names field.0) }
    {
        self.spelt(of) == b"wuffs_base__io_buffer".as_slice()
            && self.spelt(field) == b"ptr".as_slice()
    }

    /// What a field of the struct of this name stands for (6.5.2.3, 6.3.2.1).
    pub(crate) fn field_held(&self, of: CNameId, field: CField) -> Held
        requires of { HasName self.now.front.nodes of }
        requires field { HasField self.now.front.nodes field }
        ensures tells { held_in self.now.front.nodes.names result ≡ held_field (bytes_at self.now.front.nodes.names of.0) (field_tree self.now.front.nodes.names field) }
        ensures has { HasHeld self.now.front.nodes result }
    {
        match (field.kind, field.count) {
            (CFieldType::Struct(name), _) => Held::Inner(name),
            (CFieldType::Plain(ty), Some(_)) => Held::Many(ty),
            (CFieldType::Plain(ty), None) => {
                if self.is_bytes_field(of, field.name) {
                    Held::Fixed(ty)
                } else {
                    Held::One(ty)
                }
            }
        }
    }
}
