// The names that an expression of a function may use (ISO/IEC 9899:1999, 6.2.1).

ghost use Rattle.std.specs.Prelude.{◌≡◌, ◌++◌, [], ◌∷◌, if◌then◌else◌, ◌<◌, length, is_none, find, position, option_map, IfOk, IfSome};
ghost use Rattle.std.specs.Str.{bytes_eq};
ghost use Rattle.c_text.specs.CNodes.{bytes_at, type_in, expr_of, made_expr};
ghost use Rattle.c_text.specs.CFits.{HasName, HasType, FitsExpr};
ghost use Rattle.c_meaning.specs.CTypes.{function_named, variable_held, member_held, is_known as is_known_in, cast_from};
ghost use Rattle.c_form_exprs.specs.Tables.{named};
ghost use Rattle.c_form_exprs.specs.Front.{Finds, IsHead, IsTyped, scope_in};
ghost use Rattle.c_form_exprs.specs.TypeViews.{TellsType, TellsHeld, value_in, HasValue};

use crate::front::{Front, Head};
use crate::tables::NameTable;
use crate::types::{ExprType, Held, Target};
use c_text::{CExpr, CExprId, CNameId, CType, Unit};
use std::alloc::Global;
use std::marker::Model;
use wf_text::NoMemory;

/// What the items before a function declare, and the function's parameters and locals.
pub struct CScope<'k, 'u> {
    front: &'k Front<'u>,
    unit: &'u Unit,
    names: NameTable<'u, CType>,
    alloc: Global,
}

impl<'k, 'u> Drop for CScope<'k, 'u> {
    fn drop(self) {
        let CScope {
            front: _,
            unit: _,
            names: _,
            alloc: _,
        } = self;
    }
}

impl<'k, 'u> Model for CScope<'k, 'u> {
    ghost use Rattle.c_form_exprs.specs.Front.{Within, TellsNames};

    ghost Value = { Within };

    ghost view = { λ scope. record { front = scope.front.now; names = scope.names.entries } };

    ghost invariant = { λ scope. TellsNames scope.front.now scope.unit.now scope.names };
}

impl<'k, 'u> CScope<'k, 'u> {
    /// The scope of a function without parameters and locals; nothing is allocated.
    pub fn new(alloc: Global, front: &'k Front<'u>) -> CScope<'k, 'u>
        ensures { result ≡ record { front = front.now; names = [] } }
    {
        let unit = front.unit();
        CScope {
            front,
            unit,
            names: NameTable::new(alloc, unit),
            alloc,
        }
    }

    /// The unit.
    pub fn unit(&self) -> &'u Unit
        ensures { result.now ≡ self.now.front.nodes }
    {
        self.unit
    }

    /// Where lists for the work on an expression come from.
    pub fn alloc(&self) -> Global {
        self.alloc
    }

    /// Whether two names are spelt alike.
    pub fn is_same_name(&self, a: CNameId, b: CNameId) -> bool
        requires first { HasName self.now.front.nodes a }
        requires second { HasName self.now.front.nodes b }
        ensures { result ≡ bytes_eq (bytes_at self.now.front.nodes.names a.0) (bytes_at self.now.front.nodes.names b.0) }
    {
        self.unit.same_name(a, b)
    }

    /// The bytes of a name.
    pub fn spelt(&self, name: CNameId) -> &'u [u8]
        requires { HasName self.now.front.nodes name }
        ensures { result.now ≡ bytes_at self.now.front.nodes.names name.0 }
    {
        self.unit.name(name)
    }

    /// An expression's node.
    pub fn expr(&self, e: CExprId) -> &'u CExpr
        requires { e.0 < length self.now.front.nodes.exprs }
        ensures tree { expr_of self.now.front.nodes e.0 ≡ made_expr self.now.front.nodes.names (expr_of self.now.front.nodes) result.now }
        ensures fits { FitsExpr self.now.front.nodes e.0 result.now }
    {
        self.unit.expr(e)
    }

    /// Adds a parameter or local; whether its name is new. Where it isn't, and after `NoMemory`, the scope is as before.
    pub fn declare(&mut self, name: CNameId, ty: CType) -> Result<bool, NoMemory>
        requires name { HasName self.old.front.nodes name }
        requires ty { HasType self.old.front.nodes ty }
        ensures fresh { IfOk result (λ fresh. fresh ≡ is_none (named self.old.names (bytes_at self.old.front.nodes.names name.0))) }
        ensures added { IfOk result (λ fresh. self.new ≡ (if fresh then record self.old { names = self.old.names ++ (bytes_at self.old.front.nodes.names name.0, ty) ∷ [] } else self.old)) }
    {
        self.names.add(name, ty)
    }

    /// Whether a type is known: a struct is declared before it is named (6.2.1p7).
    pub fn is_known(&self, ty: CType) -> bool
        requires { HasType self.now.front.nodes ty }
        ensures { result ≡ is_known_in (scope_in self.now).structs (type_in self.now.front.nodes.names ty) }
    {
        match ty {
            CType::StructPointer(name) => self.front.is_struct(name),
            CType::Uint(_) | CType::Size | CType::Bool | CType::UintPointer(_) | CType::Text =>
                true,
        }
    }

    /// The type of the parameter or local of this name.
    pub fn own_type(&self, name: CNameId) -> Option<CType>
        requires { HasName self.now.front.nodes name }
        ensures { Finds (IsTyped self.now.front.nodes) result (find (λ it. bytes_eq it.name (bytes_at self.now.front.nodes.names name.0)) (scope_in self.now).names) }
    {
        self.names.get(name)
    }

    /// The place of a parameter or local among these.
    pub fn place(&self, name: CNameId) -> Option<usize>
        requires { HasName self.now.front.nodes name }
        ensures { result ≡ position (λ it. bytes_eq it.name (bytes_at self.now.front.nodes.names name.0)) (scope_in self.now).names }
    {
        self.names.place(name)
    }

    /// What a name stands for: a parameter or local, else a string (6.5.1p2).
    pub fn variable(&self, name: CNameId) -> Option<Held>
        requires { HasName self.now.front.nodes name }
        ensures { TellsHeld self.now.front.nodes result (variable_held (scope_in self.now) (bytes_at self.now.front.nodes.names name.0)) }
    {
        match self.names.get(name) {
            Some(ty) => Some(Held::One(ty)),
            None => {
                if self.front.is_text(name) {
                    Some(Held::Characters)
                } else {
                    None
                }
            }
        }
    }

    /// The function of a name.
    pub fn function(&self, name: CNameId) -> Option<Head<'u>>
        requires { HasName self.now.front.nodes name }
        ensures { Finds (IsHead self.now.front.nodes) result (function_named (scope_in self.now).functions (bytes_at self.now.front.nodes.names name.0)) }
    {
        self.front.function(name)
    }

    /// What `of->field` stands for (6.5.2.3p4).
    pub fn member(&self, of: Option<ExprType>, field: CNameId) -> Option<Held>
        requires of { IfSome of (HasValue self.now.front.nodes) }
        requires field { HasName self.now.front.nodes field }
        ensures { TellsHeld self.now.front.nodes result (member_held (scope_in self.now) (bytes_at self.now.front.nodes.names field.0) (option_map (value_in self.now.front.nodes.names) of)) }
    {
        match of {
            Some(ExprType::PointsTo(Target::Object(struct_name))) => {
                let found = self.front.field(struct_name, field)?;
                Some(self.field_held(struct_name, found))
            }
            Some(ExprType::PointsTo(Target::Cell(_))) => None,
            Some(ExprType::PointsTo(Target::Byte)) => None,
            Some(ExprType::Numbers(_)) => None,
            Some(ExprType::ZeroLiteral) => None,
            None => None,
        }
    }

    /// The type of a cast: between number types, or from the literal 0 to any known type (6.5.4).
    pub fn cast(&self, to: CType, of: ExprType) -> Option<ExprType>
        requires { HasType self.now.front.nodes to }
        ensures { TellsType self.now.front.nodes result (cast_from (scope_in self.now).structs (type_in self.now.front.nodes.names to) (value_in self.now.front.nodes.names of)) }
    {
        match of {
            ExprType::ZeroLiteral => {
                if self.is_known(to) {
                    Some(self.value_type(to))
                } else {
                    None
                }
            }
            ExprType::Numbers(_) => {
                if self.is_numeric(to) {
                    Some(self.value_type(to))
                } else {
                    None
                }
            }
            ExprType::PointsTo(_) => None,
        }
    }
}
