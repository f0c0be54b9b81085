// The names of an expression of a program's function: what each stands for, and its number.

ghost use Rattle.std.specs.Prelude.{◌≡◌, position, option_map, bytes_eq, IfSome};
ghost use Rattle.c_text.specs.CNodes.{bytes_at, type_in};
ghost use Rattle.c_text.specs.CFits.{HasName, HasType};
ghost use Rattle.c_meaning.specs.CTypes.{function_named, variable_held, member_held, cast_from};
ghost use Rattle.c_meaning.specs.CExprs.{field_number};
ghost use Rattle.c_form_exprs.specs.Front.{Finds, IsHead};
ghost use Rattle.c_form_exprs.specs.TypeViews.{TellsType, TellsHeld, value_in, HasValue};
ghost use Rattle.c_step_exprs.specs.Resolving.{function_number};
ghost use Rattle.c_step_load_exprs.specs.Knowing.{program_scope, Knows};

use crate::numbers::Numbers;
use c_form_exprs::{CScope, ExprType, Head, Held, Target};
use c_text::{CNameId, CType};

/// What all items of a text declare, with the parameters and locals of a function, and the numbers of all.
#[derive(Clone, Copy)]
pub struct Names<'r, 'k, 'u> {
    /// What is declared.
    pub scope: &'r CScope<'k, 'u>,
    /// The numbers.
    pub numbers: &'r Numbers<'u>,
}

impl<'r, 'k, 'u> Names<'r, 'k, 'u> {
    /// The number of a parameter or local.
    pub(crate) fn local(&self, name: CNameId) -> Option<usize>
        requires name { HasName self.now.scope.now.front.nodes name }
        ensures { result ≡ position (λ it. bytes_eq it.name (bytes_at self.now.scope.now.front.nodes.names name.0)) (program_scope self.now.scope.now).names }
    {
        self.scope.place(name)
    }

    /// The number of a string.
    pub(crate) fn text(&self, name: CNameId) -> Option<usize>
        requires knows { Knows self.now.scope.now self.now.numbers.now }
        requires name { HasName self.now.scope.now.front.nodes name }
        ensures { result ≡ position (λ it. bytes_eq it.name (bytes_at self.now.scope.now.front.nodes.names name.0)) (program_scope self.now.scope.now).texts }
    {
        self.numbers.text(name)
    }

    /// The number of a function.
    pub fn function_number(&self, name: CNameId) -> Option<usize>
        requires knows { Knows self.now.scope.now self.now.numbers.now }
        requires name { HasName self.now.scope.now.front.nodes name }
        ensures { result ≡ function_number (program_scope self.now.scope.now).functions (bytes_at self.now.scope.now.front.nodes.names name.0) }
    {
        self.numbers.function(name)
    }

    /// The function of a name.
    pub(crate) fn function(&self, name: CNameId) -> Option<Head<'u>>
        requires knows { Knows self.now.scope.now self.now.numbers.now }
        requires name { HasName self.now.scope.now.front.nodes name }
        ensures { Finds (IsHead self.now.scope.now.front.nodes) result (function_named (program_scope self.now.scope.now).functions (bytes_at self.now.scope.now.front.nodes.names name.0)) }
    {
        self.scope.function(name)
    }

    /// What a name stands for.
    pub(crate) fn variable(&self, name: CNameId) -> Option<Held>
        requires knows { Knows self.now.scope.now self.now.numbers.now }
        requires name { HasName self.now.scope.now.front.nodes name }
        ensures { TellsHeld self.now.scope.now.front.nodes result (variable_held (program_scope self.now.scope.now) (bytes_at self.now.scope.now.front.nodes.names name.0)) }
    {
        self.scope.variable(name)
    }

    /// What `of->field` stands for.
    pub(crate) fn member(&self, of: Option<ExprType>, field: CNameId) -> Option<Held>
        requires knows { Knows self.now.scope.now self.now.numbers.now }
        requires of { IfSome of (HasValue self.now.scope.now.front.nodes) }
        requires field { HasName self.now.scope.now.front.nodes field }
        ensures { TellsHeld self.now.scope.now.front.nodes result (member_held (program_scope self.now.scope.now) (bytes_at self.now.scope.now.front.nodes.names field.0) (option_map (value_in self.now.scope.now.front.nodes.names) of)) }
    {
        self.scope.member(of, field)
    }

    /// The number of a field, by the type of the pointer to its object.
    pub(crate) fn field(&self, of: Option<ExprType>, field: CNameId) -> Option<usize>
        requires knows { Knows self.now.scope.now self.now.numbers.now }
        requires of { IfSome of (HasValue self.now.scope.now.front.nodes) }
        requires field { HasName self.now.scope.now.front.nodes field }
        ensures { result ≡ field_number (program_scope self.now.scope.now) (bytes_at self.now.scope.now.front.nodes.names field.0) (option_map (value_in self.now.scope.now.front.nodes.names) of) }
    {
        match of {
            Some(ExprType::PointsTo(Target::Object(struct_name))) => {
                self.numbers.field(struct_name, field)
            }
            Some(ExprType::PointsTo(Target::Cell(_))) => None,
            Some(ExprType::PointsTo(Target::Byte)) => None,
            Some(ExprType::Numbers(_)) => None,
            Some(ExprType::ZeroLiteral) => None,
            None => None,
        }
    }

    /// The type of a cast.
    pub(crate) fn cast(&self, to: CType, of: ExprType) -> Option<ExprType>
        requires knows { Knows self.now.scope.now self.now.numbers.now }
        requires to { HasType self.now.scope.now.front.nodes to }
        ensures { TellsType self.now.scope.now.front.nodes result (cast_from (program_scope self.now.scope.now).structs (type_in self.now.scope.now.front.nodes.names to) (value_in self.now.scope.now.front.nodes.names of)) }
    {
        self.scope.cast(to, of)
    }
}
