// What an action makes of the values on top of the stack.

ghost use Rattle.std.specs.Prelude.{◌≡◌, true, IfOk};
ghost use Rattle.c_read_nodes.specs.Making.{making};
ghost use Rattle.c_read_nodes.specs.Shapes.{fits, takes, is_plain};

use crate::values::{Product, SemanticValue};
use crate::{make_exprs, make_items, make_stmts, make_types};
use c_read_grammar::Action;
use stacks::Stack;
use std::alloc::Global;
use wf_text::NoMemory;

/// Takes the action's values from the stack, and answers what is made of them.
pub(crate) fn make(
    alloc: Global,
    action: Action,
    values: &mut Stack<SemanticValue>,
) -> Result<Product, NoMemory>
    requires fit { fits (takes action) values.old ≡ true }
    requires plain { is_plain action ≡ true }
    ensures { IfOk result (λ product. making action values.old ≡ record { product = product; vals = values.new }) }
{
    match action {
        Action::Expr(action) => make_exprs::make(alloc, action, values),
        Action::Type(action) => make_types::make(alloc, action, values),
        Action::Stmt(action) => make_stmts::make(alloc, action, values),
        Action::Item(action) => make_items::make(alloc, action, values),
    }
}
