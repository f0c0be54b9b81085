// What is known of expressions, by number, as they are added: a list for each of its parts.

ghost use Rattle.std.specs.Prelude.{◌≡◌, ◌<◌, ◌++◌, [], ◌∷◌, length, if◌then◌else◌, is_ok, vec_len, vec_capacity, OnOk};
ghost use Rattle.wf_typed_exprs.specs.Growth.{with_columns};

use crate::typed_exprs::TypedExpr;
use std::alloc::{AllocError, Global};
use wf_ast::{ExprNode, Sequence, Ty, TypedNodes};
use wf_text::make_room;

/// Expressions: their nodes, their types and their numbers.
pub(crate) struct Columns {
    pub exprs: Vec<ExprNode>,
    pub types: Vec<Ty>,
    pub constants: Vec<Option<u64>>,
}

impl Drop for Columns {
    fn drop(self) {
        let Columns {
            exprs: _,
            types: _,
            constants: _,
        } = self;
    }
}

impl Columns {
    /// No expression yet.
    pub(crate) fn new(alloc: Global) -> Self
        ensures exprs { result.exprs.items ≡ [] }
        ensures types { result.types.items ≡ [] }
        ensures constants { result.constants.items ≡ [] }
    {
        Columns {
            exprs: Vec::new(alloc),
            types: Vec::new(alloc),
            constants: Vec::new(alloc),
        }
    }

    /// The package that has these expressions, and `rest` for all else.
    pub(crate) fn join(self, rest: TypedNodes) -> TypedNodes
        ensures { result ≡ with_columns rest self }
    {
        let Columns {
            exprs,
            types,
            constants,
        } = self;
        let mut whole = rest;
        whole.exprs = Sequence::from_vec(exprs);
        whole.types = Sequence::from_vec(types);
        whole.constants = Sequence::from_vec(constants);
        whole
    }

    /// How many expressions there are.
    pub(crate) fn len(&self) -> usize
        ensures { result ≡ length self.now.exprs.items }
    {
        self.exprs.len()
    }

    /// Makes room for so many expressions more in each list. On `Err`, too, the lists are as before.
    pub(crate) fn reserve(&mut self, exprs: usize) -> Result<(), AllocError>
        ensures exprs { self.new.exprs.items ≡ self.old.exprs.items }
        ensures types { self.new.types.items ≡ self.old.types.items }
        ensures constants { self.new.constants.items ≡ self.old.constants.items }
    {
        self.exprs.reserve(exprs)?;
        self.types.reserve(exprs)?;
        self.constants.reserve(exprs)
    }

    // Makes room for one expression more in each list.
    fn make_room(&mut self) -> Result<(), AllocError>
        ensures exprs { self.new.exprs.items ≡ self.old.exprs.items }
        ensures types { self.new.types.items ≡ self.old.types.items }
        ensures constants { self.new.constants.items ≡ self.old.constants.items }
        ensures room { OnOk result ((vec_len self.new.exprs < vec_capacity self.new.exprs) × ((vec_len self.new.types < vec_capacity self.new.types) × (vec_len self.new.constants < vec_capacity self.new.constants))) }
    {
        make_room(&mut self.exprs)?;
        make_room(&mut self.types)?;
        make_room(&mut self.constants)
    }

    /// Adds an expression at the end. On `Err` the lists are as before.
    pub(crate) fn push(&mut self, one: TypedExpr) -> Result<(), AllocError>
        ensures exprs { self.new.exprs.items ≡ (if is_ok result then self.old.exprs.items ++ one.node ∷ [] else self.old.exprs.items) }
        ensures types { self.new.types.items ≡ (if is_ok result then self.old.types.items ++ one.ty ∷ [] else self.old.types.items) }
        ensures constants { self.new.constants.items ≡ (if is_ok result then self.old.constants.items ++ one.constant ∷ [] else self.old.constants.items) }
    {
        self.make_room()?;
        self.exprs.push(one.node).unwrap();
        self.types.push(one.ty).unwrap();
        self.constants.push(one.constant).unwrap();
        Ok(())
    }
}
