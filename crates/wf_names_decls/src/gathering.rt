// The names that a package declares, gathered from its declarations.

ghost use Rattle.std.specs.Prelude.{◌≡◌, ◌++◌, ◌∷◌, [], length, IfOk, OnOk};
ghost use Rattle.wf_ast.specs.ParsedTrees.{decl_trees, decl_made, stmt_made, stmt_trees, block_at};
ghost use Rattle.wf_ast.specs.ParsedParts.{BlockBelow};
ghost use Rattle.wf_names_rules.specs.Declarations.{declared, local_of, locals_of};
ghost use Rattle.wf_names_rules.specs.NameRules.{variable_names};
ghost use Rattle.wf_names_decls.specs.Gathering.{listed, field_names as fields_in};
ghost use Rattle.wf_names_decls.specs.NameLists.{AreNameLists, GrowBy};

use std::alloc::Global;
use wf_ast::PackageNodes;
use wf_ast::parsed::{Block, Decl, Field, Name, Stmt};
use wf_text::faults::NoMemory;

/// The names of the statuses, the constants, the structs and the methods that a package declares, each list in order.
pub struct NameLists {
    pub(crate) statuses: Vec<Name>,
    pub(crate) constants: Vec<Name>,
    pub structs: Vec<Name>,
    pub methods: Vec<Name>,
    /// Of each method the name of the struct that it is declared for.
    pub(crate) owners: Vec<Name>,
}

impl Drop for NameLists {
    fn drop(self) {
        let NameLists {
            statuses: _,
            constants: _,
            structs: _,
            methods: _,
            owners: _,
        } = self;
    }
}

impl NameLists {
    // No names.
    fn empty(alloc: Global) -> NameLists
        ensures { AreNameLists (declared [] []) result }
    {
        NameLists {
            statuses: Vec::new(alloc),
            constants: Vec::new(alloc),
            structs: Vec::new(alloc),
            methods: Vec::new(alloc),
            owners: Vec::new(alloc),
        }
    }

    // Adds the name that a declaration declares.
    fn add(&mut self, decl: &Decl) -> Result<(), NoMemory>
        ensures { OnOk result ((texts : _) (es : _) (ts : _) (public : _) (at : _) → GrowBy (declared texts (decl_made es ts public decl.now at ∷ [])) self.old self.new) }
    {
        match decl {
            Decl::Status(name) => self.statuses.push(*name)?,
            Decl::Const { name, .. } => self.constants.push(*name)?,
            Decl::Struct { name, .. } => self.structs.push(*name)?,
            Decl::Method { of, name, .. } => {
                self.owners.push(*of)?;
                self.methods.push(*name)?;
            }
        }
        Ok(())
    }

    /// Those of the structs, and those of the methods.
    pub fn into_structs_and_methods(self) -> (Vec<Name>, Vec<Name>)
        ensures { result ≡ (self.structs, self.methods) }
    {
        let NameLists {
            statuses: _,
            constants: _,
            structs,
            methods,
            owners: _,
        } = self;
        (structs, methods)
    }
}

fn local_name(stmt: &Stmt) -> Option<Name>
    ensures { (es : _) (ts : _) (at : _) → variable_names (local_of (stmt_made es ts stmt.now at)) ≡ listed result }
{
    match stmt {
        Stmt::Var { name, .. } => Some(*name),
        Stmt::Assign { .. } => None,
        Stmt::Keep { .. } => None,
        Stmt::Call(_) => None,
        Stmt::If { .. } => None,
        Stmt::While { .. } => None,
        Stmt::Break(_) => None,
        Stmt::Continue(_) => None,
        Stmt::Return(_) => None,
        Stmt::Yield(_) => None,
        Stmt::Assert { .. } => None,
    }
}

// Adds a name, if there is one.
fn push_name(names: &mut Vec<Name>, name: Option<Name>) -> Result<(), NoMemory>
    ensures { OnOk result (names.new.items ≡ names.old.items ++ listed name) }
{
    match name {
        Some(name) => {
            names.push(name)?;
            Ok(())
        }
        None => Ok(()),
    }
}

/// The names that a package declares, each list in order. `Err` where memory was refused.
pub fn name_lists(alloc: Global, parsed: &PackageNodes) -> Result<NameLists, NoMemory>
    ensures { IfOk result (AreNameLists (declared parsed.now.texts (decl_trees parsed.now.exprs parsed.now.stmts parsed.now.decls))) }
{
    let mut names = NameLists::empty(alloc);
    for number in 0..parsed.decls().len() {
        names.add(&parsed.decl(number).decl)?;
    }
    Ok(names)
}

/// The names of fields or arguments, in order, take the place of what is in the list.
pub(crate) fn field_names(names: &mut Vec<Name>, fields: &[Field]) -> Result<(), NoMemory>
    ensures { OnOk result (names.new.items ≡ fields_in fields.now) }
{
    names.clear();
    for field in fields {
        names.push(field.name)?;
    }
    Ok(())
}

/// The names of the locals that the statements of a body declare, in order, take the place of what is in the list.
pub(crate) fn local_names(
    names: &mut Vec<Name>,
    parsed: &PackageNodes,
    body: &Block,
) -> Result<(), NoMemory>
    requires { BlockBelow (length parsed.now.stmts) body.now }
    ensures { OnOk result (names.new.items ≡ variable_names (locals_of (block_at (stmt_trees parsed.now.exprs parsed.now.stmts) body.now))) }
{
    names.clear();
    for s in body.items.as_slice() {
        push_name(names, local_name(&parsed.stmt(*s).stmt))?;
    }
    Ok(())
}
