// A parsed package is built as a parser builds one, with ample memory.

use std::alloc::{AllocError, Global};
use std::test::Fail;
use wf_ast::PackageNodes;
use wf_ast::parsed::{Decl, DeclNode, Expr, ExprNode, Name, Stmt, StmtNode};
use wf_text::Place;

const FIRST: Place = Place {
    file: 0,
    line: 1,
    col: 1,
};

// Equal texts have one number.
fn texts_are_numbered(alloc: Global) -> Result<bool, AllocError> {
    let mut package = PackageNodes::new(alloc, b"demo")?;
    let one = package.intern(b"val")?;
    let other = package.intern(b"src")?;
    let again = package.intern(b"val")?;
    Ok(one.0 == 0 && other.0 == 1 && again.0 == 0)
}

// An expression, the statement that returns it, and one declaration stand where they are put.
fn nodes_are_kept(alloc: Global) -> Result<bool, AllocError> {
    let mut package = PackageNodes::new(alloc, b"demo")?;
    let value = package.push_expr(ExprNode {
        expr: Expr::Number(7),
        at: FIRST,
    })?;
    let statement = package.push_stmt(StmtNode {
        stmt: Stmt::Return(Some(value)),
        at: FIRST,
    })?;
    let text = package.intern(b"#too large")?;
    package.push_decl(DeclNode {
        decl: Decl::Status(Name { text, at: FIRST }),
        public: true,
        at: FIRST,
    })?;
    Ok(value.0 == 0 && statement.0 == 0 && package.decls().len() == 1)
}

#[test]
fn packages_are_built(rt: HostRuntime) -> Result<(), Fail> {
    assert!(rt; texts_are_numbered(rt.alloc())? && nodes_are_kept(rt.alloc())?);
    Ok(())
}
