// The package that is made, with the values of what is read so far.

ghost use Rattle.std.specs.Prelude.{◌≡◌, ◌+◌, ◌<◌, ◌≤◌, ◌^◌, length, true, false, OnOk};
ghost use Rattle.wf_ast.specs.ParsedTrees.{expr_trees, stmt_trees, decl_trees};
ghost use Rattle.wf_parse_grammar.specs.Building.{all_performed};
ghost use Rattle.wf_parse_grammar.specs.Values.{perform};
ghost use Rattle.wf_parse_grammar.specs.Wanted.{performed_by};
ghost use Rattle.wf_parse_nodes.specs.Shapes.{fits, takes, pushes, kind_of};
ghost use Rattle.wf_parse_nodes.specs.declared.actions.ActionKind.TheVariants as kinds;
ghost use Rattle.wf_parse_nodes.specs.Products as makes;
ghost use Rattle.wf_parse_nodes.specs.Seen.{ProductParts, made_with, seen_values};
ghost use Rattle.wf_parse_nodes.specs.Makers.{made, nodes, IsSound, KeepsTexts};

use crate::actions::{
    ActionKind, grown, kind_of, made_decl, made_expr, made_stmt, made_value, pushed, pushes,
};
use crate::shapes::takes;
use crate::values::SemanticValue;
use stacks::{Stack, fits};
use std::alloc::Global;
use wf_ast::PackageNodes;
use wf_ast::parsed::{DeclNode, ExprNode, StmtNode};
use wf_parse_grammar::{Action, Lead};
use wf_text::NoMemory;

/// A package whose nodes are made of values on a stack.
#[derive(Drop)]
pub struct Maker {
    pub alloc: Global,
    pub package: PackageNodes,
    pub values: Stack<SemanticValue>,
}

impl Maker {
    /// Puts an expression into the package, and its number on the stack.
    fn put_expr(&mut self, node: ExprNode) -> Result<(), NoMemory>
        requires sound { IsSound self.old }
        requires parts { ProductParts (length self.old.package.exprs) (length self.old.package.stmts) (makes.Expr node) }
        requires room { nodes self.old < 2 ^ 32 }
        ensures made { OnOk result (made self.new ≡ made_with (expr_trees self.old.package.exprs) (stmt_trees self.old.package.exprs self.old.package.stmts) (makes.Expr node) (seen_values (expr_trees self.old.package.exprs) (stmt_trees self.old.package.exprs self.old.package.stmts) self.old.values) (decl_trees self.old.package.exprs self.old.package.stmts self.old.package.decls)) }
        ensures sound { OnOk result (IsSound self.new) }
        ensures grows { OnOk result (nodes self.new ≤ nodes self.old + 1) }
        ensures texts { OnOk result (KeepsTexts self.old.package self.new.package) }
    {
        let number = self.package.push_expr(node)?;
        self.values.push(SemanticValue::Expr(number))
    }

    /// Puts a statement into the package, and its number on the stack.
    fn put_stmt(&mut self, node: StmtNode) -> Result<(), NoMemory>
        requires sound { IsSound self.old }
        requires parts { ProductParts (length self.old.package.exprs) (length self.old.package.stmts) (makes.Stmt node) }
        requires room { nodes self.old < 2 ^ 32 }
        ensures made { OnOk result (made self.new ≡ made_with (expr_trees self.old.package.exprs) (stmt_trees self.old.package.exprs self.old.package.stmts) (makes.Stmt node) (seen_values (expr_trees self.old.package.exprs) (stmt_trees self.old.package.exprs self.old.package.stmts) self.old.values) (decl_trees self.old.package.exprs self.old.package.stmts self.old.package.decls)) }
        ensures sound { OnOk result (IsSound self.new) }
        ensures grows { OnOk result (nodes self.new ≤ nodes self.old + 1) }
        ensures texts { OnOk result (KeepsTexts self.old.package self.new.package) }
    {
        let number = self.package.push_stmt(node)?;
        self.values.push(SemanticValue::Stmt(number))
    }

    /// Puts a declaration into the package.
    fn put_decl(&mut self, node: DeclNode) -> Result<(), NoMemory>
        requires sound { IsSound self.old }
        requires parts { ProductParts (length self.old.package.exprs) (length self.old.package.stmts) (makes.Decl node) }
        requires room { nodes self.old < 2 ^ 32 }
        ensures made { OnOk result (made self.new ≡ made_with (expr_trees self.old.package.exprs) (stmt_trees self.old.package.exprs self.old.package.stmts) (makes.Decl node) (seen_values (expr_trees self.old.package.exprs) (stmt_trees self.old.package.exprs self.old.package.stmts) self.old.values) (decl_trees self.old.package.exprs self.old.package.stmts self.old.package.decls)) }
        ensures sound { OnOk result (IsSound self.new) }
        ensures grows { OnOk result (nodes self.new ≤ nodes self.old + 1) }
        ensures texts { OnOk result (KeepsTexts self.old.package self.new.package) }
    {
        self.package.push_decl(node)?;
        Ok(())
    }

    /// Puts a value on the stack.
    #[inline(always)]
    fn put_value(&mut self, value: SemanticValue) -> Result<(), NoMemory>
        requires sound { IsSound self.old }
        requires parts { ProductParts (length self.old.package.exprs) (length self.old.package.stmts) (makes.Value value) }
        ensures made { OnOk result (made self.new ≡ made_with (expr_trees self.old.package.exprs) (stmt_trees self.old.package.exprs self.old.package.stmts) (makes.Value value) (seen_values (expr_trees self.old.package.exprs) (stmt_trees self.old.package.exprs self.old.package.stmts) self.old.values) (decl_trees self.old.package.exprs self.old.package.stmts self.old.package.decls)) }
        ensures sound { OnOk result (IsSound self.new) }
        ensures package { self.new.package ≡ self.old.package }
    {
        self.values.push(value)
    }

    /// Performs an action. Where the topmost values are others than it takes, none are left; the actions of the
    /// grammar's table never come to that. Those that come most often have each a way of their own, on which nothing is
    /// left to look up.
    pub fn perform(&mut self, action: Action) -> Result<(), NoMemory>
        requires sound { IsSound self.old }
        requires room { nodes self.old < 2 ^ 32 }
        ensures made { OnOk result (made self.new ≡ perform action (made self.old)) }
        ensures sound { OnOk result (IsSound self.new) }
        ensures grows { OnOk result (nodes self.new ≤ nodes self.old + 1) }
        ensures texts { OnOk result (KeepsTexts self.old.package self.new.package) }
    {
        match action {
            Action::PushName(name) => self.push(Action::PushName(name)),
            Action::PushPlace(at) => self.push(Action::PushPlace(at)),
            Action::PushSign { op, at } => self.push(Action::PushSign { op, at }),
            Action::BarePath(name) => self.push(Action::BarePath(name)),
            Action::ThisPath => self.replace(Action::ThisPath),
            Action::ArgsPath => self.replace(Action::ArgsPath),
            Action::PathTarget => self.replace(Action::PathTarget),
            Action::PathExpr => self.replace(Action::PathExpr),
            Action::NumberExpr { value, at } => self.replace(Action::NumberExpr { value, at }),
            Action::StartChain { op, at } => self.replace(Action::StartChain { op, at }),
            Action::AddLink => self.replace(Action::AddLink),
            Action::FinishChain => self.replace(Action::FinishChain),
            Action::AddStmt => self.replace(Action::AddStmt),
            Action::AssignStmt => self.replace(Action::AssignStmt),
            Action::BaseCore(name) => self.replace(Action::BaseCore(name)),
            Action::FinishType => self.replace(Action::FinishType),
            Action::CloseBlock(at) => self.replace(Action::CloseBlock(at)),
            Action::AddField => self.replace(Action::AddField),
            Action::SomeResult => self.replace(Action::SomeResult),
            Action::SomePart => self.replace(Action::SomePart),
            Action::ReturnStmt => self.replace(Action::ReturnStmt),
            Action::VarStmt => self.replace(Action::VarStmt),
            Action::PathReceiver => self.replace(Action::PathReceiver),
            Action::FinishCall => self.replace(Action::FinishCall),
            Action::AddGiven => self.replace(Action::AddGiven),
            Action::CallStmt => self.replace(Action::CallStmt),
            Action::AddArm => self.replace(Action::AddArm),
            Action::IndexExpr => self.replace(Action::IndexExpr),
            _ => self.perform_any(action),
        }
    }

    /// Performs an action, whichever it is.
    #[inline(always)]
    fn perform_any(&mut self, action: Action) -> Result<(), NoMemory>
        requires sound { IsSound self.old }
        requires room { nodes self.old < 2 ^ 32 }
        ensures made { OnOk result (made self.new ≡ perform action (made self.old)) }
        ensures sound { OnOk result (IsSound self.new) }
        ensures grows { OnOk result (nodes self.new ≤ nodes self.old + 1) }
        ensures texts { OnOk result (KeepsTexts self.old.package self.new.package) }
    {
        if pushes(action) {
            self.push(action)
        } else {
            self.replace(action)
        }
    }

    /// Performs an action that takes nothing from the stack.
    #[inline(always)]
    fn push(&mut self, action: Action) -> Result<(), NoMemory>
        requires sound { IsSound self.old }
        requires pushes { pushes action ≡ true }
        ensures made { OnOk result (made self.new ≡ perform action (made self.old)) }
        ensures sound { OnOk result (IsSound self.new) }
        ensures package { self.new.package ≡ self.old.package }
    {
        let value = pushed(self.alloc, action);
        self.put_value(value)
    }

    /// Performs an action that makes a value of those that it takes.
    #[inline(always)]
    fn replace_by_value(&mut self, action: Action) -> Result<(), NoMemory>
        requires sound { IsSound self.old }
        requires fit { fits (takes action) self.old.values ≡ true }
        requires pushes { pushes action ≡ false }
        requires kind { kind_of action ≡ kinds.Value }
        ensures made { OnOk result (made self.new ≡ perform action (made self.old)) }
        ensures sound { OnOk result (IsSound self.new) }
        ensures package { self.new.package ≡ self.old.package }
    {
        let value = made_value(self.alloc, action, &mut self.values);
        self.put_value(value)
    }

    /// Performs an action that makes a value for which memory may be wanted.
    #[inline(always)]
    fn grow(&mut self, action: Action) -> Result<(), NoMemory>
        requires sound { IsSound self.old }
        requires fit { fits (takes action) self.old.values ≡ true }
        requires kind { kind_of action ≡ kinds.Grown }
        ensures made { OnOk result (made self.new ≡ perform action (made self.old)) }
        ensures sound { OnOk result (IsSound self.new) }
        ensures package { self.new.package ≡ self.old.package }
    {
        let value = grown(action, &mut self.values)?;
        self.put_value(value)
    }

    /// Performs an action that makes an expression.
    #[inline(always)]
    fn make_expr(&mut self, action: Action) -> Result<(), NoMemory>
        requires sound { IsSound self.old }
        requires room { nodes self.old < 2 ^ 32 }
        requires fit { fits (takes action) self.old.values ≡ true }
        requires kind { kind_of action ≡ kinds.Expr }
        ensures made { OnOk result (made self.new ≡ perform action (made self.old)) }
        ensures sound { OnOk result (IsSound self.new) }
        ensures grows { OnOk result (nodes self.new ≤ nodes self.old + 1) }
        ensures texts { OnOk result (KeepsTexts self.old.package self.new.package) }
    {
        let node = made_expr(action, &mut self.values);
        self.put_expr(node)
    }

    /// Performs an action that makes a statement.
    #[inline(always)]
    fn make_stmt(&mut self, action: Action) -> Result<(), NoMemory>
        requires sound { IsSound self.old }
        requires room { nodes self.old < 2 ^ 32 }
        requires fit { fits (takes action) self.old.values ≡ true }
        requires kind { kind_of action ≡ kinds.Stmt }
        ensures made { OnOk result (made self.new ≡ perform action (made self.old)) }
        ensures sound { OnOk result (IsSound self.new) }
        ensures grows { OnOk result (nodes self.new ≤ nodes self.old + 1) }
        ensures texts { OnOk result (KeepsTexts self.old.package self.new.package) }
    {
        let node = made_stmt(action, &mut self.values);
        self.put_stmt(node)
    }

    /// Performs an action that makes a declaration.
    #[inline(always)]
    fn make_decl(&mut self, action: Action) -> Result<(), NoMemory>
        requires sound { IsSound self.old }
        requires room { nodes self.old < 2 ^ 32 }
        requires fit { fits (takes action) self.old.values ≡ true }
        requires kind { kind_of action ≡ kinds.Decl }
        ensures made { OnOk result (made self.new ≡ perform action (made self.old)) }
        ensures sound { OnOk result (IsSound self.new) }
        ensures grows { OnOk result (nodes self.new ≤ nodes self.old + 1) }
        ensures texts { OnOk result (KeepsTexts self.old.package self.new.package) }
    {
        let node = made_decl(action, &mut self.values);
        self.put_decl(node)
    }

    /// Performs an action on the values that it takes.
    #[inline(always)]
    fn replace(&mut self, action: Action) -> Result<(), NoMemory>
        requires sound { IsSound self.old }
        requires room { nodes self.old < 2 ^ 32 }
        requires pushes { pushes action ≡ false }
        ensures made { OnOk result (made self.new ≡ perform action (made self.old)) }
        ensures sound { OnOk result (IsSound self.new) }
        ensures grows { OnOk result (nodes self.new ≤ nodes self.old + 1) }
        ensures texts { OnOk result (KeepsTexts self.old.package self.new.package) }
    {
        if !fits(takes(action), &self.values) {
            self.values.clear();
            return Ok(());
        }
        match kind_of(action) {
            ActionKind::Value => self.replace_by_value(action),
            ActionKind::Grown => self.grow(action),
            ActionKind::Expr => self.make_expr(action),
            ActionKind::Stmt => self.make_stmt(action),
            ActionKind::Decl => self.make_decl(action),
        }
    }

    /// Performs two actions, one after the other. The second takes nothing from the stack.
    #[inline(always)]
    fn perform_two(&mut self, first: Action, second: Action) -> Result<(), NoMemory>
        requires sound { IsSound self.old }
        requires room { nodes self.old + 1 < 2 ^ 32 }
        requires pushes { pushes second ≡ true }
        ensures made { OnOk result (made self.new ≡ perform second (perform first (made self.old))) }
        ensures sound { OnOk result (IsSound self.new) }
        ensures grows { OnOk result (nodes self.new ≤ nodes self.old + 1) }
        ensures texts { OnOk result (KeepsTexts self.old.package self.new.package) }
    {
        self.perform(first)?;
        self.push(second)
    }

    /// Performs two actions that take nothing from the stack, one after the other.
    #[inline(always)]
    fn push_two(&mut self, first: Action, second: Action) -> Result<(), NoMemory>
        requires sound { IsSound self.old }
        requires first { pushes first ≡ true }
        requires second { pushes second ≡ true }
        ensures made { OnOk result (made self.new ≡ perform second (perform first (made self.old))) }
        ensures sound { OnOk result (IsSound self.new) }
        ensures package { self.new.package ≡ self.old.package }
    {
        self.push(first)?;
        self.push(second)
    }

    /// Performs the actions before a list of the table.
    pub fn perform_lead(&mut self, lead: Lead) -> Result<(), NoMemory>
        requires sound { IsSound self.old }
        requires room { nodes self.old + 2 < 2 ^ 32 }
        ensures made { OnOk result (made self.new ≡ performed_by lead (made self.old)) }
        ensures sound { OnOk result (IsSound self.new) }
        ensures grows { OnOk result (nodes self.new ≤ nodes self.old + 3) }
        ensures texts { OnOk result (KeepsTexts self.old.package self.new.package) }
    {
        match lead {
            Lead::Empty => Ok(()),
            Lead::One(action) => self.perform(action),
            Lead::Places(at) => self.push_two(Action::PushPlace(at), Action::PushPlace(at)),
            Lead::PlacedPath(name) => {
                self.push_two(Action::PushPlace(name.at), Action::BarePath(name))
            }
            Lead::ThisPath(at) => self.perform_two(Action::ThisPath, Action::PushPlace(at)),
            Lead::Chain { op, at } => {
                self.perform_two(Action::StartChain { op, at }, Action::PushPlace(at))
            }
            Lead::Target { op, at } => {
                self.perform_two(Action::PathTarget, Action::PushSign { op, at })
            }
            Lead::ThisTarget { op, at } => {
                self.perform(Action::ThisPath)?;
                self.perform_two(Action::PathTarget, Action::PushSign { op, at })
            }
        }
    }

    /// Performs actions one after the other.
    pub fn perform_all(&mut self, actions: &[Action]) -> Result<(), NoMemory>
        requires sound { IsSound self.old }
        requires room { nodes self.old + length actions.now < 2 ^ 32 }
        ensures made { OnOk result (made self.new ≡ all_performed actions.now (made self.old)) }
        ensures sound { OnOk result (IsSound self.new) }
        ensures grows { OnOk result (nodes self.new ≤ nodes self.old + length actions.now) }
        ensures texts { OnOk result (KeepsTexts self.old.package self.new.package) }
    {
        for action in actions {
            self.perform(*action)?;
        }
        Ok(())
    }
}
