// A unit: the arena of a C text's nodes. A part has a smaller number than its whole, so each number stands for
// a tree, and it keeps that tree while the unit grows.

ghost use Rattle.std.specs.Prelude.{◌≡◌, ◌<◌, ◌++◌, ◌∷◌, [], true, length, Some, slice_get, IsTrue, IfOk, IfSome, OnErr};
ghost use Rattle.std.specs.Str.{bytes_eq};
ghost use Rattle.c_text.specs.CNodes.{no_nodes, bytes_at, expr_of, code_of, unit_tree, made_expr, made_code, made_item};
ghost use Rattle.c_text.specs.CFits.{FitsExpr, FitsStmt, FitsItem};
ghost use Rattle.c_text.specs.CGrammar.{IsName, IsUnit};
ghost use Rattle.c_text.specs.CSpelling.{is_string};
ghost use Rattle.c_text.specs.CUnit.{AddsName, AreDistinct, IsSound, SharesExpr, SharesStmt};
ghost use Rattle.c_text.specs.declared.nodes.CStmt.TheVariants as stmt;

use crate::ids::{CExprId, CItemId, CNameId, CStmtId, CStringId};
use crate::lists::CList;
use crate::nodes::{CExpr, CItem, CStmt};
use crate::recent::Recent;
use crate::sharing;
use crate::words::{is_spelt, join, place_of};
use interner::Interner;
use std::alloc::Global;
use std::marker::Model;
use wf_text::{NoMemory, add_last};

/// A C text as a tree. The text has its items as they came, one after the other.
pub struct Unit {
    names: Interner,
    strings: Vec<CList<u8>>,
    exprs: Vec<CExpr>,
    stmts: Vec<CStmt>,
    items: Vec<CItem>,
    recent_names: Recent,
    recent_exprs: Recent,
    /// The words of the last name that wasn't found, together.
    spelling: Vec<u8>,
    /// Where the end of a block stands, once one was asked for.
    end: usize,
    alloc: Global,
}

impl Drop for Unit {
    fn drop(self) {
        let Unit {
            names: _,
            strings: _,
            exprs: _,
            stmts: _,
            items: _,
            recent_names: _,
            recent_exprs: _,
            spelling: _,
            end: _,
            alloc: _,
        } = self;
    }
}

impl Model for Unit {
    ghost use Rattle.c_text.specs.CNodes.{Nodes};
    ghost use Rattle.c_text.specs.CUnit.{IsSound};

    ghost Value = { Nodes };

    ghost view = { λ u. record { names = u.names; strings = u.strings.items; exprs = u.exprs.items; stmts = u.stmts.items; items = u.items.items } };

    ghost invariant = { λ u. IsSound (record { names = u.names; strings = u.strings.items; exprs = u.exprs.items; stmts = u.stmts.items; items = u.items.items }) };
}

impl Unit {
    /// An empty unit; nothing is allocated.
    pub fn new(alloc: Global) -> Unit
        ensures { result ≡ no_nodes }
    {
        Unit {
            names: Interner::new(alloc),
            strings: Vec::new(alloc),
            exprs: Vec::new(alloc),
            stmts: Vec::new(alloc),
            items: Vec::new(alloc),
            recent_names: Recent::new(alloc),
            recent_exprs: Recent::new(alloc),
            spelling: Vec::new(alloc),
            end: 0,
            alloc,
        }
    }

    /// Makes room for so many expressions and statements more. On `Err`, too, the unit is as before.
    pub fn reserve(&mut self, exprs: usize, stmts: usize) -> Result<(), NoMemory>
        ensures { self.new ≡ self.old }
    {
        self.exprs.reserve(exprs)?;
        self.stmts.reserve(stmts)?;
        Ok(())
    }

    /// Each unit is a tree of the C grammar.
    pub(crate) fn is_lawful(&self)
        ensures { IsUnit (unit_tree self.now) }
    {
        let _ = &self.items;
    }

    /// The names and strings of each unit are spelt as such, and its nodes fit.
    pub fn is_sound(&self)
        ensures { IsSound self.now }
    {
        let _ = &self.items;
    }

    /// The number of names, which differ from one another.
    pub fn names(&self) -> usize
        ensures count { result ≡ length self.now.names }
        ensures unique { AreDistinct self.now.names }
    {
        self.names.len()
    }

    /// The number of items.
    pub fn items(&self) -> usize
        ensures { result ≡ length self.now.items }
    {
        self.items.len()
    }

    /// The number of expressions, which is above each expression's number.
    pub fn exprs(&self) -> usize
        ensures { result ≡ length self.now.exprs }
    {
        self.exprs.len()
    }

    /// The number of statements, which is above each statement's number.
    pub fn stmts(&self) -> usize
        ensures { result ≡ length self.now.stmts }
    {
        self.stmts.len()
    }

    /// The bytes of a name.
    pub fn name(&self, n: CNameId) -> &[u8]
        requires { n.0 < length self.now.names }
        ensures { result.now ≡ bytes_at self.now.names n.0 }
    {
        self.names.text(n.0)
    }

    /// The bytes of a string.
    pub fn string(&self, s: CStringId) -> &[u8]
        requires { s.0 < length self.now.strings }
        ensures { result.now ≡ bytes_at self.now.strings s.0 }
    {
        self.strings[s.0].as_slice()
    }

    /// Whether two names are spelt alike.
    pub fn same_name(&self, a: CNameId, b: CNameId) -> bool
        requires first { a.0 < length self.now.names }
        requires second { b.0 < length self.now.names }
        ensures { result ≡ bytes_eq (bytes_at self.now.names a.0) (bytes_at self.now.names b.0) }
    {
        let _known = self.names();
        a == b
    }

    /// An expression's node.
    pub fn expr(&self, e: CExprId) -> &CExpr
        requires { e.0 < length self.now.exprs }
        ensures tree { expr_of self.now e.0 ≡ made_expr self.now.names (expr_of self.now) result.now }
        ensures fits { FitsExpr self.now e.0 result.now }
    {
        &self.exprs[e.0]
    }

    /// A statement's node.
    pub fn stmt(&self, s: CStmtId) -> &CStmt
        requires { s.0 < length self.now.stmts }
        ensures tree { code_of self.now s.0 ≡ made_code self.now.names (expr_of self.now) (code_of self.now) result.now }
        ensures fits { FitsStmt self.now s.0 result.now }
    {
        &self.stmts[s.0]
    }

    /// An item's node.
    pub fn item(&self, i: CItemId) -> &CItem
        requires { i.0 < length self.now.items }
        ensures tree { slice_get (unit_tree self.now) i.0 ≡ Some (made_item self.now result.now) }
        ensures fits { FitsItem self.now result.now }
    {
        &self.items[i.0]
    }

    /// The number of a name, which is added where the unit doesn't have it yet. After `NoMemory` the unit is as
    /// before.
    pub fn add_name(&mut self, name: &[u8]) -> Result<CNameId, NoMemory>
        requires { IsName name.now }
        ensures ok { IfOk result (λ n. AddsName self.old self.new name.now n.0) }
        ensures err { OnErr result (self.new ≡ self.old) }
    {
        let n = self.names.intern(name)?;
        Ok(CNameId(n))
    }

    /// Whether the name with this number, if there is one, is these words.
    #[inline(always)]
    fn is_spelt_at(
        &self,
        n: usize,
        first: &[u8],
        second: &[u8],
        third: &[u8],
        fourth: &[u8],
    ) -> bool
        ensures { result ≡ true → slice_get self.now.names n ≡ Some (first.now ++ (second.now ++ (third.now ++ fourth.now))) }
    {
        if n >= self.names.len() {
            return false;
        }
        is_spelt(self.names.text(n), first, second, third, fourth)
    }

    /// The number of the name that is these words, of which nothing is known at its place. After `NoMemory` the unit is as
    /// before.
    #[inline(never)]
    fn add_spelt(
        &mut self,
        place: usize,
        first: &[u8],
        second: &[u8],
        third: &[u8],
        fourth: &[u8],
    ) -> Result<CNameId, NoMemory>
        requires { IsName (first.now ++ (second.now ++ (third.now ++ fourth.now))) }
        ensures ok { IfOk result (λ n. AddsName self.old self.new (first.now ++ (second.now ++ (third.now ++ fourth.now))) n.0) }
        ensures err { OnErr result (self.new ≡ self.old) }
    {
        self.recent_names.widen()?;
        join(&mut self.spelling, first, second, third, fourth)?;
        let n = self.names.intern(self.spelling.as_slice())?;
        self.recent_names.put(place, n);
        Ok(CNameId(n))
    }

    /// The number of the name that is these words, one after the other; a word may be empty. It is added where the unit
    /// doesn't have it yet. After `NoMemory` the unit is as before.
    #[inline(always)]
    pub fn add_words(
        &mut self,
        first: &[u8],
        second: &[u8],
        third: &[u8],
        fourth: &[u8],
    ) -> Result<CNameId, NoMemory>
        requires { IsName (first.now ++ (second.now ++ (third.now ++ fourth.now))) }
        ensures ok { IfOk result (λ n. AddsName self.old self.new (first.now ++ (second.now ++ (third.now ++ fourth.now))) n.0) }
        ensures err { OnErr result (self.new ≡ self.old) }
    {
        let place = place_of(first, second, third, fourth);
        let guess = self.recent_names.guess(place);
        if self.is_spelt_at(guess, first, second, third, fourth) {
            return Ok(CNameId(guess));
        }
        self.add_spelt(place, first, second, third, fourth)
    }

    /// Adds a string. After `NoMemory` the unit is as before.
    pub fn add_string(&mut self, bytes: &[u8]) -> Result<CStringId, NoMemory>
        requires { IsTrue (is_string bytes.now) }
        ensures ok { IfOk result (λ s. (s.0 ≡ length self.old.strings) × (self.new ≡ record self.old { strings = self.old.strings ++ bytes.now ∷ [] })) }
        ensures err { OnErr result (self.new ≡ self.old) }
    {
        let s = self.strings.len();
        let owned = CList::from_slice(self.alloc, bytes)?;
        self.strings.push(owned)?;
        Ok(CStringId(s))
    }

    /// Adds an expression whose parts this unit has made. After `NoMemory` the unit is as before.
    pub fn add_expr(&mut self, e: CExpr) -> Result<CExprId, NoMemory>
        requires { FitsExpr self.old (length self.old.exprs) e }
        ensures ok { IfOk result (λ id. (id.0 ≡ length self.old.exprs) × (self.new ≡ record self.old { exprs = self.old.exprs ++ e ∷ [] }) × (expr_of self.new id.0 ≡ made_expr self.old.names (expr_of self.old) e)) }
        ensures err { OnErr result (self.new ≡ self.old) }
    {
        let id = self.exprs.len();
        add_last(&mut self.exprs, e)?;
        Ok(CExprId(id))
    }

    /// An expression that was added not long ago and is the same.
    #[inline(always)]
    fn known(&self, place: usize, e: &CExpr) -> Option<CExprId>
        ensures { IfSome result (λ id. slice_get self.now.exprs id.0 ≡ Some e.now) }
    {
        let guess = self.recent_exprs.guess(place);
        let known = self.exprs.get(guess)?;
        if sharing::is_same(known, e) {
            Some(CExprId(guess))
        } else {
            None
        }
    }

    /// Adds an expression, and puts its number at its place. After `NoMemory` the unit is as before.
    #[inline(never)]
    fn add_at(&mut self, place: usize, e: CExpr) -> Result<CExprId, NoMemory>
        requires { FitsExpr self.old (length self.old.exprs) e }
        ensures ok { IfOk result (λ id. SharesExpr self.old self.new e id.0) }
        ensures err { OnErr result (self.new ≡ self.old) }
    {
        self.recent_exprs.widen()?;
        let id = self.add_expr(e)?;
        self.recent_exprs.put(place, id.0);
        Ok(id)
    }

    /// Adds an expression, unless one that was added not long ago is the same.
    #[inline(always)]
    fn share_at(&mut self, place: usize, e: CExpr) -> Result<CExprId, NoMemory>
        requires { FitsExpr self.old (length self.old.exprs) e }
        ensures ok { IfOk result (λ id. SharesExpr self.old self.new e id.0) }
        ensures err { OnErr result (self.new ≡ self.old) }
    {
        self.is_sound();
        if let Some(id) = self.known(place, &e) {
            return Ok(id);
        }
        self.add_at(place, e)
    }

    /// An expression whose parts this unit has made. A number, a name or a member that was added not long ago serves
    /// again; else it is added. After `NoMemory` the unit is as before.
    #[inline(always)]
    pub fn share_expr(&mut self, e: CExpr) -> Result<CExprId, NoMemory>
        requires { FitsExpr self.old (length self.old.exprs) e }
        ensures ok { IfOk result (λ id. SharesExpr self.old self.new e id.0) }
        ensures err { OnErr result (self.new ≡ self.old) }
    {
        match sharing::place_of(&e) {
            Some(place) => self.share_at(place, e),
            None => {
                let id = self.add_expr(e)?;
                Ok(id)
            }
        }
    }

    /// Adds a statement whose parts this unit has made. After `NoMemory` the unit is as before.
    pub fn add_stmt(&mut self, s: CStmt) -> Result<CStmtId, NoMemory>
        requires { FitsStmt self.old (length self.old.stmts) s }
        ensures ok { IfOk result (λ id. (id.0 ≡ length self.old.stmts) × (self.new ≡ record self.old { stmts = self.old.stmts ++ s ∷ [] }) × (code_of self.new id.0 ≡ made_code self.old.names (expr_of self.old) (code_of self.old) s)) }
        ensures err { OnErr result (self.new ≡ self.old) }
    {
        let id = self.stmts.len();
        add_last(&mut self.stmts, s)?;
        Ok(CStmtId(id))
    }

    /// The end of a block that was asked for before.
    fn known_end(&self) -> Option<CStmtId>
        ensures { IfSome result (λ id. slice_get self.now.stmts id.0 ≡ Some stmt.End) }
    {
        match self.stmts.get(self.end) {
            Some(CStmt::End) => Some(CStmtId(self.end)),
            _ => None,
        }
    }

    /// The end of a block, one for all blocks. After `NoMemory` the unit is as before.
    pub fn share_end(&mut self) -> Result<CStmtId, NoMemory>
        ensures ok { IfOk result (λ id. SharesStmt self.old self.new stmt.End id.0) }
        ensures err { OnErr result (self.new ≡ self.old) }
    {
        self.is_sound();
        if let Some(id) = self.known_end() {
            return Ok(id);
        }
        let id = self.add_stmt(CStmt::End)?;
        self.end = id.0;
        Ok(id)
    }

    /// Adds an item at the end of the text, whose parts this unit has made. After `NoMemory` the unit is as
    /// before.
    pub fn add_item(&mut self, i: CItem) -> Result<CItemId, NoMemory>
        requires { FitsItem self.old i }
        ensures ok { IfOk result (λ id. (id.0 ≡ length self.old.items) × (self.new ≡ record self.old { items = self.old.items ++ i ∷ [] }) × (unit_tree self.new ≡ unit_tree self.old ++ made_item self.old i ∷ [])) }
        ensures err { OnErr result (self.new ≡ self.old) }
    {
        let id = self.items.len();
        add_last(&mut self.items, i)?;
        Ok(CItemId(id))
    }
}
