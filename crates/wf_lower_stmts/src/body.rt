// The body of a method that is lowered: the method, its names, its points, and what it keeps at one.

ghost use Rattle.std.specs.Prelude.{◌≡◌, ◌<◌, ◌≤◌, ◌^◌, true, length, map, slice_get, Some};
ghost use Rattle.std.specs.List.{list_all};
ghost use Rattle.wf_ast.specs.TypedInvariant.{IsTyped};
ghost use Rattle.wf_ast.specs.TypedPackage.{MethodTree, package_of};
ghost use Rattle.wf_ast.specs.WellTyped.{is_coroutine as is_marked_coroutine};
ghost use Rattle.wf_points.specs.PointNumbers.{saved_locals};
ghost use Rattle.c_text.specs.CSpelling.{is_word_byte};
ghost use Rattle.wf_exprs.specs.Scopes.{are_named};
ghost use Rattle.wf_lower_stmts.specs.BodyNodes.{AreSmall, HasWords, form_in, is_spelt_method, point_at, started_of};
ghost use Rattle.wf_lower_stmts.specs.Forms.{counts_bytes, holds_something, keeps};
ghost use Rattle.wf_lower_stmts.specs.Lower.{returns as returns_in};

use crate::walks::{StartedNumbers, returns};
use std::alloc::Global;
use std::marker::Model;
use wf_ast::{Block, LocalId, Method, StmtId, Typed, Var};
use wf_base::Mark;
use wf_exprs::BodyNames;
use wf_points::table::Points;
use wf_text::MethodId;

/// What lowering knows of a method.
#[derive(Drop)]
pub struct Body<'a> {
    scope: BodyNames<'a>,
    t: &'a Typed,
    points: &'a Points,
    method: &'a Method,
    body: &'a Block,
    saved: &'a [LocalId],
    started: StartedNumbers,
    returns: bool,
}

impl<'a> Model for Body<'a> {
    ghost use Rattle.wf_lower_stmts.specs.BodyNodes.{BodyTree, IsBody};

    ghost Value = { BodyTree };

    ghost view = { λ b. record { nodes = b.t.now; method = b.method.now; body = b.body.now; numbers = b.points.now.numbers } };

    ghost invariant = { λ b. IsBody b.scope b.t.now b.points.now.numbers b.method.now b.body.now b.saved.now b.started b.returns };
}

impl<'a> Body<'a> {
    /// The body of the method with this number, whose started statements keep the numbers `started`.
    pub fn new(
        alloc: Global,
        t: &'a Typed,
        points: &'a Points,
        started: StartedNumbers,
        m: MethodId,
    ) -> Body<'a>
        requires typed { IsTyped t.now }
        requires known { m.0 < length t.now.methods }
        requires words { HasWords t.now }
        requires small { AreSmall points.now.numbers }
        requires saved { points.now.saved ≡ map saved_locals (package_of t.now).methods }
        requires started { (method : MethodTree) → slice_get (package_of t.now).methods m.0 ≡ Some method → started ≡ started_of method }
        ensures nodes { result.nodes ≡ t.now }
        ensures numbers { result.numbers ≡ points.now.numbers }
        ensures form { slice_get (package_of t.now).methods m.0 ≡ Some (form_in result).method }
    {
        let method = t.method(m);
        let of = t.structure(method.of);
        let body = t.body(m);
        Body {
            scope: BodyNames::new(
                alloc,
                t,
                of.fields.as_slice(),
                method.args.as_slice(),
                method.locals.as_slice(),
            ),
            t,
            points,
            method,
            body,
            saved: points.saved(m),
            started,
            returns: returns(t, body),
        }
    }

    /// Where memory comes from.
    pub fn alloc(&self) -> Global {
        self.scope.alloc()
    }

    /// The names of the method.
    pub fn scope(&self) -> &BodyNames<'a>
        ensures { result.now ≡ record { nodes = self.now.nodes; names = (form_in self.now).names } }
    {
        &self.scope
    }

    /// The package.
    pub fn typed(&self) -> &Typed
        ensures same { result.now ≡ self.now.nodes }
        ensures kept { IsTyped self.now.nodes }
        ensures words { HasWords self.now.nodes }
    {
        self.t
    }

    /// The method.
    pub fn method(&self) -> &Method
        ensures { result.now ≡ self.now.method }
    {
        self.method
    }

    /// The package keeps its rules, and the names of the method are there, and are words.
    pub fn is_sound(&self)
        ensures typed { IsTyped self.now.nodes }
        ensures spelt { is_spelt_method self.now.nodes self.now.method ≡ true }
    {
        let _ = &self.method;
    }

    /// The statements of the method.
    pub(crate) fn block(&self) -> &Block
        ensures { result.now ≡ self.now.body }
    {
        self.body
    }

    /// The arguments of the method, in order.
    pub fn arguments(&self) -> &[Var]
        ensures is { result.now ≡ self.now.method.args }
        ensures few { length result.now ≤ 64 }
    {
        self.method.args.as_slice()
    }

    /// The locals of the method, in order.
    pub fn locals(&self) -> &[Var]
        ensures is { result.now ≡ self.now.method.locals }
        ensures named { are_named self.now.nodes result.now ≡ true }
        ensures few { length result.now ≤ 256 }
    {
        self.method.locals.as_slice()
    }

    /// The locals that the method keeps at a suspension, in order.
    pub(crate) fn saved(&self) -> &[LocalId]
        ensures { result.now ≡ saved_locals (form_in self.now).method }
    {
        self.saved
    }

    /// The source's name of the method.
    pub fn name(&self) -> &[u8]
        ensures is { result.now ≡ (form_in self.now).method.name }
        ensures word { list_all is_word_byte result.now ≡ true }
    {
        self.t.text(self.method.name)
    }

    /// Whether the method is a coroutine.
    pub fn is_coroutine(&self) -> bool
        ensures { result ≡ is_marked_coroutine (form_in self.now).method.mark }
    {
        matches!(self.method.mark, Mark::Coroutine)
    }

    /// Whether the method keeps what a started statement has.
    pub(crate) fn keeps_held(&self) -> bool
        ensures { result ≡ keeps holds_something (form_in self.now).method.body }
    {
        self.started.held
    }

    /// Whether the method keeps how many bytes that is.
    pub(crate) fn keeps_count(&self) -> bool
        ensures { result ≡ keeps counts_bytes (form_in self.now).method.body }
    {
        self.started.counted
    }

    /// Whether a `return` stands in the method.
    pub fn returns(&self) -> bool
        ensures { result ≡ returns_in (form_in self.now).method.body }
    {
        self.returns
    }

    /// The number of a point. Zero for every other statement.
    pub fn number(&self, s: StmtId) -> u32
        ensures is { result ≡ point_at self.now.numbers s.0 }
        ensures small { result < 2 ^ 31 }
    {
        match self.points.number_of(s) {
            Some(number) => number,
            None => 0,
        }
    }
}
