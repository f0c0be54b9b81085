// What a method's expressions name: fields, arguments and locals by their numbers, with the names that they have in C.

ghost use Rattle.std.specs.Prelude.{◌≡◌, ◌<◌, [], true, IfOk};
ghost use Rattle.std.specs.List.{list_all};
ghost use Rattle.wf_ast.specs.TypedInvariant.{IsTyped};
ghost use Rattle.c_text.specs.CGrammar.{IsName};
ghost use Rattle.c_text.specs.CSpelling.{is_word_byte};
ghost use Rattle.c_text.specs.CTree as c;
ghost use Rattle.wf_exprs.specs.Exprs.{bytes_code, end_code, io_code, path_code, place_code};
ghost use Rattle.wf_exprs.specs.Grown.{Grows, HasExpr, HasNamed};
ghost use Rattle.wf_exprs.specs.Names.{arg_length, arg_name, arg_pointer, field_name as name_of_field, local_length, local_name as name_of_local, local_pointer, named as named_in};
ghost use Rattle.wf_exprs.specs.Scopes.{Scoped, are_named, names_in, path_of};
ghost use Rattle.wf_exprs.specs.Words.{of_self as of_self_tree};

use crate::names::put_spelt;
use crate::nodes::{member, member_of_self, spelt_variable};
use c_text::{CExprId, CNameId, Unit};
use std::alloc::Global;
use std::marker::Model;
use wf_ast::{Typed, Var};
use wf_text::NoMemory;

/// The names of a method's body.
#[derive(Drop)]
pub struct BodyNames<'a> {
    alloc: Global,
    t: &'a Typed,
    fields: &'a [Var],
    args: &'a [Var],
    locals: &'a [Var],
}

impl<'a> Model for BodyNames<'a> {
    ghost use Rattle.std.specs.Prelude.{◌≡◌, true};
    ghost use Rattle.wf_ast.specs.TypedInvariant.{IsTyped};
    ghost use Rattle.wf_exprs.specs.Scopes.{ScopeTree, Scoped, names_in};

    ghost Value = { ScopeTree };

    ghost view = { λ s. record { nodes = s.t.now; names = record { fields = names_in s.t.now s.fields.now; args = names_in s.t.now s.args.now; locals = names_in s.t.now s.locals.now } } };

    ghost invariant = { λ s. Scoped s.t.now s.fields.now s.args.now s.locals.now };
}

/// What a path names, by its number.
#[derive(Clone, Copy)]
pub enum Path {
    Local(u32),
    Field(u32),
    Arg(u32),
}

/// The source's name of one of these.
fn named<'a>(t: &'a Typed, variables: &[Var], n: u32) -> &'a [u8]
    requires { are_named t.now variables.now ≡ true }
    ensures is { result.now ≡ named_in (names_in t.now variables.now) n }
    ensures word { list_all is_word_byte result.now ≡ true }
{
    match variables.get(n as usize) {
        Some(variable) => t.text(variable.name),
        None => &[],
    }
}

impl<'a> BodyNames<'a> {
    /// The names of a method's body: `fields` are those of its struct.
    pub fn new(
        alloc: Global,
        t: &'a Typed,
        fields: &'a [Var],
        args: &'a [Var],
        locals: &'a [Var],
    ) -> BodyNames<'a>
        requires { Scoped t.now fields.now args.now locals.now }
        ensures { result ≡ record { nodes = t.now; names = record { fields = names_in t.now fields.now; args = names_in t.now args.now; locals = names_in t.now locals.now } } }
    {
        BodyNames {
            alloc,
            t,
            fields,
            args,
            locals,
        }
    }

    /// The package.
    pub fn typed(&self) -> &Typed
        ensures same { result.now ≡ self.now.nodes }
        ensures kept { IsTyped self.now.nodes }
    {
        self.t
    }

    /// Where memory comes from.
    pub fn alloc(&self) -> Global {
        self.alloc
    }

    /// A local that is no slice.
    pub fn local(&self, u: &mut Unit, n: u32) -> Result<CExprId, NoMemory>
        ensures grows { Grows u.old u.new }
        ensures made { IfOk result (λ it. HasExpr u.new it.0 (c.variable (name_of_local self.now.names n))) }
    {
        spelt_variable(u, b"v_", named(self.t, self.locals, n))
    }

    /// The pointer of a local slice.
    pub fn local_pointer(&self, u: &mut Unit, n: u32) -> Result<CExprId, NoMemory>
        ensures grows { Grows u.old u.new }
        ensures made { IfOk result (λ it. HasExpr u.new it.0 (c.variable (local_pointer self.now.names n))) }
    {
        spelt_variable(u, b"vp_", named(self.t, self.locals, n))
    }

    /// The length of a local slice.
    pub fn local_length(&self, u: &mut Unit, n: u32) -> Result<CExprId, NoMemory>
        ensures grows { Grows u.old u.new }
        ensures made { IfOk result (λ it. HasExpr u.new it.0 (c.variable (local_length self.now.names n))) }
    {
        spelt_variable(u, b"vl_", named(self.t, self.locals, n))
    }

    /// An argument that is no slice: of a reader or a writer the buffer.
    pub fn arg(&self, u: &mut Unit, n: u32) -> Result<CExprId, NoMemory>
        ensures grows { Grows u.old u.new }
        ensures made { IfOk result (λ it. HasExpr u.new it.0 (c.variable (arg_name self.now.names n))) }
    {
        spelt_variable(u, b"a_", named(self.t, self.args, n))
    }

    /// The pointer of a slice that is an argument.
    pub fn arg_pointer(&self, u: &mut Unit, n: u32) -> Result<CExprId, NoMemory>
        ensures grows { Grows u.old u.new }
        ensures made { IfOk result (λ it. HasExpr u.new it.0 (c.variable (arg_pointer self.now.names n))) }
    {
        spelt_variable(u, b"ap_", named(self.t, self.args, n))
    }

    /// The length of a slice that is an argument.
    pub fn arg_length(&self, u: &mut Unit, n: u32) -> Result<CExprId, NoMemory>
        ensures grows { Grows u.old u.new }
        ensures made { IfOk result (λ it. HasExpr u.new it.0 (c.variable (arg_length self.now.names n))) }
    {
        spelt_variable(u, b"al_", named(self.t, self.args, n))
    }

    /// The place in a reader or a writer.
    pub fn place(&self, u: &mut Unit, n: u32) -> Result<CExprId, NoMemory>
        ensures grows { Grows u.old u.new }
        ensures made { IfOk result (λ it. HasExpr u.new it.0 (place_code self.now.names n)) }
    {
        spelt_variable(u, b"p_", named(self.t, self.args, n))
    }

    /// The end of a reader's bytes or of a writer's room.
    pub fn end(&self, u: &mut Unit, n: u32) -> Result<CExprId, NoMemory>
        ensures grows { Grows u.old u.new }
        ensures made { IfOk result (λ it. HasExpr u.new it.0 (end_code self.now.names n)) }
    {
        spelt_variable(u, b"e_", named(self.t, self.args, n))
    }

    /// The pointer to a reader's or a writer's bytes.
    pub fn bytes(&self, u: &mut Unit, n: u32) -> Result<CExprId, NoMemory>
        ensures grows { Grows u.old u.new }
        ensures made { IfOk result (λ it. HasExpr u.new it.0 (bytes_code self.now.names n)) }
    {
        spelt_variable(u, b"b_", named(self.t, self.args, n))
    }

    /// The name in C of a field of the source.
    pub(crate) fn field_name(&self, u: &mut Unit, n: u32) -> Result<CNameId, NoMemory>
        ensures grows { Grows u.old u.new }
        ensures made { IfOk result (λ name. HasNamed u.new name.0 (name_of_field self.now.names n)) }
    {
        put_spelt(u, b"f_", named(self.t, self.fields, n))
    }

    /// A field of the receiver.
    pub fn field(&self, u: &mut Unit, n: u32) -> Result<CExprId, NoMemory>
        ensures grows { Grows u.old u.new }
        ensures made { IfOk result (λ it. HasExpr u.new it.0 (of_self_tree (name_of_field self.now.names n))) }
    {
        let name = self.field_name(u, n)?;
        member_of_self(u, name)
    }

    /// What a path that is no slice names.
    pub fn path(&self, u: &mut Unit, path: Path) -> Result<CExprId, NoMemory>
        ensures grows { Grows u.old u.new }
        ensures made { IfOk result (λ it. HasExpr u.new it.0 (path_code self.now.names (path_of path))) }
    {
        match path {
            Path::Local(n) => self.local(u, n),
            Path::Field(n) => self.field(u, n),
            Path::Arg(n) => self.arg(u, n),
        }
    }

    /// A member of a buffer.
    pub fn buffer_member(&self, u: &mut Unit, n: u32, name: &[u8]) -> Result<CExprId, NoMemory>
        requires { IsName name.now }
        ensures grows { Grows u.old u.new }
        ensures made { IfOk result (λ it. HasExpr u.new it.0 (c.member (io_code self.now.names n) name.now)) }
    {
        let buffer = self.arg(u, n)?;
        member(u, buffer, name)
    }
}
