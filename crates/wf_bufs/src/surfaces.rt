// The public surface of a package as a machine keeps it: what contracts see of it is plain data.

ghost use Rattle.std.specs.Prelude.{◌≡◌, option_map, option_copied};
ghost use Rattle.wf_base.specs.LawfulActions.{method_of, struct_numbered, method_numbered};
ghost use Rattle.wf_bufs.specs.SurfaceViews.{answer_kind_of, receiver_of};

use crate::calls::ReceiverDecl;
use std::marker::Model;
use wf_base::Width;
use wf_text::{MethodId, StructId};

/// The kind of an argument of a public method, its refinement left out.
#[derive(Clone, Copy, PartialEq, Eq)]
pub enum ArgKind {
    Number(Width),
    Flag,
    Reader,
    Writer,
    Slice(Width),
}

/// What a public method answers.
#[derive(Clone, Copy, PartialEq, Eq)]
pub enum AnswerKind {
    Status,
    Number(Width),
    Flag,
    Nothing,
}

/// An argument of a public method. Its name is in bytes, as all names here.
#[derive(Drop)]
pub struct ArgDecl {
    pub name: Vec<u8>,
    pub kind: ArgKind,
}

impl Model for ArgDecl {
    ghost use Rattle.wf_text.specs.Surface.{PublicArg};
    ghost use Rattle.wf_bufs.specs.SurfaceViews.{arg_kind_of};

    ghost Value = { PublicArg };

    ghost view = { λ arg. record { name = arg.name.items; kind = arg_kind_of arg.kind } };
}

/// A public method of a public struct, with its arguments in declared order.
#[derive(Drop)]
pub struct MethodDecl {
    pub number: MethodId,
    pub name: Vec<u8>,
    pub args: Vec<ArgDecl>,
    pub answers: AnswerKind,
}

impl Model for MethodDecl {
    ghost use Rattle.wf_text.specs.Surface.{PublicMethod};
    ghost use Rattle.wf_bufs.specs.SurfaceViews.{answer_kind_of};

    ghost Value = { PublicMethod };

    ghost view = { λ method. record { number = method.number.0; name = method.name.items; args = method.args.items; answers = answer_kind_of method.answers } };
}

/// A public struct with its public methods.
#[derive(Drop)]
pub struct StructDecl {
    pub number: StructId,
    pub name: Vec<u8>,
    pub methods: Vec<MethodDecl>,
}

impl Model for StructDecl {
    ghost use Rattle.wf_text.specs.Surface.{PublicStruct};

    ghost Value = { PublicStruct };

    ghost view = { λ it. record { number = it.number.0; name = it.name.items; methods = it.methods.items } };
}

/// The public surface of a package. `statuses` has the text of each status by number, that of ok, which is
/// empty, and those of the base statuses included.
pub struct PublicSurface {
    pub package_name: Vec<u8>,
    pub statuses: Vec<Vec<u8>>,
    pub structs: Vec<StructDecl>,
}

impl Drop for PublicSurface {
    fn drop(self) {
        let PublicSurface {
            package_name: _,
            statuses: _,
            structs: _,
        } = self;
    }
}

impl Model for PublicSurface {
    ghost use Rattle.std.specs.Prelude.{map, vec_items};
    ghost use Rattle.wf_text.specs.Surface.{Surface};

    ghost Value = { Surface };

    ghost view = { λ it. record { package_name = it.package_name.items; statuses = map vec_items it.statuses.items; structs = it.structs.items } };
}

impl PublicSurface {
    /// What the public method with this number of the receiver's struct answers; None exactly where the struct
    /// has no such method.
    pub(crate) fn answers(&self, receiver: ReceiverDecl, method: MethodId) -> Option<AnswerKind>
        ensures { option_map answer_kind_of result ≡ option_map (λ it. it.answers) (method_of self.now method.0 (receiver_of receiver)) }
    {
        self.structure(receiver.of)?.answers(method)
    }

    // The public struct with this number.
    fn structure(&self, of: StructId) -> Option<&StructDecl>
        ensures { option_copied result ≡ struct_numbered self.now of.0 }
    {
        self.structs.iter().find(|it| it.number == of)
    }
}

impl StructDecl {
    fn answers(&self, method: MethodId) -> Option<AnswerKind>
        ensures { option_map answer_kind_of result ≡ option_map (λ it. it.answers) (method_numbered method.0 self.now) }
    {
        let found = self.methods.iter().find(|it| it.number == method)?;
        Some(found.answers)
    }
}
