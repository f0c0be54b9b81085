// What stands round the parts of a package, and the places where types are written.

ghost use Rattle.std.specs.Prelude.{◌≡◌};

use crate::meanings::{Constant, MethodType};
use std::marker::Model;
use wf_ast::{Sequence, Ty};
use wf_base::Mark;

/// What stands round an expression: the constants that it knows, the types of the receiver's fields, of the arguments
/// and of the locals, the package's methods and the texts of all statuses, by number; and the mark and the written
/// result of its method. What breaks a rule is absent.
pub struct Setting {
    pub constants: Sequence<Option<Constant>>,
    pub fields: Sequence<Option<Ty>>,
    pub args: Sequence<Option<Ty>>,
    pub locals: Sequence<Option<Ty>>,
    pub methods: Sequence<MethodType>,
    pub statuses: Sequence<Sequence<u8>>,
    pub mark: Mark,
    pub gives: Option<Option<Ty>>,
}

impl Drop for Setting {
    fn drop(self) {
        let Setting {
            constants: _,
            fields: _,
            args: _,
            locals: _,
            methods: _,
            statuses: _,
            mark: _,
            gives: _,
        } = self;
    }
}

/// The same, lent by those who know it.
#[derive(Drop)]
pub struct Around<'a> {
    constants: &'a [Option<Constant>],
    fields: &'a [Option<Ty>],
    args: &'a [Option<Ty>],
    locals: &'a [Option<Ty>],
    methods: &'a [MethodType],
    statuses: &'a [Sequence<u8>],
    mark: Mark,
    gives: Option<Option<Ty>>,
}

impl<'a> Model for Around<'a> {
    ghost use Rattle.wf_types_rules.specs.declared.settings.Setting.{Setting};

    ghost Value = { Setting };

    ghost view = { λ a. record { constants = a.constants.now; fields = a.fields.now; args = a.args.now; locals = a.locals.now; methods = a.methods.now; statuses = a.statuses.now; mark = a.mark; gives = a.gives } };
}

impl<'a> Around<'a> {
    /// The constants that are known, by number.
    pub fn constants(&self) -> &[Option<Constant>]
        ensures { result.now ≡ self.now.constants }
    {
        self.constants
    }

    /// The types of the receiver's fields, by number.
    pub fn fields(&self) -> &[Option<Ty>]
        ensures { result.now ≡ self.now.fields }
    {
        self.fields
    }

    /// The types of the arguments, by number.
    pub fn args(&self) -> &[Option<Ty>]
        ensures { result.now ≡ self.now.args }
    {
        self.args
    }

    /// The types of the locals, by number.
    pub fn locals(&self) -> &[Option<Ty>]
        ensures { result.now ≡ self.now.locals }
    {
        self.locals
    }

    /// The methods of the package, by number.
    pub fn methods(&self) -> &[MethodType]
        ensures { result.now ≡ self.now.methods }
    {
        self.methods
    }

    /// The texts of all statuses, by number.
    pub fn statuses(&self) -> &[Sequence<u8>]
        ensures { result.now ≡ self.now.statuses }
    {
        self.statuses
    }

    /// The mark of the method.
    pub fn mark(&self) -> Mark
        ensures { result ≡ self.now.mark }
    {
        self.mark
    }

    /// The written result of the method.
    pub fn gives(&self) -> Option<Option<Ty>>
        ensures { result ≡ self.now.gives }
    {
        self.gives
    }
}

impl Setting {
    /// All of it, lent.
    pub fn lent(&self) -> Around<'_>
        ensures { result ≡ self.now }
    {
        Around {
            constants: self.constants.as_slice(),
            fields: self.fields.as_slice(),
            args: self.args.as_slice(),
            locals: self.locals.as_slice(),
            methods: self.methods.as_slice(),
            statuses: self.statuses.as_slice(),
            mark: self.mark,
            gives: self.gives,
        }
    }

    /// The same in the body of a method with this mark and result, whose receiver, arguments and locals have these types.
    pub fn in_body<'a>(
        &'a self,
        fields: &'a [Option<Ty>],
        args: &'a [Option<Ty>],
        locals: &'a [Option<Ty>],
        mark: Mark,
        gives: Option<Option<Ty>>,
    ) -> Around<'a>
        ensures { result ≡ record self.now { fields = fields.now; args = args.now; locals = locals.now; mark = mark; gives = gives } }
    {
        Around {
            constants: self.constants.as_slice(),
            fields,
            args,
            locals,
            methods: self.methods.as_slice(),
            statuses: self.statuses.as_slice(),
            mark,
            gives,
        }
    }
}

/// The form of a type that is written: what kind of type it is, whatever its bounds, its length and its elements are.
#[derive(Clone, Copy)]
pub enum Form {
    Number,
    Flag,
    Status,
    Reader,
    Writer,
    Struct,
    Slice,
    Array,
}

/// Where a type is written.
#[derive(Clone, Copy, PartialEq, Eq)]
pub enum Role {
    Const,
    Field,
    Arg,
    Local,
    /// At the result of a method with this mark.
    Result(Mark),
    /// After `as`.
    Conversion,
}
