// What the grammar's machine wants: symbols that read tokens, and actions that make trees of what was read.

use wf_ast::parsed::{Clause, Name, WrittenMark};
use wf_ast::{Op, TextId};
use wf_text::Place;

/// A part of the grammar, or what is left of one after its first tokens.
#[derive(Clone, Copy)]
pub enum Sym {
    File,
    /// After `pub` or `pri`.
    Decl,
    /// `[ mark ] "(" fields ")"`
    FieldsMark,
    /// `"(" fields ")"`
    FieldsOpen,
    /// `fields ")"`
    Fields,
    /// After a field: what follows it, up to the `)`.
    MoreFields,
    /// `[ "+" "(" fields ")" ]`
    OtherFields,
    /// `[ type ] block`, of a method.
    MethodTail,
    /// A method's block.
    Body,
    WholeType,
    /// `"[" expr "]"`
    ArrayLength,
    /// After `base` and `.` in a type.
    BaseName,
    /// `[ "[" [ expr ] "..=" expr "]" ]`
    BoundsPart,
    /// The same, after its `[`.
    Low,
    /// The statements of a method and its `}`.
    Vars,
    /// After a `var`: what follows it, up to the `}`.
    MoreVars,
    Block,
    /// The statements of a block and its `}`.
    Items,
    /// After a statement: what follows it, up to the `}`.
    MoreItems,
    /// A statement that began with a path.
    PathStmt,
    /// A statement that began with `this . NAME`.
    ThisStmt,
    /// A statement that began with an element.
    TargetStmt,
    Call,
    /// A call that began with `this . NAME`.
    CallThis,
    /// `mark "(" givens ")"`
    CallMark,
    /// `{ "else" "if" expr block } [ "else" block ]`
    Else,
    /// The same, after an `else`.
    ElseTail,
    /// After `while`.
    WhileHead,
    /// After `while .`.
    LabelHead,
    /// `{ "," clause expr } [ "," ] block`
    Clauses,
    /// The same, after a `,`.
    ClauseTail,
    /// `[ "endwhile" ]`
    EndPart,
    /// `endwhile .` and this name.
    EndLabel(TextId),
    /// This name.
    Label(TextId),
    /// `[ "." NAME ]`
    LabelPart,
    /// `[ expr | "nothing" ]`
    Result,
    /// `[ "via" TEXT "(" givens ")" ]`
    Via,
    Expr,
    /// What may follow the first operand.
    Rest,
    /// What may follow an operand of a chain.
    Links(Op),
    /// After a whole operation.
    End,
    Operand,
    Atom,
    /// An atom that began with a path.
    PathAtom,
    /// An atom that began with `this . NAME`.
    ThisAtom,
    /// An index or a slice, after its `[`.
    Cut,
    /// The same, after its first expression.
    CutTail,
    /// The same, after its `..`.
    CutEnd,
    /// `[ mark ] "(" givens ")"`
    CallOpen,
    /// `"(" givens ")"`
    GivensOpen,
    /// `givens ")"`
    Givens,
    /// After an argument: what follows it, up to the `)`.
    MoreGivens,
    AName,
    AText,
    ADot,
    AColon,
    ASemicolon,
    AnEquals,
    AQuestion,
    ADotsEquals,
    RightRound,
    RightSquare,
}

/// What is made of the values read so far. Each names the values that it takes, the topmost first.
#[derive(Clone, Copy)]
pub enum Action {
    // what a token says, as it stands
    PushName(Name),
    PushPlace(Place),
    PushMark(WrittenMark),
    /// Whether a declaration is `pub`.
    PushPublic(bool),
    /// `=`, or an operator before it.
    PushSign { op: Option<Op>, at: Place },

    // paths and what a call is made on
    BarePath(Name),
    /// A name, and the place of its `this`.
    ThisPath,
    /// A name, and the place of its `args`.
    ArgsPath,
    /// A path.
    PathReceiver,
    /// A method's name, and the place of the `this` before it.
    ThisMethod,

    // expressions
    NumberExpr { value: u64, at: Place },
    OwnStatusExpr(Name),
    /// A text, and the place of `base`.
    BaseStatusExpr,
    FineExpr(Place),
    TruthExpr { value: bool, at: Place },
    /// A path.
    PathExpr,
    /// An expression, the place of `[`, a path.
    IndexExpr,
    /// Two parts, the place of `[`, a path.
    SliceExpr,
    /// A call.
    CallExpr,
    /// An expression, the place of `not`.
    NotExpr,
    /// A type, the place of `as`, an expression.
    ConvertExpr,
    /// An expression: the first operand.
    StartChain { op: Op, at: Place },
    /// An operand, the place of its sign, a chain.
    AddLink,
    /// A chain.
    FinishChain,
    NoPart,
    /// An expression.
    SomePart,

    // calls
    StartGivens,
    /// An expression, a name, arguments.
    AddGiven,
    /// Arguments, a mark, the method's name, what it is called on.
    FinishCall,

    // types
    StartType,
    /// Prefixes of a type.
    AddSlice(Place),
    /// An expression, the place of `array`, prefixes.
    AddArray,
    /// Prefixes.
    StructType(Name),
    /// The place of `base`.
    BaseCore(Name),
    /// The place of `base`.
    StatusCore,
    NoBounds,
    /// An expression, a part.
    SomeBounds,
    /// Bounds, a core, prefixes.
    FinishType,

    // statements
    StartItems,
    /// A statement, those before it.
    AddStmt,
    /// The statements of a block.
    CloseBlock(Place),
    /// A type, a name, the place of `var`.
    VarStmt,
    /// A path.
    PathTarget,
    /// An expression, the place of `[`, a path.
    ElementTarget,
    /// An expression, a sign, a target, the statement's place.
    AssignStmt,
    /// A call, a target, the statement's place.
    KeepStmt,
    /// A call, the statement's place.
    CallStmt,
    StartArms,
    /// A block, an expression, the arms before it.
    AddArm,
    NoElse,
    /// A block.
    SomeElse,
    /// What stands after `else`, the arms, the statement's place.
    IfStmt,
    StartClauses,
    /// An expression, the place of the clause's word, the clauses before it.
    AddClause(Clause),
    /// A block, clauses, an expression, the statement's place.
    LoopStmt,
    /// The same with a name, the label, before the expression.
    LabelledStmt,
    NoLabel,
    /// A name.
    SomeLabel,
    /// A label, the statement's place.
    BreakStmt,
    /// A label, the statement's place.
    ContinueStmt,
    /// A part, the statement's place.
    ReturnStmt,
    /// An expression, the statement's place.
    YieldStmt,
    NoVia,
    /// Arguments, a text.
    SomeVia,
    /// What stands after `via`, an expression, the statement's place.
    AssertStmt,

    // declarations
    StartFields,
    /// A type, a name, the fields before it.
    AddField,
    /// Prefixes of a type that isn't there.
    NoResult,
    /// A type.
    SomeResult,
    /// A text, the place of `status`, whether it is public.
    StatusDecl,
    /// An expression, a type, a name, the place of `const`, whether it is public.
    ConstDecl,
    /// Fields, a mark, a name, the place of `struct`, whether it is public.
    StructDecl,
    /// A block, a result, fields, a mark, two names, the place of `func`, whether it is public.
    MethodDecl,
}

/// What stands on the machine's stack.
#[derive(Clone, Copy)]
pub enum Want {
    /// Tokens of this part are read.
    Read(Sym),
    /// This is made before the next token is looked at.
    Make(Action),
}
