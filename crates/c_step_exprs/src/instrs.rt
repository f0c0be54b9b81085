// The instructions that an expression is made of at loading. Names are numbers here: a parameter or local is a field of
// its function's object, a string is its object, and a function is its place among those of the text.

use c_meaning::cells::CellType;
use c_meaning::values::Number;
use c_text::COp;
use wf_num::CTy;

/// What puts a value on the stack.
#[derive(Clone, Copy)]
pub enum Put {
    /// A number.
    Number(Number),
    /// The pointer to the first byte of the string with this number.
    Text(usize),
    /// The pointer to a parameter or local of the function that is run.
    Local(usize),
    /// The value of a parameter or local.
    Fetch(usize),
}

/// What takes a value from the stack and puts another one.
#[derive(Clone, Copy)]
pub enum Turn {
    /// A pointer to an object becomes the one to its field.
    Field(usize),
    /// A pointer, which isn't null, stays.
    Place,
    /// A pointer becomes the value of the cell that it names.
    Load,
    /// A pointer to a cell that is there stays.
    Cell,
    /// A pointer to a field that holds an object becomes the pointer to that object.
    Inside,
    /// A value becomes 1 where it is 0 or null, else 0.
    Not,
    /// A number becomes the one whose bits are all the other ones.
    Complement,
    /// A value becomes what a cell of this type would hold.
    Cast(CellType),
    /// A value becomes 1 where it isn't 0 or null, else 0.
    Truth,
    /// A number becomes one of this type; a pointer stays.
    AsNumber(CTy),
    /// A number becomes a null pointer; a pointer stays.
    AsPointer,
}

/// What takes two values, the second one first, and puts another one.
#[derive(Clone, Copy)]
pub enum Join {
    /// An index, and a pointer to the first element: the pointer to the element.
    Element,
    /// What an operator gives that isn't `+`, `&&` or `||`.
    Operate(COp),
    /// The same of `+`; it is told whether the first value points to an object of a struct.
    Add(bool),
}

/// What takes a value and looks whether it is 0 or null.
#[derive(Clone, Copy)]
pub enum Test {
    /// Where it is, 0 is put, and instructions are passed over.
    And,
    /// Where it isn't, 1 is put, and instructions are passed over.
    Or,
    /// Where it is, instructions are passed over.
    Unless,
}

/// An instruction. Where what it does isn't defined the run of the expression ends.
#[derive(Clone, Copy)]
pub enum Instr {
    /// Puts a value.
    Put(Put),
    /// Takes a value and puts one.
    Turn(Turn),
    /// Takes two values and puts one.
    Join(Join),
    /// Takes a value, and may pass over so many instructions.
    Test(Test, usize),
    /// Passes over so many instructions.
    Skip(usize),
    /// Takes so many arguments, the last one first, and puts the value of a function of them.
    Call {
        /// The function.
        function: usize,
        /// How many arguments.
        count: usize,
    },
    /// What isn't defined.
    Stuck,
}
