// How the program ends.

ghost use Rattle.std.specs.Prelude.{◌≡◌};
ghost use Rattle.wf_tool.specs.Statuses.{status_of};

/// How the program ends; the exit statuses are 0 to 9 in this order.
#[derive(Clone, Copy, PartialEq, Eq)]
pub enum Ending {
    /// The command was done.
    Done,
    /// The package breaks a rule.
    Refused,
    /// The words are no command form.
    Usage,
    /// An input failed.
    InputFault,
    /// The output failed.
    OutputFault,
    /// The script breaks a rule.
    ScriptRefused,
    /// Memory was refused, and nothing was written.
    NoMemory,
    /// A call needs more turns than it was given.
    Turns,
    /// The C text is refused.
    TextRefused,
    /// A call of the C text isn't defined.
    Undefined,
}

impl Ending {
    /// The exit status of the program.
    pub fn status(&self) -> u8
        ensures { result ≡ status_of self.now }
    {
        match self {
            Ending::Done => 0,
            Ending::Refused => 1,
            Ending::Usage => 2,
            Ending::InputFault => 3,
            Ending::OutputFault => 4,
            Ending::ScriptRefused => 5,
            Ending::NoMemory => 6,
            Ending::Turns => 7,
            Ending::TextRefused => 8,
            Ending::Undefined => 9,
        }
    }
}
