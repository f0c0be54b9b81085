// What a token does to the symbol on top of the machine's stack.

ghost use Rattle.std.specs.Prelude.{◌≡◌, []};
ghost use Rattle.wf_parse_grammar.specs.declared.builds.Build.{Build};
ghost use Rattle.wf_parse_grammar.specs.declared.builds.Build.TheVariants.{Take, Enter};
ghost use Rattle.wf_parse_grammar.specs.Building.{or_pass};

use crate::symbols::Want;
use crate::wants::Wants;
use wf_text::Rule;

/// What a token does to the symbol on top of the stack.
#[derive(Drop)]
pub enum Build {
    /// It is read, and in place of the symbol these are wanted.
    Take(Wants),
    /// The same, and it begins a statement.
    Begin(Wants),
    /// The same, and it begins the block of a method.
    Enter(Wants),
    /// The symbol is left out: the token is for what stands below.
    Pass,
    /// No list goes on so.
    Stop(Rule),
}

impl Build {
    /// The token is read, and these are wanted in place of the symbol.
    pub(crate) fn take(wants: &'static [Want]) -> Build
        ensures { result ≡ Take wants.now }
    {
        Build::Take(Wants::of(wants, &[]))
    }

    /// The same, where the token begins the block of a method.
    pub(crate) fn enter(wants: &'static [Want]) -> Build
        ensures { result ≡ Enter wants.now }
    {
        Build::Enter(Wants::of(wants, &[]))
    }

    /// The token is read, and nothing is wanted in place of the symbol.
    pub(crate) fn done() -> Build
        ensures { result ≡ Take [] }
    {
        Build::Take(Wants::of(&[], &[]))
    }

    /// The move where the symbol may be absent: a token that would be refused is for what stands below.
    pub(crate) fn or_pass(self) -> Build
        ensures { result ≡ or_pass self }
    {
        match self {
            Build::Stop(_) => Build::Pass,
            build => build,
        }
    }
}
