// The machine of the grammar: what is wanted stands on a stack, and each token is looked up in the table for the
// topmost of it.

ghost use Rattle.std.specs.Prelude.{◌≡◌, ◌+◌, ◌<◌, ◌≤◌, ◌^◌, ◌⊎◌, ◌&&◌, if◌then◌else◌, [], ◌∷◌, drop, length, true, false, nat_le, IfOk, IfErr, IfSome, OnOk};
ghost use Rattle.wf_text.specs.declared.place.Place.{Place};
ghost use Rattle.wf_text.specs.declared.rules.Rule.TheVariants.{S5};
ghost use Rattle.wf_parse.specs.declared.machine.StepFault.TheVariants.{Refused, Memory};
ghost use Rattle.wf_parse_grammar.specs.declared.symbols.Action.TheVariants as does;
ghost use Rattle.wf_parse_grammar.specs.declared.symbols.Sym.TheVariants as syms;
ghost use Rattle.wf_parse_grammar.specs.declared.symbols.Want.TheVariants.{Make, Read};
ghost use Rattle.wf_parse_grammar.specs.declared.builds.Build.TheVariants as builds;
ghost use Rattle.wf_parse_grammar.specs.Building.{open_wants, build, skipped};
ghost use Rattle.wf_parse_grammar.specs.Machine.{may_end, opens};
ghost use Rattle.wf_parse_grammar.specs.Values.{perform};
ghost use Rattle.wf_parse_grammar.specs.Wanted.{led_by};
ghost use Rattle.wf_parse_nodes.specs.Makers.{nodes, IsSound, KeepsTexts, made};
ghost use Rattle.wf_parse.specs.Machines.{size, state_of, AnswersBuild, AnswersToken, AnswersEnd, KeepsAt, Wanted, want_owes};

use stacks::Stack;
use wf_ast::parsed::Name;
use wf_parse_grammar::table::{build, may_end, opens, owes, skips};
use wf_parse_grammar::{Action, Build, Kind, Lead, Sym, Token, Want, Wants};
use wf_parse_nodes::Maker;
use wf_text::{NoMemory, Rule};

/// Why the machine stops.
#[derive(Clone, Copy)]
pub(crate) enum StepFault {
    /// The token breaks a rule.
    Refused(Rule),
    /// Memory was refused.
    Memory,
}

impl From<NoMemory> for StepFault {
    ghost from_gives = { λ _ fault. fault ≡ Memory };

    fn from(_refused: NoMemory) -> StepFault {
        StepFault::Memory
    }
}

/// How many brackets may be open.
const MOST_BRACKETS: usize = 48;

/// How many statements a method may have.
const MOST_STATEMENTS: u32 = 4096;

/// The machine. `room` is the number of statements that the method in hand may still begin.
#[derive(Drop)]
pub(crate) struct Machine {
    pub maker: Maker,
    pub wants: Stack<Want>,
    pub room: u32,
}

/// Whether a closing bracket is owed.
fn want_owes(want: &Want) -> bool
    ensures { result ≡ want_owes want.now }
{
    match want {
        Want::Read(symbol) => owes(*symbol),
        Want::Make(_) => false,
    }
}

/// How many closing brackets are owed at this place of the stack: one or none.
fn owed_at(wants: &Stack<Want>, depth: usize) -> usize
    requires { depth < length wants.now }
    ensures few { result ≤ 1 }
    ensures counted { result + open_wants (drop (depth + 1) wants.now) ≡ open_wants (drop depth wants.now) }
{
    if want_owes(wants.at(depth)) { 1 } else { 0 }
}

/// How many brackets are open.
fn open_brackets(wants: &Stack<Want>) -> usize
    ensures open { result ≡ open_wants wants.now }
    ensures few { result ≤ length wants.now }
{
    let len = wants.len();
    let mut open: usize = 0;
    let mut depth: usize = 0;
    while depth < len {
        open += owed_at(wants, depth);
        depth += 1;
    }
    open
}

/// What the table says to a token by which nothing is wanted in place of the symbol: true where the token is taken, false
/// where it is left to what stands below. None where the table has to be asked, as it is for most of the rare ones.
fn answer_at_once(symbol: Sym, kind: Kind) -> Option<bool>
    ensures build { IfSome result (λ taken. (at : Place) → build symbol kind at ≡ (if taken then builds.Take [] else builds.Pass)) }
    ensures closed { IfSome result (λ taken. (taken && opens kind) ≡ false) }
{
    match kind {
        Kind::Dot => match symbol {
            Sym::ADot => Some(true),
            _ => None,
        },
        Kind::Colon => match symbol {
            Sym::AColon => Some(true),
            _ => None,
        },
        Kind::Equals => match symbol {
            Sym::AnEquals => Some(true),
            Sym::BoundsPart => Some(false),
            _ => None,
        },
        Kind::Semicolon => match symbol {
            Sym::ASemicolon => Some(true),
            Sym::Rest
            | Sym::End
            | Sym::Links(_)
            | Sym::PathAtom
            | Sym::ThisAtom
            | Sym::BoundsPart
            | Sym::Else => Some(false),
            _ => None,
        },
        Kind::CloseRound => match symbol {
            Sym::RightRound | Sym::Fields | Sym::MoreFields | Sym::Givens | Sym::MoreGivens => Some(
                true,
            ),
            Sym::Rest
            | Sym::End
            | Sym::Links(_)
            | Sym::PathAtom
            | Sym::ThisAtom
            | Sym::BoundsPart => Some(false),
            _ => None,
        },
        Kind::CloseSquare => match symbol {
            Sym::RightSquare => Some(true),
            Sym::Rest | Sym::End | Sym::Links(_) | Sym::PathAtom | Sym::ThisAtom => Some(false),
            _ => None,
        },
        Kind::Comma | Kind::OpenCurly | Kind::CloseCurly => match symbol {
            Sym::Rest
            | Sym::End
            | Sym::Links(_)
            | Sym::PathAtom
            | Sym::ThisAtom
            | Sym::BoundsPart => Some(false),
            _ => None,
        },
        Kind::Chain(_) | Kind::Binary(_) => match symbol {
            Sym::PathAtom | Sym::ThisAtom => Some(false),
            _ => None,
        },
        _ => None,
    }
}

impl Machine {
    /// Whether so many brackets are open that no further one may be opened, where `symbol` stands on the top.
    fn is_deep(&self, symbol: Sym) -> bool
        requires { size self.now < 2 ^ 32 }
        ensures { result ≡ nat_le 48 (open_wants (Read symbol ∷ self.now.wants)) }
    {
        // At most one bracket is open for each wanted thing, so they are only counted on a high stack.
        if self.wants.len() + 1 < MOST_BRACKETS {
            return false;
        }
        let below = open_brackets(&self.wants);
        let open = if owes(symbol) { below + 1 } else { below };
        MOST_BRACKETS <= open
    }

    /// The token is taken: what stands before these wanted things is made, and the rest is wanted.
    fn want(&mut self, wants: &Wants) -> Result<bool, StepFault>
        requires sound { IsSound self.old.maker }
        requires few { length wants.now ≤ 12 }
        requires size { size self.old + 32 < 2 ^ 32 }
        ensures ok { IfOk result (λ taken. taken ≡ true) }
        ensures err { IfErr result (λ stop. stop ≡ Memory) }
        ensures wanted { OnOk result (Wanted wants.now (state_of self.old) (state_of self.new)) }
        ensures room { self.new.room ≡ self.old.room }
        ensures sound { OnOk result (IsSound self.new.maker) }
        ensures texts { OnOk result (KeepsTexts self.old.maker.package self.new.maker.package) }
        ensures size { OnOk result (size self.new ≤ size self.old + 32) }
    {
        let lead = wants.push_on(&mut self.wants)?;
        self.maker.perform_lead(lead)?;
        Ok(true)
    }

    /// A token is taken that begins no statement and no method.
    fn take(
        &mut self,
        limited: bool,
        symbol: Sym,
        token: Token,
        wants: &Wants,
    ) -> Result<bool, StepFault>
        requires sound { IsSound self.old.maker }
        requires few { length wants.now ≤ 12 }
        requires size { size self.old + 32 < 2 ^ 32 }
        ensures answers { AnswersBuild limited symbol token (builds.Take wants.now) (state_of self.old) (state_of self.new) result }
        ensures ok { IfOk result (λ taken. taken ≡ true) }
        ensures sound { OnOk result (IsSound self.new.maker) }
        ensures texts { OnOk result (KeepsTexts self.old.maker.package self.new.maker.package) }
        ensures refused { IfErr result (λ stop. KeepsAt stop self.old.maker.package self.new.maker.package) }
        ensures size { OnOk result (size self.new ≤ size self.old + 32) }
    {
        if limited && opens(token.kind) && self.is_deep(symbol) {
            return Err(StepFault::Refused(Rule::L4));
        }
        self.want(wants)
    }

    /// A token is taken that begins a statement.
    fn begin(
        &mut self,
        limited: bool,
        symbol: Sym,
        token: Token,
        wants: &Wants,
    ) -> Result<bool, StepFault>
        requires size { size self.old + 32 < 2 ^ 32 }
        requires sound { IsSound self.old.maker }
        requires few { length wants.now ≤ 12 }
        ensures answers { AnswersBuild limited symbol token (builds.Begin wants.now) (state_of self.old) (state_of self.new) result }
        ensures ok { IfOk result (λ taken. taken ≡ true) }
        ensures sound { OnOk result (IsSound self.new.maker) }
        ensures texts { OnOk result (KeepsTexts self.old.maker.package self.new.maker.package) }
        ensures refused { IfErr result (λ stop. KeepsAt stop self.old.maker.package self.new.maker.package) }
        ensures size { OnOk result (size self.new ≤ size self.old + 32) }
    {
        if limited && self.room == 0 {
            return Err(StepFault::Refused(Rule::L5));
        }
        self.room = self.room.saturating_sub(1);
        self.want(wants)
    }

    /// A token is taken that begins the block of a method.
    fn enter(
        &mut self,
        limited: bool,
        symbol: Sym,
        token: Token,
        wants: &Wants,
    ) -> Result<bool, StepFault>
        requires few { length wants.now ≤ 12 }
        requires sound { IsSound self.old.maker }
        requires size { size self.old + 32 < 2 ^ 32 }
        ensures answers { AnswersBuild limited symbol token (builds.Enter wants.now) (state_of self.old) (state_of self.new) result }
        ensures ok { IfOk result (λ taken. taken ≡ true) }
        ensures sound { OnOk result (IsSound self.new.maker) }
        ensures texts { OnOk result (KeepsTexts self.old.maker.package self.new.maker.package) }
        ensures refused { IfErr result (λ stop. KeepsAt stop self.old.maker.package self.new.maker.package) }
        ensures size { OnOk result (size self.new ≤ size self.old + 32) }
    {
        if limited && self.is_deep(symbol) {
            return Err(StepFault::Refused(Rule::L4));
        }
        self.room = MOST_STATEMENTS;
        self.want(wants)
    }

    /// The symbol is left out.
    fn pass(&mut self, limited: bool, symbol: Sym, token: Token) -> Result<bool, StepFault>
        requires sound { IsSound self.old.maker }
        requires size { size self.old + 32 < 2 ^ 32 }
        ensures answers { AnswersBuild limited symbol token builds.Pass (state_of self.old) (state_of self.new) result }
        ensures sound { OnOk result (IsSound self.new.maker) }
        ensures texts { OnOk result (KeepsTexts self.old.maker.package self.new.maker.package) }
        ensures refused { IfErr result (λ stop. KeepsAt stop self.old.maker.package self.new.maker.package) }
        ensures passed { IfOk result (λ taken. taken ≡ false) }
        ensures same { self.new.wants ≡ self.old.wants }
        ensures grows { OnOk result (nodes self.new.maker ≤ nodes self.old.maker + 2) }
    {
        self.maker.perform_all(skips(symbol))?;
        Ok(false)
    }

    /// What the table says to the token where `symbol` stood on the top, by a list of what is wanted in its place: true
    /// where the token is taken, false where it is left to what stands below.
    #[inline(never)]
    fn read_list(&mut self, limited: bool, symbol: Sym, token: Token) -> Result<bool, StepFault>
        requires sound { IsSound self.old.maker }
        requires size { size self.old + 32 < 2 ^ 32 }
        ensures answers { AnswersBuild limited symbol token (build symbol token.kind token.at) (state_of self.old) (state_of self.new) result }
        ensures sound { OnOk result (IsSound self.new.maker) }
        ensures texts { OnOk result (KeepsTexts self.old.maker.package self.new.maker.package) }
        ensures refused { IfErr result (λ stop. KeepsAt stop self.old.maker.package self.new.maker.package) }
        ensures below { IfOk result (λ taken. taken ≡ false → self.new.wants ≡ self.old.wants) }
        ensures size { IfOk result (λ taken. size self.new ≤ size self.old + (if taken then 32 else 2)) }
    {
        let built = build(symbol, token);
        match &built {
            Build::Take(wants) => self.take(limited, symbol, token, wants),
            Build::Begin(wants) => self.begin(limited, symbol, token, wants),
            Build::Enter(wants) => self.enter(limited, symbol, token, wants),
            Build::Pass => self.pass(limited, symbol, token),
            Build::Stop(rule) => Err(StepFault::Refused(*rule)),
        }
    }

    /// A token is taken: what `lead` says is made of it, and these things are wanted then.
    fn want_led(&mut self, lead: Lead, wants: &[Want]) -> Result<bool, StepFault>
        requires sound { IsSound self.old.maker }
        requires few { length (led_by lead wants.now) ≤ 12 }
        requires size { size self.old + 32 < 2 ^ 32 }
        ensures ok { IfOk result (λ taken. taken ≡ true) }
        ensures err { IfErr result (λ stop. stop ≡ Memory) }
        ensures wanted { OnOk result (Wanted (led_by lead wants.now) (state_of self.old) (state_of self.new)) }
        ensures room { self.new.room ≡ self.old.room }
        ensures sound { OnOk result (IsSound self.new.maker) }
        ensures texts { OnOk result (KeepsTexts self.old.maker.package self.new.maker.package) }
        ensures size { OnOk result (size self.new ≤ size self.old + 32) }
    {
        self.wants.push_all(wants)?;
        self.maker.perform_lead(lead)?;
        Ok(true)
    }

    /// The same, where a bracket that is one too many is refused.
    fn take_led(
        &mut self,
        limited: bool,
        symbol: Sym,
        token: Token,
        lead: Lead,
        wants: &[Want],
    ) -> Result<bool, StepFault>
        requires sound { IsSound self.old.maker }
        requires few { length (led_by lead wants.now) ≤ 12 }
        requires size { size self.old + 32 < 2 ^ 32 }
        ensures answers { AnswersBuild limited symbol token (builds.Take (led_by lead wants.now)) (state_of self.old) (state_of self.new) result }
        ensures ok { IfOk result (λ taken. taken ≡ true) }
        ensures sound { OnOk result (IsSound self.new.maker) }
        ensures texts { OnOk result (KeepsTexts self.old.maker.package self.new.maker.package) }
        ensures refused { IfErr result (λ stop. KeepsAt stop self.old.maker.package self.new.maker.package) }
        ensures size { OnOk result (size self.new ≤ size self.old + 32) }
    {
        if limited && opens(token.kind) && self.is_deep(symbol) {
            return Err(StepFault::Refused(Rule::L4));
        }
        self.want_led(lead, wants)
    }

    /// A name, where one is wanted.
    fn read_name(&mut self, limited: bool, token: Token) -> Result<bool, StepFault>
        requires sound { IsSound self.old.maker }
        requires size { size self.old + 32 < 2 ^ 32 }
        ensures answers { AnswersBuild limited syms.AName token (build syms.AName token.kind token.at) (state_of self.old) (state_of self.new) result }
        ensures sound { OnOk result (IsSound self.new.maker) }
        ensures texts { OnOk result (KeepsTexts self.old.maker.package self.new.maker.package) }
        ensures refused { IfErr result (λ stop. KeepsAt stop self.old.maker.package self.new.maker.package) }
        ensures below { IfOk result (λ taken. taken ≡ false → self.new.wants ≡ self.old.wants) }
        ensures size { IfOk result (λ taken. size self.new ≤ size self.old + (if taken then 32 else 2)) }
    {
        match token.kind {
            Kind::Name(text) => {
                let name = Name { text, at: token.at };
                self.take_led(
                    limited,
                    Sym::AName,
                    token,
                    Lead::One(Action::PushName(name)),
                    &[],
                )
            }
            _ => Err(StepFault::Refused(Rule::S5)),
        }
    }

    /// An operand. Most are a number, or begin with a name, `this`, `args` or a bracket.
    fn read_operand(&mut self, limited: bool, token: Token) -> Result<bool, StepFault>
        requires sound { IsSound self.old.maker }
        requires size { size self.old + 32 < 2 ^ 32 }
        ensures answers { AnswersBuild limited syms.Operand token (build syms.Operand token.kind token.at) (state_of self.old) (state_of self.new) result }
        ensures sound { OnOk result (IsSound self.new.maker) }
        ensures texts { OnOk result (KeepsTexts self.old.maker.package self.new.maker.package) }
        ensures refused { IfErr result (λ stop. KeepsAt stop self.old.maker.package self.new.maker.package) }
        ensures below { IfOk result (λ taken. taken ≡ false → self.new.wants ≡ self.old.wants) }
        ensures size { IfOk result (λ taken. size self.new ≤ size self.old + (if taken then 32 else 2)) }
    {
        let at = token.at;
        match token.kind {
            Kind::Number(value) => self.take_led(
                limited,
                Sym::Operand,
                token,
                Lead::One(Action::NumberExpr { value, at }),
                &[],
            ),
            Kind::Name(text) => self.take_led(
                limited,
                Sym::Operand,
                token,
                Lead::One(Action::BarePath(Name { text, at })),
                &[Want::Read(Sym::PathAtom)],
            ),
            Kind::OpenRound => self.take_led(
                limited,
                Sym::Operand,
                token,
                Lead::Empty,
                &[Want::Read(Sym::Expr), Want::Read(Sym::RightRound)],
            ),
            Kind::This => self.take_led(
                limited,
                Sym::Operand,
                token,
                Lead::One(Action::PushPlace(at)),
                &[
                    Want::Read(Sym::ADot),
                    Want::Read(Sym::AName),
                    Want::Read(Sym::ThisAtom),
                ],
            ),
            Kind::Args => self.take_led(
                limited,
                Sym::Operand,
                token,
                Lead::One(Action::PushPlace(at)),
                &[
                    Want::Read(Sym::ADot),
                    Want::Read(Sym::AName),
                    Want::Make(Action::ArgsPath),
                    Want::Read(Sym::PathAtom),
                ],
            ),
            _ => self.read_list(limited, Sym::Operand, token),
        }
    }

    /// An expression. Most begin with a number, a name, `this`, `args` or a bracket.
    fn read_expr(&mut self, limited: bool, token: Token) -> Result<bool, StepFault>
        requires sound { IsSound self.old.maker }
        requires size { size self.old + 32 < 2 ^ 32 }
        ensures answers { AnswersBuild limited syms.Expr token (build syms.Expr token.kind token.at) (state_of self.old) (state_of self.new) result }
        ensures sound { OnOk result (IsSound self.new.maker) }
        ensures texts { OnOk result (KeepsTexts self.old.maker.package self.new.maker.package) }
        ensures refused { IfErr result (λ stop. KeepsAt stop self.old.maker.package self.new.maker.package) }
        ensures below { IfOk result (λ taken. taken ≡ false → self.new.wants ≡ self.old.wants) }
        ensures size { IfOk result (λ taken. size self.new ≤ size self.old + (if taken then 32 else 2)) }
    {
        let at = token.at;
        match token.kind {
            Kind::Number(value) => self.take_led(
                limited,
                Sym::Expr,
                token,
                Lead::One(Action::NumberExpr { value, at }),
                &[Want::Read(Sym::Rest)],
            ),
            Kind::Name(text) => self.take_led(
                limited,
                Sym::Expr,
                token,
                Lead::One(Action::BarePath(Name { text, at })),
                &[Want::Read(Sym::PathAtom), Want::Read(Sym::Rest)],
            ),
            Kind::OpenRound => self.take_led(
                limited,
                Sym::Expr,
                token,
                Lead::Empty,
                &[
                    Want::Read(Sym::Expr),
                    Want::Read(Sym::RightRound),
                    Want::Read(Sym::Rest),
                ],
            ),
            Kind::This => self.take_led(
                limited,
                Sym::Expr,
                token,
                Lead::One(Action::PushPlace(at)),
                &[
                    Want::Read(Sym::ADot),
                    Want::Read(Sym::AName),
                    Want::Read(Sym::ThisAtom),
                    Want::Read(Sym::Rest),
                ],
            ),
            Kind::Args => self.take_led(
                limited,
                Sym::Expr,
                token,
                Lead::One(Action::PushPlace(at)),
                &[
                    Want::Read(Sym::ADot),
                    Want::Read(Sym::AName),
                    Want::Make(Action::ArgsPath),
                    Want::Read(Sym::PathAtom),
                    Want::Read(Sym::Rest),
                ],
            ),
            _ => self.read_list(limited, Sym::Expr, token),
        }
    }

    /// What may follow the first operand.
    fn read_rest(&mut self, limited: bool, token: Token) -> Result<bool, StepFault>
        requires sound { IsSound self.old.maker }
        requires size { size self.old + 32 < 2 ^ 32 }
        ensures answers { AnswersBuild limited syms.Rest token (build syms.Rest token.kind token.at) (state_of self.old) (state_of self.new) result }
        ensures sound { OnOk result (IsSound self.new.maker) }
        ensures texts { OnOk result (KeepsTexts self.old.maker.package self.new.maker.package) }
        ensures refused { IfErr result (λ stop. KeepsAt stop self.old.maker.package self.new.maker.package) }
        ensures below { IfOk result (λ taken. taken ≡ false → self.new.wants ≡ self.old.wants) }
        ensures size { IfOk result (λ taken. size self.new ≤ size self.old + (if taken then 32 else 2)) }
    {
        match token.kind {
            Kind::Binary(op) => self.take_led(
                limited,
                Sym::Rest,
                token,
                Lead::Chain { op, at: token.at },
                &[
                    Want::Read(Sym::Operand),
                    Want::Make(Action::AddLink),
                    Want::Make(Action::FinishChain),
                    Want::Read(Sym::End),
                ],
            ),
            Kind::Chain(op) => self.take_led(
                limited,
                Sym::Rest,
                token,
                Lead::Chain { op, at: token.at },
                &[
                    Want::Read(Sym::Operand),
                    Want::Make(Action::AddLink),
                    Want::Read(Sym::Links(op)),
                ],
            ),
            _ => self.read_symbol(limited, Sym::Rest, token),
        }
    }

    /// A statement, or the `}` of its block.
    fn read_items(&mut self, limited: bool, token: Token) -> Result<bool, StepFault>
        requires sound { IsSound self.old.maker }
        requires size { size self.old + 32 < 2 ^ 32 }
        ensures answers { AnswersBuild limited syms.Items token (build syms.Items token.kind token.at) (state_of self.old) (state_of self.new) result }
        ensures sound { OnOk result (IsSound self.new.maker) }
        ensures texts { OnOk result (KeepsTexts self.old.maker.package self.new.maker.package) }
        ensures refused { IfErr result (λ stop. KeepsAt stop self.old.maker.package self.new.maker.package) }
        ensures below { IfOk result (λ taken. taken ≡ false → self.new.wants ≡ self.old.wants) }
        ensures size { IfOk result (λ taken. size self.new ≤ size self.old + (if taken then 32 else 2)) }
    {
        match token.kind {
            Kind::CloseCurly => {
                let end = Action::CloseBlock(token.at);
                self.take_led(limited, Sym::Items, token, Lead::One(end), &[])
            }
            _ => self.read_list(limited, Sym::Items, token),
        }
    }

    /// What follows a statement.
    fn read_more_items(&mut self, limited: bool, token: Token) -> Result<bool, StepFault>
        requires sound { IsSound self.old.maker }
        requires size { size self.old + 32 < 2 ^ 32 }
        ensures answers { AnswersBuild limited syms.MoreItems token (build syms.MoreItems token.kind token.at) (state_of self.old) (state_of self.new) result }
        ensures sound { OnOk result (IsSound self.new.maker) }
        ensures texts { OnOk result (KeepsTexts self.old.maker.package self.new.maker.package) }
        ensures refused { IfErr result (λ stop. KeepsAt stop self.old.maker.package self.new.maker.package) }
        ensures below { IfOk result (λ taken. taken ≡ false → self.new.wants ≡ self.old.wants) }
        ensures size { IfOk result (λ taken. size self.new ≤ size self.old + (if taken then 32 else 2)) }
    {
        match token.kind {
            Kind::Semicolon => {
                let next = [Want::Read(Sym::Items)];
                self.take_led(limited, Sym::MoreItems, token, Lead::Empty, &next)
            }
            Kind::CloseCurly => {
                let end = Action::CloseBlock(token.at);
                self.take_led(limited, Sym::MoreItems, token, Lead::One(end), &[])
            }
            _ => Err(StepFault::Refused(Rule::S5)),
        }
    }

    /// What the table says to the token where `symbol` stood on the top: true where the token is taken, false where
    /// it is left to what stands below. What is one token and asks for nothing more needs no list.
    fn read_symbol(&mut self, limited: bool, symbol: Sym, token: Token) -> Result<bool, StepFault>
        requires sound { IsSound self.old.maker }
        requires size { size self.old + 32 < 2 ^ 32 }
        ensures answers { AnswersBuild limited symbol token (build symbol token.kind token.at) (state_of self.old) (state_of self.new) result }
        ensures sound { OnOk result (IsSound self.new.maker) }
        ensures texts { OnOk result (KeepsTexts self.old.maker.package self.new.maker.package) }
        ensures refused { IfErr result (λ stop. KeepsAt stop self.old.maker.package self.new.maker.package) }
        ensures below { IfOk result (λ taken. taken ≡ false → self.new.wants ≡ self.old.wants) }
        ensures size { IfOk result (λ taken. size self.new ≤ size self.old + (if taken then 32 else 2)) }
    {
        match answer_at_once(symbol, token.kind) {
            Some(true) => Ok(true),
            Some(false) => self.pass(limited, symbol, token),
            None => self.read_list(limited, symbol, token),
        }
    }

    /// What the table says to the token where `symbol` stood on the top: true where the token is taken, false where
    /// it is left to what stands below. Those that come most often have each a way of their own, on which no list is handed
    /// on.
    fn read(&mut self, limited: bool, symbol: Sym, token: Token) -> Result<bool, StepFault>
        requires sound { IsSound self.old.maker }
        requires size { size self.old + 32 < 2 ^ 32 }
        ensures answers { AnswersBuild limited symbol token (build symbol token.kind token.at) (state_of self.old) (state_of self.new) result }
        ensures sound { OnOk result (IsSound self.new.maker) }
        ensures texts { OnOk result (KeepsTexts self.old.maker.package self.new.maker.package) }
        ensures refused { IfErr result (λ stop. KeepsAt stop self.old.maker.package self.new.maker.package) }
        ensures below { IfOk result (λ taken. taken ≡ false → self.new.wants ≡ self.old.wants) }
        ensures size { IfOk result (λ taken. size self.new ≤ size self.old + (if taken then 32 else 2)) }
    {
        match symbol {
            Sym::AName => self.read_name(limited, token),
            Sym::Operand => self.read_operand(limited, token),
            Sym::Expr => self.read_expr(limited, token),
            Sym::Items => self.read_items(limited, token),
            Sym::MoreItems => self.read_more_items(limited, token),
            Sym::Rest => self.read_rest(limited, token),
            _ => self.read_symbol(limited, symbol, token),
        }
    }

    /// One token. `limited` tells whether brackets and statements have their limits. S5 or S6 where the token can't
    /// stand here, L4 at a bracket too many, L5 at a statement too many.
    pub(crate) fn step(&mut self, limited: bool, token: Token) -> Result<(), StepFault>
        requires sound { IsSound self.old.maker }
        requires size { size self.old + 32 < 2 ^ 32 }
        ensures answers { AnswersToken limited token (state_of self.old) (state_of self.new) result }
        ensures sound { OnOk result (IsSound self.new.maker) }
        ensures texts { OnOk result (KeepsTexts self.old.maker.package self.new.maker.package) }
        ensures refused { IfErr result (λ stop. KeepsAt stop self.old.maker.package self.new.maker.package) }
        ensures size { OnOk result (size self.new ≤ size self.old + 32) }
    {
        while let Some(want) = self.wants.pop() {
            match want {
                Want::Make(action) => self.make(action)?,
                Want::Read(symbol) => {
                    if self.read(limited, symbol, token)? {
                        return Ok(());
                    }
                }
            }
        }
        Err(StepFault::Refused(Rule::S5))
    }

    /// An action is performed.
    fn make(&mut self, action: Action) -> Result<(), StepFault>
        requires sound { IsSound self.old.maker }
        requires size { size self.old + 32 < 2 ^ 32 }
        ensures made { OnOk result (made self.new.maker ≡ perform action (made self.old.maker)) }
        ensures sound { OnOk result (IsSound self.new.maker) }
        ensures texts { OnOk result (KeepsTexts self.old.maker.package self.new.maker.package) }
        ensures room { self.new.room ≡ self.old.room }
        ensures wants { self.new.wants ≡ self.old.wants }
        ensures grows { OnOk result (nodes self.new.maker ≤ nodes self.old.maker + 1) }
        ensures err { IfErr result (λ stop. stop ≡ Memory) }
    {
        self.maker.perform(action)?;
        Ok(())
    }

    /// The file's end for a symbol that stood on the top: it is left out, or refused by S5.
    fn leave_out(&mut self, symbol: Sym) -> Result<(), StepFault>
        requires sound { IsSound self.old.maker }
        requires size { size self.old + 32 < 2 ^ 32 }
        ensures made { OnOk result ((may_end symbol ≡ true) × (made self.new.maker ≡ skipped symbol (made self.old.maker))) }
        ensures refused { IfErr result (λ stop. (stop ≡ Memory) ⊎ ((may_end symbol ≡ false) × (stop ≡ Refused S5))) }
        ensures sound { OnOk result (IsSound self.new.maker) }
        ensures texts { OnOk result (KeepsTexts self.old.maker.package self.new.maker.package) }
        ensures room { self.new.room ≡ self.old.room }
        ensures wants { self.new.wants ≡ self.old.wants }
        ensures grows { OnOk result (nodes self.new.maker ≤ nodes self.old.maker + 2) }
    {
        if !may_end(symbol) {
            return Err(StepFault::Refused(Rule::S5));
        }
        self.maker.perform_all(skips(symbol))?;
        Ok(())
    }

    /// The file's end. S5 where more is wanted.
    pub(crate) fn finish(&mut self) -> Result<(), StepFault>
        requires sound { IsSound self.old.maker }
        requires size { size self.old + 32 < 2 ^ 32 }
        ensures answers { AnswersEnd (state_of self.old) (state_of self.new) result }
        ensures sound { OnOk result (IsSound self.new.maker) }
        ensures texts { OnOk result (KeepsTexts self.old.maker.package self.new.maker.package) }
        ensures size { OnOk result (size self.new ≤ size self.old) }
    {
        while let Some(want) = self.wants.pop() {
            match want {
                Want::Make(action) => self.make(action)?,
                Want::Read(symbol) => self.leave_out(symbol)?,
            }
        }
        Ok(())
    }
}
