// Reading a package.

ghost use Rattle.std.specs.Prelude.{◌≡◌, ◌+◌, ◌*◌, ◌<◌, ◌≤◌, ◌^◌, [], length, map, sum_by, IfOk, IfErr, OnOk};
ghost use Rattle.wf_ast.specs.ReadPackage.{decls_of};
ghost use Rattle.wf_parse_nodes.specs.Makers.{nodes, IsSound, KeepsTexts};
ghost use Rattle.wf_parse.specs.Machines.{size, state_of, file_start, KeepsAt};
ghost use Rattle.wf_parse.specs.Parsing.{AnswersParse};
ghost use Rattle.wf_parse.specs.Reading.{AnswersOne, AnswersFileEnd, AnswersBytes};

use crate::lexing::Tokens;
use crate::machine::{Machine, StepFault};
use stacks::Stack;
use std::alloc::{AllocError, Global};
use wf_ast::{Package, PackageNodes};
use wf_parse_grammar::{Sym, Token, Want};
use wf_parse_nodes::Maker;
use wf_text::{NoMemory, PhaseFault, Place, Refusal, Rule};

/// How many tokens the files of a package may have together.
const MOST_TOKENS: usize = 262144;

impl Machine {
    /// A machine before the first file of a package with this name.
    fn new(alloc: Global, name: &[u8]) -> Result<Machine, AllocError>
        ensures named { IfOk result (λ m. m.maker.package ≡ record { name = name.now; texts = []; exprs = []; stmts = []; decls = [] }) }
        ensures none { IfOk result (λ m. m.maker.values ≡ []) }
    {
        Ok(Machine {
            maker: Maker {
                alloc,
                package: PackageNodes::new(alloc, name)?,
                values: Stack::new(alloc),
            },
            wants: Stack::new(alloc),
            room: 0,
        })
    }

    /// Before a file's first token.
    fn begin_file(&mut self) -> Result<(), NoMemory>
        ensures state { OnOk result (state_of self.new ≡ file_start (record { vals = []; decls = decls_of self.old.maker.package })) }
        ensures same { OnOk result (self.new.maker.package ≡ self.old.maker.package) }
        ensures none { OnOk result (self.new.maker.values ≡ []) }
    {
        self.maker.values.clear();
        self.wants.clear();
        self.room = 0;
        self.wants.push(Want::Read(Sym::File))
    }

    /// Reads one token, of which `most` may stand in the package, itself counted: where it is 0 and the token can stand
    /// here, L3.
    fn read_token(&mut self, token: Token, most: usize) -> Result<(), StepFault>
        requires sound { IsSound self.old.maker }
        requires size { size self.old + 32 < 2 ^ 32 }
        ensures answers { AnswersOne most token (state_of self.old) (state_of self.new) result }
        ensures sound { OnOk result (IsSound self.new.maker) }
        ensures texts { OnOk result (KeepsTexts self.old.maker.package self.new.maker.package) }
        ensures refused { IfErr result (λ stop. KeepsAt stop self.old.maker.package self.new.maker.package) }
        ensures size { OnOk result (size self.new ≤ size self.old + 32) }
    {
        self.step(0 < most, token)?;
        if most == 0 {
            return Err(StepFault::Refused(Rule::L3));
        }
        Ok(())
    }

    /// Reads the bytes of the file with this number. `most` tokens may stand in it and the files after it; what is
    /// left of them is the answer. S1 to S6, L3, L4 and L5 where the file breaks them.
    fn read_bytes(&mut self, number: u16, bytes: &[u8], most: usize) -> Result<usize, PhaseFault>
        requires sound { IsSound self.old.maker }
        requires bytes { length bytes.now ≤ 1048576 }
        requires texts { length self.old.maker.package.texts + 2 * length bytes.now < 2 ^ 32 }
        requires nodes { nodes self.old.maker + 64 * length bytes.now + 128 < 2 ^ 32 }
        ensures answers { AnswersBytes number most bytes.now self.old.maker.package self.new.maker.package result }
        ensures sound { OnOk result (IsSound self.new.maker) }
        ensures nodes { OnOk result (nodes self.new.maker ≤ nodes self.old.maker + 64 * length bytes.now + 64) }
        ensures texts { OnOk result (length self.new.maker.package.texts ≤ length self.old.maker.package.texts + 2 * length bytes.now) }
    {
        self.begin_file()?;
        let mut tokens = Tokens::new(self.maker.alloc, number, bytes)?;
        let mut most = most;
        while let Some(token) = tokens.next(&mut self.maker.package)? {
            match self.read_token(token, most) {
                Ok(()) => most -= 1,
                Err(StepFault::Refused(rule)) => {
                    tokens.pass_over(&mut self.maker.package)?;
                    return Err(PhaseFault::Refused(Refusal { rule, at: token.at }));
                }
                Err(StepFault::Memory) => return Err(PhaseFault::Memory),
            }
        }
        self.end_file(tokens.end())?;
        Ok(most)
    }

    /// The file's end, which is at this place.
    fn end_file(&mut self, at: Place) -> Result<(), PhaseFault>
        requires sound { IsSound self.old.maker }
        requires size { size self.old + 32 < 2 ^ 32 }
        ensures answers { AnswersFileEnd at (state_of self.old) (state_of self.new) result }
        ensures sound { OnOk result (IsSound self.new.maker) }
        ensures texts { OnOk result (KeepsTexts self.old.maker.package self.new.maker.package) }
        ensures size { OnOk result (size self.new ≤ size self.old) }
    {
        match self.finish() {
            Ok(()) => Ok(()),
            Err(StepFault::Refused(rule)) => Err(PhaseFault::Refused(Refusal { rule, at })),
            Err(StepFault::Memory) => Err(PhaseFault::Memory),
        }
    }
}

/// The nodes of the package with this name, from its files in order.
fn read_nodes(alloc: Global, name: &str, files: &[Vec<u8>]) -> Result<PackageNodes, PhaseFault>
    requires count { length files.now ≤ 16 }
    requires bytes { sum_by (λ file. length file.items) files.now ≤ 1048576 }
    ensures { AnswersParse name.now (map (λ file. file.items) files.now) result }
{
    let mut machine = Machine::new(alloc, name.as_bytes())?;
    let mut most = MOST_TOKENS;
    let mut number: u16 = 0;
    for bytes in files {
        most = machine.read_bytes(number, bytes.as_slice(), most)?;
        number += 1;
    }
    Ok(machine.maker.package)
}

/// Reads the files of the package with this name, in order. S1 to S6, L3, L4 and L5 where a file breaks them, at
/// the first token that does.
pub fn parse(alloc: Global, name: &str, files: &[Vec<u8>]) -> Result<Package, PhaseFault>
    requires count { length files.now ≤ 16 }
    requires bytes { sum_by (λ file. length file.items) files.now ≤ 1048576 }
    ensures { AnswersParse name.now (map (λ file. file.items) files.now) result }
{
    let nodes = read_nodes(alloc, name, files)?;
    Ok(Package::new(nodes))
}
