// A script, read from its bytes.

ghost use Rattle.std.specs.Prelude.{◌≡◌, ◌≤◌, OnOk, IfOk, map};
ghost use Rattle.wf_base.specs.BaseOps.{empty_buffer};
ghost use Rattle.wf_script_rules.specs.Scripts.{script_of};
ghost use Rattle.wf_script.specs.Views.{ReadsScript};

use crate::commands::NumberedCommand;
use crate::declared::Declared;
use crate::faults::ScriptFault;
use std::alloc::Global;
use std::marker::Model;
use wf_bufs::{Buf, BufList, Bufs, PublicSurface, ReceiverDecl};
use wf_script_rules::{LineFault, Lines, Words, XRule};
use wf_text::NoMemory;

/// What a script declares, and its commands.
#[derive(Drop)]
pub struct Script {
    declared: Declared,
    commands: Vec<NumberedCommand>,
}

impl Model for Script {
    ghost use Rattle.wf_script_rules.specs.Scripts.{Script as Read};

    ghost Value = { Read };

    ghost view = { λ it. record { declared = it.declared; commands = it.commands.items } };
}

impl Script {
    ghost use Rattle.std.specs.Prelude.{◌≡◌, ◌≤◌, OnOk, IfOk, map};
    ghost use Rattle.wf_bufs.specs.SurfaceViews.{receiver_of};
    ghost use Rattle.wf_bufs.specs.HostSeen.{host_of};
    ghost use Rattle.wf_script_rules.specs.Text.{words_of};
    ghost use Rattle.wf_script_rules.specs.Scripts.{empty_script, read_line, declared_host};
    ghost use Rattle.wf_script.specs.Views.{ReadsOn};

    fn new(alloc: Global) -> Script
        ensures { result ≡ empty_script }
    {
        Script {
            declared: Declared::new(alloc),
            commands: Vec::new(alloc),
        }
    }

    // One line more, of this number.
    #[tactic(auto, unfolding(wf_script_rules::specs::Scripts::read_line))]
    fn read_line(
        &mut self,
        alloc: Global,
        surface: &PublicSurface,
        number: u32,
        line: &[u8],
    ) -> Result<(), ScriptFault>
        ensures read { ReadsOn result self.new (read_line surface.now number self.old (words_of line.now)) }
        ensures bound { OnOk result (number ≤ 65536) }
    {
        if number > 65_536 {
            return Err(ScriptFault::Refused {
                line: number,
                rule: XRule::X4,
            });
        }
        let mut words = Words::new(line);
        if words.are_skipped() {
            return Ok(());
        }
        match self.declared.line(alloc, surface, &mut words) {
            Ok(command) => {
                self.commands.push(NumberedCommand {
                    line: number,
                    command,
                })?;
                Ok(())
            }
            Err(LineFault::Refused(rule)) => Err(ScriptFault::Refused { line: number, rule }),
            Err(LineFault::Memory) => Err(ScriptFault::Memory),
        }
    }

    /// What the script declares.
    pub fn declared(&self) -> &Declared
        ensures { result.now ≡ self.now.declared }
    {
        &self.declared
    }

    /// The commands, in order.
    pub fn commands(&self) -> &[NumberedCommand]
        ensures { result.now ≡ self.now.commands }
    {
        self.commands.as_slice()
    }

    /// The receivers that the script declares, by number.
    pub fn receivers(&self) -> &[ReceiverDecl]
        ensures { map receiver_of result.now ≡ self.now.declared.receivers }
    {
        self.declared.receivers.as_slice()
    }

    /// The buffers that the script declares, empty, and its byte arrays.
    pub fn host(&self, alloc: Global) -> Result<Bufs, NoMemory>
        ensures { IfOk result (λ host. host_of host ≡ declared_host self.now.declared) }
    {
        let bufs = empty_buffers(alloc, self.declared.sizes.as_slice())?;
        let arrays = self.declared.arrays.copy(alloc)?;
        Ok(Bufs { bufs, arrays })
    }
}

fn empty_buffers(alloc: Global, sizes: &[u32]) -> Result<BufList, NoMemory>
    ensures { IfOk result (λ list. list ≡ map empty_buffer sizes.now) }
{
    let mut list = BufList::new(alloc);
    for size in sizes {
        list.push(Buf::new(alloc, *size)?)?;
    }
    Ok(list)
}

/// Reads a script over a package's public surface. `Refused` tells the first line that breaks a rule, counted from
/// 1, and the first rule that it breaks.
#[tactic(auto, unfolding(wf_script_rules::specs::Scripts::script_of, wf_script_rules::specs::Scripts::read_lines))]
pub fn read_script(
    alloc: Global,
    bytes: &[u8],
    surface: &PublicSurface,
) -> Result<Script, ScriptFault>
    ensures { ReadsScript result (script_of surface.now bytes.now) }
{
    if bytes.len() > 1_048_576 {
        return Err(ScriptFault::Refused {
            line: 1,
            rule: XRule::X4,
        });
    }
    let mut lines = Lines::new(bytes);
    let mut script = Script::new(alloc);
    let mut number = 1;
    while let Some(line) = lines.next() {
        script.read_line(alloc, surface, number, line)?;
        number += 1;
    }
    Ok(script)
}
