// The C text of a package that is accepted: its unit, and its writing.

ghost use Rattle.std.specs.Prelude.{◌≡◌, true, ◌-◌, ◌^◌, ◌<◌, IfErr};
ghost use Rattle.c_text.specs.CGrammar.{IsTextOf};
ghost use Rattle.c_text.specs.CLayout.{text_of};
ghost use Rattle.c_text.specs.CNodes.{unit_tree};
ghost use Rattle.wf_tool.specs.Answer.{CountsSink, KeepsWholePieces, Writes};
ghost use Rattle.wf_tool.specs.Taken.{CountsTaking, LowersPackage, NamesFailed};
ghost use Rattle.wf_tool.specs.Told.{IsTextOfUnit};
ghost use Rattle.wf_tool.specs.Views.{words_seen};
ghost use Rattle.wf_tool.specs.Words.{is_package_name};

use crate::ending::Ending;
use crate::judging::accept_package;
use crate::taking::TakingFault;
use crate::words::PackageWords;
use c_text::{Unit, print, printed_is_a_text};
use std::alloc::Global;
use std::mem::ManuallyDrop;
use wf_lower::lower;
use wf_outside::{Inputs, Sink};

/// Lowers the package with these words. Ok is the unit of its C text. The package itself is left in memory, since the text is the last
/// that is made.
pub(crate) fn lower_package<I: Inputs>(
    alloc: Global,
    asked: PackageWords<'_>,
    inputs: &mut I,
) -> Result<Unit, TakingFault>
    requires named { is_package_name (words_seen asked).package_name ≡ true }
    requires faults { I.faults inputs.old < 2 ^ 64 - 1 }
    ensures verdict { LowersPackage (I.held inputs.old) (words_seen asked.entry) result }
    ensures count { CountsTaking (I.faults inputs.old) (I.faults inputs.new) result }
    ensures name { IfErr result (NamesFailed (I.last_failed inputs.new) (words_seen asked.entry).files) }
    ensures same { I.held inputs.new ≡ I.held inputs.old }
{
    let accepted = accept_package(alloc, asked, inputs)?;
    let kept = ManuallyDrop::new(accepted);
    let unit = lower(alloc, &*kept)?;
    Ok(unit)
}

/// Writes the text of a unit: Done, or OutputFault where the sink fails.
pub(crate) fn write_unit<O: Sink>(u: &Unit, out: &mut O) -> Ending
    requires { O.faults out.old < 2 ^ 64 - 1 }
    ensures written { Writes (IsTextOfUnit u.now) (O.written out.old) (O.written out.new) (O.room out.old) result }
    ensures spelt { IsTextOf (text_of (unit_tree u.now)) (unit_tree u.now) }
    ensures pieces { KeepsWholePieces result (O.longest out.old) (O.longest out.new) }
    ensures sink { CountsSink (O.faults out.old) (O.faults out.new) result }
{
    printed_is_a_text(u);
    match print(u, out) {
        Ok(()) => Ending::Done,
        Err(_) => Ending::OutputFault,
    }
}
