// Prints a unit, and tells the length of its text.

ghost use Rattle.std.specs.Prelude.{◌≡◌, ◌<◌, ◌-◌, ◌^◌, length, min};
ghost use Rattle.c_text.specs.CNodes.{unit_tree};
ghost use Rattle.c_text.specs.CLayout.{text_of};
ghost use Rattle.pens.specs.Pens.{Prints, KeepsLongest};
ghost use Rattle.wf_outside.specs.Sinks.{CountsPut, FitsRoom};

use crate::lengths::LengthPen;
use crate::print_items::unit;
use crate::unit::Unit;
use pens::SinkPen;
use wf_outside::{Sink, SinkFault};

/// Writes the text of a unit, in pieces of at most 4,096 bytes, and takes no memory. At a fault, which the sink
/// has counted, the front of the text is written, and `gone` is the front's length, cut to 2^64 - 1. Where the sink
/// tells a room that holds the text, the answer is Ok.
pub fn print<O: Sink>(u: &Unit, out: &mut O) -> Result<(), SinkFault>
    requires { O.faults out.old < 2 ^ 64 - 1 }
    ensures bytes { Prints (O.written out.old) (O.written out.new) result (text_of (unit_tree u.now)) }
    ensures count { CountsPut (O.faults out.old) (O.faults out.new) result }
    ensures room { FitsRoom (O.room out.old) (O.room out.new) result (length (text_of (unit_tree u.now))) }
    ensures longest { KeepsLongest (O.longest out.old) (O.longest out.new) }
{
    let mut pen = SinkPen::new(out);
    unit(u, &mut pen);
    pen.finish()
}

/// The length of a unit's text in bytes, or 2^64 - 1 where it is longer.
pub fn print_len(u: &Unit) -> u64
    ensures { result ≡ min (length (text_of (unit_tree u.now))) (2 ^ 64 - 1) }
{
    let mut pen = LengthPen { count: 0 };
    unit(u, &mut pen);
    let LengthPen { count } = pen;
    count
}
