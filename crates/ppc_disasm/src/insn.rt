//! Instructions as text.

ghost use Rattle.std.specs.Prelude.{◌≡◌, ◌+◌, ◌++◌, ◌≤◌, length};
ghost use Rattle.ppc_ops.specs.Fitting.{FitsFields};
ghost use Rattle.outer_io.specs.Outside.{Puts};
ghost use Rattle.ppc_disasm.specs.Texts.{insn_text};

use crate::forms::push_text;
use line_text::Line;
use outer_io::{Sink, SinkFault};
use ppc_ops::Insn;

/// Adds the text of an instruction whose operands fit their fields to a line, which must have room for 80 bytes. At most
/// 80 bytes come. The text names no address of its own: a target without `a` is so far from the branch.
pub fn push_insn(line: &mut Line, insn: &Insn)
    requires fits { FitsFields insn.now }
    requires room { length line.old + 80 ≤ 512 }
    ensures text { line.new ≡ line.old ++ insn_text insn.now }
    ensures len { length line.new ≤ length line.old + 80 }
{
    push_text(line, *insn);
}

/// Puts the text of an instruction whose operands fit their fields as one piece, without memory.
pub fn print_insn<K: Sink>(insn: &Insn, out: &mut K) -> Result<(), SinkFault>
    requires { FitsFields insn.now }
    ensures { Puts (K.told out.old) (K.told out.new) (K.faults out.old) (K.faults out.new) result (insn_text insn.now) }
{
    let mut line = Line::new();
    push_insn(&mut line, insn);
    out.put(line.as_slice())
}
