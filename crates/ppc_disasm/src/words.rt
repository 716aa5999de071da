//! Words as text.

ghost use Rattle.std.specs.Prelude.{◌≡◌, ◌+◌, ◌++◌, ◌≤◌, length};
ghost use Rattle.ppc_disasm.specs.Words.{word_text};

use crate::insn::push_insn;
use line_text::Line;
use word_decoder::{Decoded, decode};

/// Adds the text of a word to a line, which must have room for 80 bytes: the text of the form that the word means, or
/// `.word 0x` and eight digits where it means none. At most 80 bytes come.
#[tactic(auto, unfolding(crate::specs::Words::word_text))]
pub fn push_word(line: &mut Line, word: u32)
    requires { length line.old + 80 ≤ 512 }
    ensures text { line.new ≡ line.old ++ word_text word }
    ensures len { length line.new ≤ length line.old + 80 }
{
    match decode(word) {
        Decoded::Form(insn) => push_insn(line, &insn),
        Decoded::Zero | Decoded::InvalidForm(_) | Decoded::Unsupported => {
            line.push_bytes(b".word 0x");
            line.push_hex(8, u64::from(word));
        }
    }
}
