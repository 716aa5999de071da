//! Words to forms.

ghost use Rattle.std.specs.Prelude.{◌≡◌};
ghost use Rattle.ppc_ops.specs.Fitting.{FitsFields};
ghost use Rattle.word_decoder.specs.Decode.{judged, decoded_of, IsFormed};

use crate::decoded::Decoded;
use crate::opcodes::op_of;
use crate::operands::operands;
use ppc_ops::{Insn, Op, is_invalid};

fn judge(op: Op, insn: Insn) -> Decoded
    requires { FitsFields insn }
    ensures form { result ≡ judged op insn }
    ensures formed { IsFormed result }
{
    if is_invalid(insn) {
        Decoded::InvalidForm(op)
    } else {
        Decoded::Form(insn)
    }
}

/// What a word means. The word 0 means nothing; any other means the one row of the instruction table whose fixed bits
/// it has, with the operands in its fields, an invalid form of it, or no row (Power ISA, Book I, 1.6).
#[tactic(auto, unfolding(crate::specs::Decode::decoded_of))]
pub fn decode(word: u32) -> Decoded
    ensures form { result ≡ decoded_of word }
    ensures formed { IsFormed result }
{
    if word == 0 {
        return Decoded::Zero;
    }
    let word = u64::from(word);
    match op_of(word) {
        None => Decoded::Unsupported,
        Some(op) => judge(op, operands(op, word)),
    }
}
