//! Forms to words.

ghost use Rattle.std.specs.Prelude.{◌≡◌, ℕ, bit_and, IfOk, IsOk, IsErr};
ghost use Rattle.ppc_ops.specs.declared.insn.Insn.{Insn};
ghost use Rattle.ppc_ops.specs.Forms.{IsForm};
ghost use Rattle.word_decoder.specs.declared.decoded.Decoded.TheVariants.{Form};
ghost use Rattle.word_decoder.specs.Decode.{decoded_of};
ghost use Rattle.ppc_decode.specs.Encode.{word_for, used_of};

use crate::encodings::word;
use ppc_ops::{Insn, is_invalid};

/// The operands of an instruction that is no form: one is outside its field, the operation is not one of the layout, or
/// they are an invalid form.
#[derive(Clone, Copy, Debug, PartialEq, Eq)]
pub struct OutOfField;

/// The word of a form, whose ignored bits are 0. It means that form again.
pub fn encode(insn: &Insn) -> Result<u32, OutOfField>
    ensures word { IfOk result (λ w. w ≡ word_for insn.now) }
    ensures form { IsOk result → IsForm insn.now }
    ensures refused { IsErr result → IsForm insn.now → ⊥ }
    ensures again { IfOk result (λ w. decoded_of w ≡ Form insn.now) }
{
    if is_invalid(*insn) {
        return Err(OutOfField);
    }
    word(*insn)
}

/// A word that means a form has the form's word in all bits that are not ignored.
pub fn decoded_words_encode()
    ensures { (word : ℕ) (i : Insn) → decoded_of word ≡ Form i → word_for i ≡ bit_and word (used_of i) }
{}
