//! Words from the values of operands.

ghost use Rattle.std.specs.Prelude.{◌≡◌};
ghost use Rattle.asm_forms.specs.Words.{word_of};

use crate::forms::form;
use crate::values::Values;
use operand_texts::Mnemonic;
use ppc_decode::encode;

/// The word of an operation with marks and the values of its operands in text; nothing where a value does not fit its
/// field, or the operands are an invalid form. A value that is missing is 0, and one behind the last operand has no effect.
pub fn word(mnemonic: Mnemonic, values: &Values) -> Option<u32>
    ensures { result ≡ word_of mnemonic values.now }
{
    encode(&form(mnemonic, values)?).ok()
}
