//! Names with their marks, and operands, as they stand in text.

ghost use Rattle.std.specs.Prelude.{◌≡◌, ◌+◌, ◌++◌, ◌∷◌, [], ◌≤◌, length, drop};
ghost use Rattle.std.specs.Fmt.{signed_decimal};
ghost use Rattle.ppc_disasm.specs.Texts as said;

use line_text::Line;
use operand_texts::{Mnemonic, OperandText, operands};
use ppc_ops::name;

/// Adds a byte to a line where it is to stand there.
fn push_where(line: &mut Line, is_set: bool, byte: u8)
    requires { length line.old + 20 ≤ 512 }
    ensures text { line.new ≡ line.old ++ said.where_set is_set (byte ∷ []) }
    ensures len { length line.new ≤ length line.old + 1 }
{
    if is_set {
        line.push(byte);
    }
}

/// Adds the name of an operation with its marks to a line.
fn push_mnemonic(line: &mut Line, mnemonic: Mnemonic)
    requires { length line.old + length (said.mnemonic_text mnemonic) + 20 ≤ 512 }
    ensures { line.new ≡ line.old ++ said.mnemonic_text mnemonic }
{
    line.push_bytes(name(mnemonic.op).as_bytes());
    push_where(line, mnemonic.oe, b'o');
    push_where(line, mnemonic.rc, b'.');
    push_where(line, mnemonic.lk, b'l');
    push_where(line, mnemonic.aa, b'a');
}

/// Adds a signed number in decimal to a line.
fn push_signed(line: &mut Line, value: i32)
    requires { length line.old + length (signed_decimal value) + 20 ≤ 512 }
    ensures { line.new ≡ line.old ++ signed_decimal value }
{
    if value < 0 {
        line.push(b'-');
    }
    line.push_number(u64::from(value.unsigned_abs()));
}

/// Adds a general register to a line.
fn push_register(line: &mut Line, value: i32)
    requires { length line.old + length (said.register_text value) + 20 ≤ 512 }
    ensures { line.new ≡ line.old ++ said.register_text value }
{
    line.push(b'r');
    push_signed(line, value);
}

/// Adds a general register to a line, or 0 in place of register 0.
fn push_register_or_zero(line: &mut Line, value: i32)
    requires { length line.old + length (said.register_or_zero_text value) + 20 ≤ 512 }
    ensures { line.new ≡ line.old ++ said.register_or_zero_text value }
{
    if value == 0 {
        line.push(b'0');
    } else {
        push_register(line, value);
    }
}

/// Adds to a line how far a branch goes from its own address.
fn push_distance(line: &mut Line, value: i32)
    requires { length line.old + length (said.distance_text value) + 20 ≤ 512 }
    ensures { line.new ≡ line.old ++ said.distance_text value }
{
    line.push(b'.');
    line.push(if value < 0 { b'-' } else { b'+' });
    line.push_number(u64::from(value.unsigned_abs()));
}

/// Adds to a line where a branch goes.
fn push_target(line: &mut Line, is_absolute: bool, value: i32)
    requires { length line.old + length (said.target_text is_absolute value) + 20 ≤ 512 }
    ensures { line.new ≡ line.old ++ said.target_text is_absolute value }
{
    if is_absolute {
        line.push_number((i128::from(value).cast_unsigned() % (1 << 64)) as u64);
    } else {
        push_distance(line, value);
    }
}

/// The value at a place, or 0 where no more values stand.
fn value_at(values: &[i32], place: usize) -> i32
    ensures { result ≡ said.value_at values.now place }
{
    values.get(place).copied().unwrap_or(0)
}

/// Adds an operand of a kind to a line, with the first of these values.
fn push_operand(line: &mut Line, is_absolute: bool, kind: OperandText, values: &[i32])
    requires { length line.old + length (said.operand_text is_absolute kind values.now) + 20 ≤ 512 }
    ensures { line.new ≡ line.old ++ said.operand_text is_absolute kind values.now }
{
    let value = value_at(values, 0);
    match kind {
        OperandText::Register(_) => push_register(line, value),
        OperandText::RegisterOrZero(_) => push_register_or_zero(line, value),
        OperandText::Number(_) | OperandText::Signed(_) => push_signed(line, value),
        OperandText::Displacement => {
            push_signed(line, value);
            line.push(b'(');
            push_register(line, value_at(values, 1));
            line.push(b')');
        }
        OperandText::DisplacementOrZero => {
            push_signed(line, value);
            line.push(b'(');
            push_register_or_zero(line, value_at(values, 1));
            line.push(b')');
        }
        OperandText::Target(_) => push_target(line, is_absolute, value),
    }
}

/// The values behind those of an operand of a kind.
fn behind(kind: OperandText, values: &[i32]) -> &[i32]
    ensures { result.now ≡ drop (said.value_count kind) values.now }
{
    let count = match kind {
        OperandText::Displacement | OperandText::DisplacementOrZero => 2,
        _ => 1,
    };
    values.get(count..).unwrap_or(&[])
}

/// Adds operands of these kinds to a line, with these values: a byte before the first, and a comma before each other.
fn push_operands(
    line: &mut Line,
    is_absolute: bool,
    before: u8,
    kinds: &[OperandText],
    values: &[i32],
)
    requires { length line.old + length (said.operands_text is_absolute before kinds.now values.now) + 20 ≤ 512 }
    ensures { line.new ≡ line.old ++ said.operands_text is_absolute before kinds.now values.now }
{
    match kinds {
        [] => {}
        [kind, later @ ..] => {
            line.push(before);
            push_operand(line, is_absolute, *kind, values);
            push_operands(line, is_absolute, b',', later, behind(*kind, values));
        }
    }
}

/// Adds an operation with its marks and operands to a line, which must have room for them and 20 bytes more.
pub(crate) fn push_form(line: &mut Line, mnemonic: Mnemonic, values: &[i32])
    requires { length line.old + length (said.form_text mnemonic values.now) + 20 ≤ 512 }
    ensures { line.new ≡ line.old ++ said.form_text mnemonic values.now }
{
    push_mnemonic(line, mnemonic);
    push_operands(line, mnemonic.aa, b' ', operands(mnemonic.op), values);
}
