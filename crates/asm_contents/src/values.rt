//! What the operands of an instruction are worth.

ghost use Rattle.std.specs.Prelude.{◌≡◌, ◌<◌, ◌≤◌, ◌+◌, ◌%◌, ◌++◌, ◌^◌, length};
ghost use Rattle.ppc_bits.specs.Bits.{signed_of};
ghost use Rattle.asm_places.specs.Keeping.{IsSmall};
ghost use Rattle.asm_places.specs.Sums.{total};
ghost use Rattle.asm_contents.specs.Adding.{AddsValues};
ghost use Rattle.asm_contents.specs.Values as said;

use crate::numbers::low_64;
use asm_forms::{Values, word};
use asm_places::{Names, in_range, worth_of};
use asm_statements::{Expression, Half, Number, Operand};
use operand_texts::{Mnemonic, OperandText, operands};

/// What an expression is worth at an address, where all its names are defined.
fn total_of<'a>(names: &Names<'a>, here: i128, expression: &Expression<'a>) -> i128
    requires { IsSmall here }
    ensures { result ≡ total names.now here expression.now }
{
    worth_of(expression.copy(), names, names.len(), here).value
}

/// A number modulo 2^16.
fn low_16(value: u64) -> u16
    ensures { result ≡ value % 2 ^ 16 }
{
    (value % 0x1_0000) as u16
}

/// 16 bits of a value modulo 2^64.
fn bits_of(half: Half, value: u64) -> u16
    ensures { result ≡ said.bits_of half value }
{
    match half {
        Half::Low => low_16(value),
        Half::High => low_16(value / 0x1_0000),
        Half::Adjusted => low_16(value / 0x1_0000 % 0x1_0000 + value / 0x8000 % 2),
    }
}

/// The part of a name's value, as a signed number or not.
fn part_worth(is_signed: bool, half: Half, value: i128) -> i128
    ensures { result ≡ said.part_worth is_signed half value }
{
    let bits = bits_of(half, low_64(value));
    if is_signed {
        i128::from(bits.cast_signed())
    } else {
        i128::from(bits)
    }
}

/// Whether the operand is a signed number.
fn is_signed_text(text: OperandText) -> bool
    ensures { result ≡ said.is_signed_text text }
{
    match text {
        OperandText::Signed(_)
        | OperandText::Displacement
        | OperandText::DisplacementOrZero
        | OperandText::Target(_) => true,
        OperandText::Register(_) | OperandText::RegisterOrZero(_) | OperandText::Number(_) => false,
    }
}

/// What a number is worth at an address, where all its names are defined, or `None` where a value in it is out of range.
fn number_worth<'a>(
    names: &Names<'a>,
    here: i128,
    is_signed: bool,
    number: &Number<'a>,
) -> Option<i128>
    requires { IsSmall here }
    ensures { result ≡ said.number_worth names.now here is_signed number.now }
{
    match number {
        Number::Whole(expression) => in_range(total_of(names, here, expression)),
        Number::Part(half, name) => {
            let value = in_range(names.value(name.bytes(), names.len()).unwrap_or(0))?;
            Some(part_worth(is_signed, *half, value))
        }
    }
}

/// 64 bits as a signed number.
fn as_signed(value: u64) -> i128
    ensures { result ≡ signed_of 64 value }
{
    i128::from(value.cast_signed())
}

/// What stands in a branch for its target, or `None` where the target is asked for itself and out of range.
fn target_worth<'a>(
    names: &Names<'a>,
    here: i128,
    absolute: bool,
    expression: &Expression<'a>,
) -> Option<i128>
    requires { IsSmall here }
    ensures { result ≡ said.target_worth names.now here absolute expression.now }
{
    let target = total_of(names, here, expression);
    if absolute {
        let target = in_range(target)?;
        Some(as_signed(low_64(target)))
    } else {
        Some(as_signed(low_64(target).wrapping_sub(low_64(here))))
    }
}

/// Adds the values of an operand: of a displacement it and then its register, of any other one. Answers `None` where a value is
/// out of range.
fn add_operand<'a>(
    values: &mut Values,
    names: &Names<'a>,
    here: i128,
    absolute: bool,
    text: OperandText,
    operand: &Operand<'a>,
) -> Option<()>
    requires small { IsSmall here }
    requires room { length values.old + 2 ≤ 10 }
    ensures { AddsValues (said.operand_values names.now here absolute text operand.now) values.old values.new result }
{
    match operand {
        Operand::Register(register) => values.push(i128::from(*register)),
        Operand::Number(number) => {
            values.push(number_worth(names, here, is_signed_text(text), number)?)
        }
        Operand::Displacement(number, register) => {
            values.push(number_worth(names, here, true, number)?);
            values.push(i128::from(*register));
        }
        Operand::Target(expression) => {
            values.push(target_worth(names, here, absolute, expression)?)
        }
    }
    Some(())
}

/// The values of operands, in their order, or `None` where one is out of range.
fn all_values<'a>(
    names: &Names<'a>,
    here: i128,
    absolute: bool,
    texts: &[OperandText],
    given: &[Operand<'a>],
) -> Option<Values>
    requires small { IsSmall here }
    requires few { length texts.now ≤ 5 }
    ensures { result ≡ said.all_values names.now here absolute texts.now given.now }
{
    let mut values = Values::new();
    for (i, text) in texts.iter().enumerate() {
        if i >= given.len() {
            return Some(values);
        }
        add_operand(&mut values, names, here, absolute, *text, &given[i])?;
    }
    Some(values)
}

/// The word of an instruction at an address, where all names of its operands are defined, or `None` where a value is out of range
/// or the operands are an invalid form.
pub fn line_word<'a>(
    names: &Names<'a>,
    here: i128,
    mnemonic: Mnemonic,
    given: &[Operand<'a>],
) -> Option<u32>
    requires { IsSmall here }
    ensures { result ≡ said.line_word names.now here mnemonic given.now }
{
    let values = all_values(names, here, mnemonic.aa, operands(mnemonic.op), given)?;
    word(mnemonic, &values)
}
