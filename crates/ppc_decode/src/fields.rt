//! Fields of an instruction's word.

ghost use Rattle.std.specs.Prelude.{◌≡◌, ◌+◌, ◌-◌, ◌*◌, ◌/◌, ◌%◌, ◌^◌, ◌<◌, ◌≤◌, true};
ghost use Rattle.std.specs.Int.{from_bool};
ghost use Rattle.ppc_bits.specs.Bits.{modulo};
ghost use Rattle.ppc_ops.specs.Fitting.{IsCompared, IsDisplacement, IsSignedMultiple};
ghost use Rattle.ppc_ops.specs.Table.{layout_of, op_row};

use ppc_ops::{Layout, Op, layout, row_of};

/// Whether the operands of an operation have this layout.
pub(crate) fn has_layout(op: Op, wanted: Layout) -> bool
    ensures same { result ≡ true → layout_of op ≡ wanted }
    ensures other { layout_of op ≡ wanted → result ≡ true }
{
    layout(op) == wanted
}

/// The fixed bits of an operation's words, and zeros elsewhere.
pub(crate) fn fixed_bits(op: Op) -> u32
    ensures value { result ≡ (op_row op).value }
    ensures below { result < 63 * 2 ^ 26 }
{
    row_of(op).value
}

/// The value where its last bit is the bit `last`.
pub(crate) fn place(value: u8, last: u8) -> u32
    requires inside { last < 32 }
    requires fits { value * 2 ^ (31 - last) < 2 ^ 32 }
    ensures { result ≡ value * 2 ^ (31 - last) }
{
    u32::from(value) << (31 - last)
}

/// The bit `at`, or nothing.
pub(crate) fn flag(value: bool, at: u8) -> u32
    requires { at < 32 }
    ensures { result ≡ from_bool value * 2 ^ (31 - at) }
{
    place(u8::from(value), at)
}

/// The number of six bits: its highest bit where the bit `high` is, the others where the last of them is the bit `last`.
pub(crate) fn six_bits(value: u8, high: u8, last: u8) -> u32
    requires value { value < 64 }
    requires high { 5 < high }
    requires inside { high < 32 }
    requires last { 10 ≤ last }
    requires end { last < 32 }
    ensures { result ≡ value / 2 ^ 5 * 2 ^ (31 - high) + value % 2 ^ 5 * 2 ^ (31 - last) }
{
    place(value / 32, high) + place(value % 32, last)
}

/// The number of a special register, whose two halves stand in the word in the other order.
pub(crate) fn special_register(spr: u16) -> u32
    requires { spr < 2 ^ 10 }
    ensures { result ≡ spr / 2 ^ 5 * 2 ^ 11 + spr % 2 ^ 5 * 2 ^ 16 }
{
    (u32::from(spr / 32) << 11) + (u32::from(spr % 32) << 16)
}

/// The signed number of 16 bits.
pub(crate) fn immediate(value: i16) -> u32
    ensures { result ≡ modulo 16 value }
{
    u32::from(value.cast_unsigned())
}

/// The signed number of 16 bits, parted into bits 16 to 25, 11 to 15, and 31.
pub(crate) fn split_immediate(value: i16) -> u32
    ensures { result ≡ modulo 16 value / 2 ^ 6 * 2 ^ 6 + modulo 16 value / 2 % 2 ^ 5 * 2 ^ 16 + modulo 16 value % 2 }
{
    let bits = immediate(value);
    bits / 64 * 64 + (bits / 2 % 32 << 16) + bits % 2
}

/// The low 16 bits of a number that is compared.
pub(crate) fn compared(value: i32) -> u32
    ensures { result ≡ modulo 16 value }
{
    value.cast_unsigned() % 0x1_0000
}

/// The distance of a branch, without its two lowest bits.
pub(crate) fn branch_distance(value: i32) -> u32
    ensures { result ≡ modulo 16 value / 2 ^ 2 * 2 ^ 2 }
{
    value.cast_unsigned() % 0x1_0000 / 4 * 4
}

/// The distance of a jump, without its two lowest bits.
pub(crate) fn jump_distance(value: i32) -> u32
    ensures { result ≡ modulo 26 value / 2 ^ 2 * 2 ^ 2 }
{
    value.cast_unsigned() % 0x400_0000 / 4 * 4
}

/// Whether this is a displacement: where it is scaled, a multiple of 4.
pub(crate) fn is_displacement(scaled: bool, value: i16) -> bool
    ensures fits { result ≡ true → IsDisplacement scaled value }
    ensures other { IsDisplacement scaled value → result ≡ true }
{
    !scaled || value % 4 == 0
}

/// Whether this is a number of 16 bits, signed or not.
pub(crate) fn is_compared(unsigned: bool, value: i32) -> bool
    ensures fits { result ≡ true → IsCompared unsigned value }
    ensures other { IsCompared unsigned value → result ≡ true }
{
    if unsigned {
        0 <= value && value < 0x1_0000
    } else {
        -0x8000 <= value && value < 0x8000
    }
}

/// Whether this is a signed number of 16 bits whose two lowest are 0.
pub(crate) fn is_branch_distance(value: i32) -> bool
    ensures fits { result ≡ true → IsSignedMultiple 16 value }
    ensures other { IsSignedMultiple 16 value → result ≡ true }
{
    -0x8000 <= value && value < 0x8000 && value % 4 == 0
}

/// Whether this is a signed number of 26 bits whose two lowest are 0.
pub(crate) fn is_jump_distance(value: i32) -> bool
    ensures fits { result ≡ true → IsSignedMultiple 26 value }
    ensures other { IsSignedMultiple 26 value → result ≡ true }
{
    -0x200_0000 <= value && value < 0x200_0000 && value % 4 == 0
}
