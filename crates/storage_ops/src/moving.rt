//! The numbers that loads and stores move.

ghost use Rattle.std.specs.Prelude.{◌≡◌, ◌<◌, ◌%◌, ◌^◌, true};
ghost use Rattle.ppc_bus.specs.Holding.{is_size};
ghost use Rattle.storage_ops.specs.Forms as forms;

use crate::forms::AccessForm;
use ppc_bits::sign_extend;

/// The number of 2 bytes whose bytes stand in the other order.
#[tactic(auto, unfolding(journal_core::specs::Bytes::le_bytes, journal_core::specs::Bytes::be_value))]
fn reversed_halfword(value: u64) -> u64
    ensures value { result ≡ forms.reversed_bytes 2 value }
    ensures below { result < 256 ^ 2 }
{
    256 * (value % 256) + value / 256 % 256
}

/// The number of 4 bytes whose bytes stand in the other order.
#[tactic(auto, unfolding(journal_core::specs::Bytes::le_bytes, journal_core::specs::Bytes::be_value))]
fn reversed_word(value: u64) -> u64
    ensures value { result ≡ forms.reversed_bytes 4 value }
    ensures below { result < 256 ^ 4 }
{
    let second = value / 256;
    let third = second / 256;
    let fourth = third / 256;
    256 * (256 * (256 * (value % 256) + second % 256) + third % 256) + fourth % 256
}

/// The number of 8 bytes whose bytes stand in the other order.
fn reversed_doubleword(value: u64) -> u64
    ensures value { result ≡ forms.reversed_bytes 8 value }
    ensures below { result < 256 ^ 8 }
{
    value.swap_bytes()
}

/// The number of 1, 2, 4 or 8 bytes whose bytes stand in the order of the form.
fn ordered(form: &AccessForm, value: u64) -> u64
    requires size { is_size form.now.size ≡ true }
    requires value { value < 256 ^ form.now.size }
    ensures value { result ≡ forms.ordered form.now value }
    ensures below { result < 256 ^ form.now.size }
{
    if !form.reversed {
        return value;
    }
    match form.size {
        2 => reversed_halfword(value),
        4 => reversed_word(value),
        8 => reversed_doubleword(value),
        _ => value,
    }
}

/// What a load puts into its register, for the number of the bytes.
pub fn loaded(form: &AccessForm, value: u64) -> u64
    requires size { is_size form.now.size ≡ true }
    requires value { value < 256 ^ form.now.size }
    ensures { result ≡ forms.loaded form.now value }
{
    let number = ordered(form, value);
    if form.signed {
        sign_extend(number, 8 * form.size)
    } else {
        number
    }
}

/// The lowest bytes of a register.
fn lowest_bytes(value: u64, size: u8) -> u64
    requires { is_size size ≡ true }
    ensures { result ≡ value % 256 ^ size }
{
    match size {
        1 => value % 0x100,
        2 => value % 0x1_0000,
        4 => value % 0x1_0000_0000,
        _ => value,
    }
}

/// The number of the bytes that a store takes from its register.
pub fn sent(form: &AccessForm, value: u64) -> u64
    requires { is_size form.now.size ≡ true }
    ensures value { result ≡ forms.sent form.now value }
    ensures below { result < 256 ^ form.now.size }
{
    ordered(form, lowest_bytes(value, form.size))
}
