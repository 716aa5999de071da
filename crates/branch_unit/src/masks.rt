//! Words of 32 bits of which new values of the condition register are made.

ghost use Rattle.std.specs.Prelude.{◌≡◌, ◌<◌};
ghost use Rattle.ppc_ops.specs.Results.{one};
ghost use Rattle.branch_unit.specs.Masks as masks;

/// The bits of `new` where the mask has ones, those of `old` elsewhere.
pub(crate) fn merge(mask: u32, new: u32, old: u32) -> u32
    ensures { result ≡ masks.merged mask new old }
{
    (new & mask) | (old & !mask)
}

/// A one in bit `n`.
pub(crate) fn bit_mask(n: u8) -> u32
    requires { n < 32 }
    ensures { result ≡ masks.bit_mask n }
{
    0x8000_0000 >> n
}

/// Ones in field `n`.
pub(crate) fn field_mask(n: u8) -> u32
    requires { n < 8 }
    ensures { result ≡ masks.field_mask n }
{
    0xf000_0000 >> (4 * n)
}

/// Ones in each field whose bit of `fxm` is 1.
pub(crate) fn fields_mask(fxm: u8) -> u32
    ensures { result ≡ masks.fields_mask fxm }
{
    let bits = u32::from(fxm);
    let high = bits / 128 % 2 * 0x1000
        + bits / 64 % 2 * 0x100
        + bits / 32 % 2 * 0x10
        + bits / 16 % 2;
    let low = bits / 8 % 2 * 0x1000 + bits / 4 % 2 * 0x100 + bits / 2 % 2 * 0x10 + bits % 2;
    (high * 0x1_0000 + low) * 15
}

/// The bit in each of 32 places.
pub(crate) fn repeated_bit(x: bool) -> u32
    ensures { result ≡ masks.repeated_bit (one x) }
{
    if x { u32::MAX } else { 0 }
}

/// The four bits of a field in each of eight fields.
pub(crate) fn repeated_field(field: u8) -> u32
    requires { field < 16 }
    ensures { result ≡ masks.repeated_field field }
{
    u32::from(field) * 0x1111_1111
}
