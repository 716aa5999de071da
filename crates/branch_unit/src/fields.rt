//! The condition register: eight fields of four bits (Power ISA, Book I, 2.3.1).

ghost use Rattle.std.specs.Prelude.{◌≡◌, ◌<◌};
ghost use Rattle.ppc_bits.specs.Bits as bits;
ghost use Rattle.branch_unit.specs.Fields as fields;

use crate::masks::{field_mask, fields_mask, merge, repeated_field};
use ppc_bits::{field, is_set, low_word};

/// Whether bit `n` of the condition register is 1.
pub(crate) fn has_bit(cr: u32, n: u8) -> bool
    requires { n < 32 }
    ensures { result ≡ bits.is_set 32 cr n }
{
    is_set(u64::from(cr), 32, n)
}

/// Whether bit `k` of BO or TO, which have five, is 1.
pub(crate) fn asks(options: u8, k: u8) -> bool
    requires options { options < 32 }
    requires k { k < 5 }
    ensures { result ≡ bits.is_set 5 options k }
{
    is_set(u64::from(options), 5, k)
}

/// Field `n` of the condition register.
pub(crate) fn cr_field(cr: u32, n: u8) -> u8
    requires { n < 8 }
    ensures value { result ≡ fields.cr_field cr n }
    ensures bound { result < 16 }
{
    field(u64::from(cr), 32, 4 * n, 4 * n + 3) as u8
}

/// The condition register with one field replaced (Power ISA, Book I, 2.3.1).
pub fn with_field(cr: u32, bf: u8, field: u8) -> u32
    requires bf { bf < 8 }
    requires field { field < 16 }
    ensures { result ≡ fields.with_field cr bf field }
{
    merge(field_mask(bf), repeated_field(field), cr)
}

/// What mtcrf and mtocrf leave of the condition register: each field whose bit of `fxm` is 1 from the low word of `rs`, the
/// others kept (Power ISA, Book I, 3.3.17).
pub fn moved_fields(fxm: u8, rs: u64, cr: u32) -> u32
    ensures { result ≡ fields.moved_fields fxm rs cr }
{
    merge(fields_mask(fxm), low_word(rs), cr)
}

/// The fields whose bit of `fxm` is 1 in their places, and zeros elsewhere.
pub(crate) fn fields_of(fxm: u8, cr: u32) -> u32
    ensures { result ≡ fields.fields_of fxm cr }
{
    merge(fields_mask(fxm), cr, 0)
}
