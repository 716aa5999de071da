//! What fixed-point instructions leave.

ghost use Rattle.std.specs.Prelude.{◌≡◌};
ghost use Rattle.ppc_ops.specs.Results as results;

use ppc_bits::is_set;

/// The bits of the fixed-point exception register that are kept (Power ISA, Book I, 3.2.2).
#[derive(Clone, Copy, Debug, Default, PartialEq, Eq)]
pub struct Xer {
    /// A summary overflow has occurred, and was not cleared since.
    pub so: bool,
    /// The last operation with `oe` overflowed.
    pub ov: bool,
    /// The carry of the last operation that sets it.
    pub ca: bool,
    /// The overflow of the low 32 bits.
    pub ov32: bool,
    /// The carry of the low 32 bits.
    pub ca32: bool,
}

impl Xer {
    /// The bits of the register that are kept.
    pub fn of(register: u64) -> Xer
        ensures { result ≡ results.xer_of register }
    {
        Xer {
            so: is_set(register, 64, 32),
            ov: is_set(register, 64, 33),
            ca: is_set(register, 64, 34),
            ov32: is_set(register, 64, 44),
            ca32: is_set(register, 64, 45),
        }
    }

    /// The register with these bits, and zeros elsewhere.
    pub fn register(self) -> u64
        ensures { result ≡ results.xer_number self }
    {
        (u64::from(self.so) << 31)
            + (u64::from(self.ov) << 30)
            + (u64::from(self.ca) << 29)
            + (u64::from(self.ov32) << 19)
            + (u64::from(self.ca32) << 18)
    }
}

/// What an arithmetic or logic instruction leaves.
#[derive(Clone, Copy, Debug, PartialEq, Eq)]
pub struct ArithOut {
    /// The new value of the register that it writes.
    pub value: u64,
    /// The exception register.
    pub xer: Xer,
    /// The first field of the condition register, where it is written: four bits, the first one the highest.
    pub cr0: Option<u8>,
}

/// The first field of the condition register after an instruction with this value: whether the signed value is less
/// than, greater than or equal to 0, then the summary overflow (Power ISA, Book I, 2.3.1).
pub fn record_of(value: u64, so: bool) -> u8
    ensures { result ≡ results.record_of value so }
{
    let order = if value >= 1 << 63 {
        8
    } else if value == 0 {
        2
    } else {
        4
    };
    order + u8::from(so)
}
