//! Ranges of addresses.

ghost use Rattle.std.specs.Prelude.{◌≡◌};
ghost use Rattle.elf_image.specs.Ranges.{end_of, meets};

/// A range of addresses. It may go on behind the last one.
#[derive(Clone, Copy, Debug)]
pub struct AddressRange {
    /// The first address.
    pub at: u64,
    /// How many addresses there are.
    pub size: u64,
}

/// The first address after a range.
pub fn end_of(range: AddressRange) -> u128
    ensures { result ≡ end_of range }
{
    u128::from(range.at) + u128::from(range.size)
}

/// Whether some address lies in both ranges.
pub fn meets(a: AddressRange, b: AddressRange) -> bool
    ensures { result ≡ meets a b }
{
    a.size > 0 && b.size > 0 && u128::from(a.at) < end_of(b) && u128::from(b.at) < end_of(a)
}
