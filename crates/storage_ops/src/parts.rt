//! Accesses, cut where a page of 4 KiB ends.

ghost use Rattle.std.specs.Prelude.{◌≡◌, ◌≤◌, ◌+◌};
ghost use Rattle.storage_ops.specs.Parts as specs_of;

/// Some bytes from an address on.
#[derive(Clone, Copy, Debug, PartialEq, Eq)]
pub struct Part {
    /// The first address.
    pub at: u64,
    /// How many bytes.
    pub size: u8,
}

/// The parts of an access, of which there are one or two.
#[derive(Clone, Copy, Debug, PartialEq, Eq)]
pub struct Parts {
    /// The first.
    pub first: Part,
    /// The second, behind the end of the first one's page.
    pub second: Option<Part>,
}

impl Parts {
    /// Whether the access is one part.
    pub fn is_whole(&self) -> bool
        ensures { result ≡ specs_of.is_whole (specs_of.listed self.now) }
    {
        self.second.is_none()
    }
}

/// The size of a page, at whose end an access is cut.
const PAGE_BYTES: u64 = 4096;

/// The parts of an access of `size` bytes at an effective address. The second one begins where the page ends, which behind the
/// highest page is 0.
pub fn parts_of(at: u64, size: u8) -> Parts
    requires { 1 ≤ size }
    ensures parts { specs_of.listed result ≡ specs_of.parts_of at size }
    ensures sizes { specs_of.AreParts size result }
{
    let left = PAGE_BYTES - at % PAGE_BYTES;
    if u64::from(size) <= left {
        return Parts {
            first: Part { at, size },
            second: None,
        };
    }
    let first = left as u8;
    Parts {
        first: Part { at, size: first },
        second: Some(Part {
            at: at.wrapping_add(left),
            size: size - first,
        }),
    }
}
