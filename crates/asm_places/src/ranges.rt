//! The ranges of numbers in a source.

ghost use Rattle.std.specs.Prelude.{◌≡◌, ◌<◌, ◌≤◌, ◌+◌, IfSome};
ghost use Rattle.asm_places.specs.Ranges as ranges;
ghost use Rattle.asm_places.specs.Ranges.{most_zeros};
ghost use Rattle.asm_places.specs.Keeping.{IsSmall};

/// The most zeros of all .space and .align lines together: 16 MiB.
const MOST_ZEROS: u32 = 16 * 1024 * 1024;

/// The value of an expression, where it fits a doubleword, signed or not: -2^63 to 2^64 - 1.
pub fn in_range(value: i128) -> Option<i128>
    ensures value { result ≡ ranges.in_range value }
    ensures small { IfSome result IsSmall }
{
    if value >= -(1 << 63) && value < 1 << 64 {
        Some(value)
    } else {
        None
    }
}

/// The address of a segment's first byte, where it is one: 0 to 2^64 - 1.
pub fn base_of(value: i128) -> Option<u64>
    ensures { result ≡ ranges.base_of value }
{
    if value >= 0 && value < 1 << 64 {
        Some(value as u64)
    } else {
        None
    }
}

/// How many zeros a .space of this value has behind so many zeros of the source, where there is room for them.
pub fn space_of(zeros: u32, value: i128) -> Option<u32>
    requires { zeros ≤ most_zeros }
    ensures count { result ≡ ranges.space_of zeros value }
    ensures most { IfSome result (λ n. zeros + n ≤ most_zeros) }
{
    let room = MOST_ZEROS - zeros;
    if value >= 0 && value <= i128::from(room) {
        Some(value as u32)
    } else {
        None
    }
}

/// Whether an alignment is one of the five.
fn is_alignment(value: u32) -> bool
    ensures { result ≡ ranges.is_alignment value }
{
    value == 4 || value == 8 || value == 16 || value == 4096 || value == 65536
}

/// How many zeros lead from an address to the next multiple.
fn padding(multiple: u32, at: u128) -> u32
    requires { 0 < multiple }
    ensures { result ≡ ranges.padding multiple at }
{
    let multiple = u128::from(multiple);
    ((multiple - at % multiple) % multiple) as u32
}

/// How many zeros an .align of this value has at an address behind so many zeros of the source, where it is one of the five
/// and there is room for them.
pub fn padding_of(zeros: u32, at: u128, value: i128) -> Option<u32>
    requires { zeros ≤ most_zeros }
    ensures count { result ≡ ranges.padding_of zeros at value }
    ensures most { IfSome result (λ n. zeros + n ≤ most_zeros) }
{
    if value < 0 || value > 65536 || !is_alignment(value as u32) {
        return None;
    }
    let count = padding(value as u32, at);
    if count <= MOST_ZEROS - zeros {
        Some(count)
    } else {
        None
    }
}
