//! Decimal numbers without sign and leading zero.

ghost use Rattle.std.specs.Prelude.{◌≡◌, ◌≤◌, IfSome};
ghost use Rattle.number_text.specs.Number.{number_up_to};

/// The number that the bytes are in decimal, where they are one that is not above the greatest. A sign or a
/// leading zero is no part of a number.
pub fn read_number(bytes: &[u8], greatest: u64) -> Option<u64>
    ensures number { result ≡ number_up_to greatest bytes.now }
    ensures most { IfSome result (λ n. n ≤ greatest) }
{
    if bytes.is_empty() {
        return None;
    }
    if bytes.len() > 1 && bytes[0] == b'0' {
        return None;
    }
    let mut number = 0u64;
    for byte in bytes {
        if !byte.is_ascii_digit() {
            return None;
        }
        let next = 10 * u128::from(number) + u128::from(*byte - b'0');
        if next > u128::from(greatest) {
            return None;
        }
        number = next as u64;
    }
    Some(number)
}
