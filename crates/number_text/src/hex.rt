//! Hexadecimal numbers without sign.

ghost use Rattle.std.specs.Prelude.{◌≡◌, ◌≤◌, ◌<◌, ◌^◌, true, IfSome};
ghost use Rattle.number_text.specs.Hex as hex;
ghost use Rattle.number_text.specs.Number as number;

/// Whether a byte is a hexadecimal digit, of either case.
pub fn is_hex_digit(byte: u8) -> bool
    ensures { result ≡ hex.is_hex_digit byte }
{
    is_digit(byte) || is_low_letter(byte) || is_high_letter(byte)
}

fn is_digit(byte: u8) -> bool
    ensures { result ≡ number.is_digit byte }
{
    byte >= b'0' && byte <= b'9'
}

fn is_low_letter(byte: u8) -> bool
    ensures { result ≡ hex.is_low_letter byte }
{
    byte >= b'a' && byte <= b'f'
}

fn is_high_letter(byte: u8) -> bool
    ensures { result ≡ hex.is_high_letter byte }
{
    byte >= b'A' && byte <= b'F'
}

/// What a hexadecimal digit is worth.
fn hex_digit(byte: u8) -> u8
    requires { hex.is_hex_digit byte ≡ true }
    ensures digit { result ≡ hex.hex_digit byte }
    ensures small { result < 16 }
{
    if is_digit(byte) {
        return byte - b'0';
    }
    if is_low_letter(byte) {
        return byte - b'a' + 10;
    }
    byte - b'A' + 10
}

/// The number that the bytes are in base 16, where they are one that is not above the greatest. There may be any number
/// of digits, of either case, and the first ones may be zeros.
pub fn read_hex_up_to(bytes: &[u8], greatest: u64) -> Option<u64>
    ensures number { result ≡ hex.hex_up_to greatest bytes.now }
    ensures most { IfSome result (λ n. n ≤ greatest) }
{
    if bytes.is_empty() {
        return None;
    }
    let mut number = 0u64;
    for byte in bytes {
        if !is_hex_digit(*byte) {
            return None;
        }
        let next = 16 * u128::from(number) + u128::from(hex_digit(*byte));
        if next > u128::from(greatest) {
            return None;
        }
        number = next as u64;
    }
    Some(number)
}

/// The number that one to sixteen hexadecimal digits of either case are.
pub fn read_hex(bytes: &[u8]) -> Option<u64>
    ensures number { result ≡ hex.short_hex bytes.now }
    ensures most { IfSome result (λ n. n < 2 ^ 64) }
{
    if bytes.len() > 16 {
        return None;
    }
    read_hex_up_to(bytes, u64::MAX)
}
