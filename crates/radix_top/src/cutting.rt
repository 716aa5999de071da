//! Words that are cut into a name and an address.

ghost use Rattle.std.specs.Prelude.{◌≡◌, ◌+◌, ◌<◌, drop, length, IfSome};
ghost use Rattle.radix_top.specs.Words.{last_at, guest_of};

use crate::guest_words::GuestWord;
use number_text::read_hex;

/// The place of the last `@`.
fn last_at(bytes: &[u8]) -> Option<usize>
    ensures last { result ≡ last_at bytes.now (length bytes.now) }
    ensures inside { IfSome result (λ n. n < length bytes.now) }
{
    let mut found = None;
    for (i, byte) in bytes.iter().enumerate() {
        if *byte == b'@' {
            found = Some(i);
        }
    }
    found
}

/// The bytes behind one at a place.
fn behind(bytes: &[u8], place: usize) -> &[u8]
    requires { place < length bytes.now }
    ensures { result.now ≡ drop (place + 1) bytes.now }
{
    &bytes[place + 1..]
}

/// The guest that the word with this number names, or `None` where it is not `FILE@HEX`: it is cut at its last `@`, FILE is
/// not empty, and HEX has one to sixteen hexadecimal digits of either case.
pub(crate) fn read_guest(place: usize, word: &String) -> Option<GuestWord>
    ensures { result ≡ guest_of place word.now }
{
    let bytes = word.as_str().as_bytes();
    match last_at(bytes) {
        None | Some(0) => None,
        Some(name_len) => {
            let at = read_hex(behind(bytes, name_len))?;
            Some(GuestWord {
                place,
                name_len,
                at,
            })
        }
    }
}
