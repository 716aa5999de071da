//! Which bytes stand in names, texts, signs, gaps and comments.

ghost use Rattle.std.specs.Prelude.{◌≡◌, ◌≤◌, length};
ghost use Rattle.asm_lex.specs.Classes as said;
ghost use Rattle.number_text.specs.Number as number;

use number_text::is_hex_digit;

/// Bytes that stand one after another in a token or between tokens.
#[derive(Clone, Copy, Debug, PartialEq, Eq)]
pub enum Class {
    /// Decimal digits.
    Digit,
    /// Hexadecimal digits.
    HexDigit,
    /// Letters, digits and `_`.
    Name,
    /// The bytes of a text.
    Text,
    /// Spaces and tabs.
    Blank,
    /// All but a newline.
    Comment,
}

pub(crate) fn is_digit(byte: u8) -> bool
    ensures { result ≡ number.is_digit byte }
{
    byte >= b'0' && byte <= b'9'
}

pub(crate) fn is_name_start(byte: u8) -> bool
    ensures { result ≡ said.is_name_start byte }
{
    (byte >= b'a' && byte <= b'z') || (byte >= b'A' && byte <= b'Z') || byte == b'_'
}

fn is_text_byte(byte: u8) -> bool
    ensures { result ≡ said.is_text_byte byte }
{
    byte >= 32 && byte <= 126 && byte != b'"' && byte != b'\\'
}

pub(crate) fn is_dot(byte: u8) -> bool
    ensures { result ≡ said.is_dot byte }
{
    byte == b'.'
}

pub(crate) fn is_quote(byte: u8) -> bool
    ensures { result ≡ said.is_quote byte }
{
    byte == b'"'
}

pub(crate) fn is_sign_byte(byte: u8) -> bool
    ensures { result ≡ said.is_sign_byte byte }
{
    matches!(byte, b':' | b',' | b'+' | b'-' | b'.' | b'@' | b'(' | b')')
}

pub(crate) fn is_newline_byte(byte: u8) -> bool
    ensures { result ≡ said.is_newline_byte byte }
{
    byte == b'\n'
}

fn is_blank(byte: u8) -> bool
    ensures { result ≡ said.is_blank byte }
{
    byte == b' ' || byte == b'\t'
}

pub(crate) fn is_hash(byte: u8) -> bool
    ensures { result ≡ said.is_hash byte }
{
    byte == b'#'
}

impl Class {
    /// Whether a byte is of the class.
    fn has(self, byte: u8) -> bool
        ensures { result ≡ said.is_of self byte }
    {
        match self {
            Class::Digit => is_digit(byte),
            Class::HexDigit => is_hex_digit(byte),
            Class::Name => is_name_start(byte) || is_digit(byte),
            Class::Text => is_text_byte(byte),
            Class::Blank => is_blank(byte),
            Class::Comment => !is_newline_byte(byte),
        }
    }

    /// How many bytes at the beginning are of the class.
    pub(crate) fn run(self, bytes: &[u8]) -> usize
        ensures run { result ≡ said.run self bytes.now }
        ensures within { result ≤ length bytes.now }
    {
        for (i, byte) in bytes.iter().enumerate() {
            if !self.has(*byte) {
                return i;
            }
        }
        bytes.len()
    }
}
