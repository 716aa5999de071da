//! The token at a place: as long as it can be.

ghost use Rattle.std.specs.Prelude.{◌≡◌, ◌<◌, ◌≤◌, ◌+◌, ◌^◌, true, false, length, drop, slice_index, IfOk};
ghost use Rattle.number_text.specs.Number as number;
ghost use Rattle.asm_lex.specs.Classes as said;
ghost use Rattle.asm_lex.specs.Fronts.{hex_length, begins_word};
ghost use Rattle.asm_lex.specs.Tokens.{number_token, token, token_at, dots_before};

use crate::classes::{
    Class, is_digit, is_dot, is_name_start, is_newline_byte, is_quote, is_sign_byte,
};
use crate::fault::LexFault;
use crate::token::{Token, TokenKind};
use number_text::{read_hex_up_to, read_number};

/// The most bytes of a name.
const NAME_MAX: usize = 32;

/// The number token of so many bytes from a place on, where the number is below 2^64.
fn number_token(place: usize, len: usize, value: Option<u64>) -> Result<Token, LexFault>
    requires { place + len < 2 ^ 64 }
    ensures { result ≡ number_token place len value }
{
    match value {
        Some(value) => Ok(token(TokenKind::Number(value), place, len)),
        None => Err(LexFault::NumberTooWide(place)),
    }
}

/// The token of so many bytes from a place on.
fn token(kind: TokenKind, place: usize, len: usize) -> Token
    requires { place + len < 2 ^ 64 }
    ensures { result ≡ token kind place len }
{
    Token {
        kind,
        from: place,
        to: place + len,
    }
}

/// How many of two bytes `0x` and the hexadecimal digits behind them there are; 0 without a digit.
fn hex_length(bytes: &[u8]) -> usize
    ensures length { result ≡ hex_length bytes.now }
    ensures within { result ≤ length bytes.now }
{
    match bytes {
        [b'0', b'x', digits @ ..] => {
            let count = Class::HexDigit.run(digits);
            if count > 0 { count + 2 } else { 0 }
        }
        _ => 0,
    }
}

/// The number that begins bytes with a digit.
fn number_at(place: usize, bytes: &[u8]) -> Result<Token, LexFault>
    requires room { place + length bytes.now < 2 ^ 64 }
    requires some { 0 < length bytes.now }
    requires digit { number.is_digit (slice_index bytes.now 0) ≡ true }
    ensures { result ≡ token_at place bytes.now }
{
    let hex = hex_length(bytes);
    if hex > 0 {
        return number_token(place, hex, read_hex_up_to(&bytes[2..hex], u64::MAX));
    }
    if bytes[0] == b'0' {
        return number_token(place, 1, Some(0));
    }
    let count = Class::Digit.run(bytes);
    number_token(place, count, read_number(&bytes[..count], u64::MAX))
}

/// How many dots begin the bytes, at most one.
fn dots_before(bytes: &[u8]) -> usize
    ensures dots { result ≡ dots_before bytes.now }
    ensures within { result ≤ length bytes.now }
{
    match bytes {
        [b'.', ..] => 1,
        _ => 0,
    }
}

/// Whether the bytes begin a name, perhaps after a dot.
fn begins_word(bytes: &[u8]) -> bool
    ensures { result ≡ begins_word bytes.now }
{
    match &bytes[dots_before(bytes)..] {
        [byte, ..] => is_name_start(*byte),
        [] => false,
    }
}

/// The word that begins bytes which begin one.
fn word_at(place: usize, bytes: &[u8]) -> Result<Token, LexFault>
    requires room { place + length bytes.now < 2 ^ 64 }
    requires word { begins_word bytes.now ≡ true }
    ensures { result ≡ token_at place bytes.now }
{
    let dots = dots_before(bytes);
    let count = Class::Name.run(&bytes[dots..]);
    if count > NAME_MAX {
        return Err(LexFault::BadByte(place + dots + NAME_MAX));
    }
    let end = dots + count;
    let len = end + dots_before(&bytes[end..]);
    Ok(token(TokenKind::Word, place, len))
}

/// The text that begins bytes with a quote.
fn text_at(place: usize, bytes: &[u8]) -> Result<Token, LexFault>
    requires room { place + length bytes.now < 2 ^ 64 }
    requires some { 0 < length bytes.now }
    requires quote { said.is_quote (slice_index bytes.now 0) ≡ true }
    ensures { result ≡ token_at place bytes.now }
{
    let count = Class::Text.run(&bytes[1..]);
    let end = 1 + count;
    if end < bytes.len() && is_quote(bytes[end]) {
        return Ok(token(TokenKind::Text, place, end + 1));
    }
    Err(LexFault::BadByte(place))
}

/// The token that begins the bytes, which stand from a place on.
pub(crate) fn token_at(place: usize, bytes: &[u8]) -> Result<Token, LexFault>
    requires room { place + length bytes.now < 2 ^ 64 }
    requires some { 0 < length bytes.now }
    ensures { result ≡ token_at place bytes.now }
{
    let first = bytes[0];
    if is_digit(first) {
        return number_at(place, bytes);
    }
    if begins_word(bytes) {
        return word_at(place, bytes);
    }
    if is_quote(first) {
        return text_at(place, bytes);
    }
    if is_sign_byte(first) {
        return Ok(token(TokenKind::Sign, place, 1));
    }
    if is_newline_byte(first) {
        return Ok(token(TokenKind::Newline, place, 1));
    }
    Err(LexFault::BadByte(place))
}
