//! Reading tokens one by one.

ghost use Rattle.std.specs.Prelude.{◌≡◌, ◌≤◌, ◌<◌, ◌+◌, ℕ, false, length, drop, slice_index};
ghost use Rattle.asm_lex.specs.Classes.{is_blank, is_hash};
ghost use Rattle.asm_lex.specs.Tokens.{ReadsOne, tokens_from};

use crate::classes::Class;
use crate::fault::LexFault;
use crate::lexemes::token_at;
use crate::token::Token;
use std::marker::Model;

/// A place in bytes whose tokens are read one by one. It takes no memory. Contracts see the bytes and the place.
#[derive(Drop)]
pub struct Lexer<'a> {
    bytes: &'a [u8],
    place: usize,
}

impl<'a> Model for Lexer<'a> {
    ghost use Rattle.asm_lex.specs.Tokens.{Cursor};

    ghost Value = { Cursor };

    ghost use Rattle.asm_lex.specs.Cursors.{cursor_of, IsCursor};

    ghost view = { cursor_of };

    ghost invariant = { IsCursor };
}

/// How many blanks and bytes of a comment begin the bytes.
fn gap_length(bytes: &[u8]) -> usize
    ensures gap { (place : ℕ) → tokens_from place 0 bytes.now ≡ tokens_from (place + result) 0 (drop result bytes.now) }
    ensures within { result ≤ length bytes.now }
    ensures no_blank { result < length bytes.now → is_blank (slice_index bytes.now result) ≡ false }
    ensures no_hash { result < length bytes.now → is_hash (slice_index bytes.now result) ≡ false }
{
    let blanks = Class::Blank.run(bytes);
    if blanks < bytes.len() && bytes[blanks] == b'#' {
        return blanks + Class::Comment.run(&bytes[blanks..]);
    }
    blanks
}

impl<'a> Lexer<'a> {
    /// A lexer that stands before the first of these bytes.
    pub fn new(bytes: &'a [u8]) -> Lexer<'a>
        ensures { result ≡ record { bytes = bytes.now; place = 0 } }
    {
        Lexer { bytes, place: 0 }
    }

    /// The next token, behind which the lexer then stands, or `None` where only blanks and comments are left.
    /// After `None` and after a fault it stands where it stood.
    pub fn next(&mut self) -> Result<Option<Token>, LexFault>
        ensures { ReadsOne self.old self.new result }
    {
        let from = self.place + gap_length(&self.bytes[self.place..]);
        if from == self.bytes.len() {
            return Ok(None);
        }
        match token_at(from, &self.bytes[from..]) {
            Ok(token) => {
                self.place = token.to;
                Ok(Some(token))
            }
            Err(fault) => Err(fault),
        }
    }
}
