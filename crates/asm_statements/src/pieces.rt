//! Going through the pieces of a line.

ghost use Rattle.std.specs.Prelude.{◌≡◌, ◌≤◌, ◌<◌, ◌^◌, length, true};
ghost use Rattle.asm_statements.specs.declared.piece.Sign.TheVariants as signs;
ghost use Rattle.asm_statements.specs.Pieces.{has_tokens, line_pieces, before, is_sign};
ghost use Rattle.asm_statements.specs.Cursors.{TakesFirst, Begins, SkipsPast};

use crate::piece::{Piece, Sign};
use crate::spelling::Spelling;
use asm_lex::Lexer;
use std::marker::Model;

/// The pieces of a line, or of a part of it, that are still to be read. It takes no memory. Contracts see the list of them.
#[derive(Drop)]
pub struct Pieces<'a> {
    rest: &'a [u8],
    ends_at_comma: bool,
    ends_at_open: bool,
}

impl<'a> Model for Pieces<'a> {
    ghost use Rattle.std.specs.Prelude.{List};
    ghost use Rattle.asm_statements.specs.declared.piece.Piece.{Piece};

    ghost Value = { List Piece };

    ghost use Rattle.asm_statements.specs.Cursors.{pieces_left, HasTokens};

    ghost view = { pieces_left };

    ghost invariant = { HasTokens };
}

/// Whether all bytes of a line stand in tokens or between them.
fn has_tokens(line: &[u8]) -> bool
    ensures { result ≡ has_tokens line.now }
{
    let mut lexer = Lexer::new(line);
    loop {
        match lexer.next() {
            Ok(Some(_token)) => {}
            Ok(None) => return true,
            Err(_fault) => return false,
        }
    }
}

/// The first piece of bytes, and the bytes behind it.
#[derive(Drop)]
struct First<'a> {
    piece: Piece<'a>,
    after: Spelling<'a>,
}

/// The first piece of bytes that have tokens, and the bytes behind it.
fn front<'a>(rest: &'a [u8]) -> Option<First<'a>>
    requires { has_tokens rest.now ≡ true }
    ensures { Begins rest.now result }
{
    match Lexer::new(rest).next() {
        Ok(Some(token)) => match Piece::of(token.kind, &rest[token.from..token.to]) {
            Some(piece) => Some(First {
                piece,
                after: Spelling::of(&rest[token.to..]),
            }),
            None => None,
        },
        _ => None,
    }
}

impl<'a> Pieces<'a> {
    /// The pieces of a line without its newline, or `None` where a byte of it stands in no token.
    pub fn of_line(line: &'a [u8]) -> Option<Pieces<'a>>
        ensures { result ≡ line_pieces line.now }
    {
        if !has_tokens(line) {
            return None;
        }
        Some(Pieces {
            rest: line,
            ends_at_comma: false,
            ends_at_open: false,
        })
    }

    /// The next piece, which is then no longer there, or `None` where no piece is left.
    pub fn next(&mut self) -> Option<Piece<'a>>
        ensures { TakesFirst self.old self.new result }
    {
        match front(self.rest) {
            Some(First { piece, after }) => {
                if (self.ends_at_comma && piece.is(Sign::Comma))
                    || (self.ends_at_open && piece.is(Sign::Open))
                {
                    return None;
                }
                self.rest = after.bytes();
                Some(piece)
            }
            None => None,
        }
    }

    /// The same pieces once more.
    pub fn copy(&self) -> Pieces<'a>
        ensures { result ≡ self.now }
    {
        Pieces {
            rest: self.rest,
            ends_at_comma: self.ends_at_comma,
            ends_at_open: self.ends_at_open,
        }
    }

    /// The pieces before the first comma.
    pub fn before_comma(&self) -> Pieces<'a>
        ensures { result ≡ before signs.Comma self.now }
    {
        Pieces {
            rest: self.rest,
            ends_at_comma: true,
            ends_at_open: self.ends_at_open,
        }
    }

    /// The pieces before the first opening bracket.
    pub fn before_open(&self) -> Pieces<'a>
        ensures { result ≡ before signs.Open self.now }
    {
        Pieces {
            rest: self.rest,
            ends_at_comma: self.ends_at_comma,
            ends_at_open: true,
        }
    }

    /// Goes behind the first piece that is this sign, where there is one, and says whether there was one. Where there is none,
    /// no piece is left.
    pub fn skip_past(&mut self, sign: Sign) -> bool
        ensures { SkipsPast sign self.old self.new result }
    {
        loop {
            match self.next() {
                Some(piece) => {
                    if piece.is(sign) {
                        return true;
                    }
                }
                None => return false,
            }
        }
    }

    /// How many bytes are left, of which each piece takes one or more.
    pub(crate) fn byte_count(&self) -> usize
        ensures pieces { length self.now ≤ result }
        ensures few { result < 2 ^ 63 }
    {
        self.rest.len()
    }
}
