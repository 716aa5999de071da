//! Pieces of a line: its tokens with what they say.

ghost use Rattle.std.specs.Prelude.{◌≡◌};
ghost use Rattle.asm_statements.specs.Pieces.{sign_of, without_quotes, piece_as, is_sign};

use crate::spelling::Spelling;
use asm_lex::TokenKind;

/// A sign of the language.
#[derive(Clone, Copy, Debug, PartialEq, Eq)]
pub enum Sign {
    /// `:`, behind a label.
    Colon,
    /// `,`, between operands.
    Comma,
    /// `+`.
    Plus,
    /// `-`.
    Minus,
    /// `.`, the address of the statement.
    Dot,
    /// `@`, between a name and the part of its value that is asked for.
    At,
    /// `(`, before a displacement's register.
    Open,
    /// `)`, behind a displacement's register.
    Close,
}

/// A piece of a line.
#[derive(Debug, Drop)]
pub enum Piece<'a> {
    /// A number.
    Number(u64),
    /// A word: a name, perhaps with a dot directly before it and one directly after it.
    Word(Spelling<'a>),
    /// A text, without its quotes.
    Text(Spelling<'a>),
    /// A sign.
    Sign(Sign),
}

/// The sign that a byte is, where it is one.
fn sign_of(byte: u8) -> Sign
    ensures { result ≡ sign_of byte }
{
    match byte {
        b':' => Sign::Colon,
        b',' => Sign::Comma,
        b'+' => Sign::Plus,
        b'-' => Sign::Minus,
        b'.' => Sign::Dot,
        b'@' => Sign::At,
        b'(' => Sign::Open,
        _ => Sign::Close,
    }
}

/// The bytes of a text between its quotes.
fn without_quotes(text: &[u8]) -> &[u8]
    ensures { result.now ≡ without_quotes text.now }
{
    if text.len() < 2 {
        return &text[..0];
    }
    &text[1..text.len() - 1]
}

impl<'a> Piece<'a> {
    /// The piece that a token of this kind with these bytes is; a newline is none.
    pub(crate) fn of(kind: TokenKind, bytes: &'a [u8]) -> Option<Piece<'a>>
        ensures { result ≡ piece_as kind bytes.now }
    {
        match kind {
            TokenKind::Number(n) => Some(Piece::Number(n)),
            TokenKind::Word => Some(Piece::Word(Spelling::of(bytes))),
            TokenKind::Text => Some(Piece::Text(Spelling::of(without_quotes(bytes)))),
            TokenKind::Sign => match bytes.first() {
                Some(byte) => Some(Piece::Sign(sign_of(*byte))),
                None => None,
            },
            TokenKind::Newline => None,
        }
    }

    /// Whether the piece is this sign.
    pub(crate) fn is(&self, sign: Sign) -> bool
        ensures { result ≡ is_sign sign self.now }
    {
        match self {
            Piece::Sign(own) => *own == sign,
            _ => false,
        }
    }
}
