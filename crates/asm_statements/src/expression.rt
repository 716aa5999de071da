//! Expressions: terms joined by plus and minus.

ghost use Rattle.std.specs.Prelude.{◌≡◌, ◌<◌, ◌≤◌, ◌+◌, ◌*◌, ◌^◌, length};
ghost use Rattle.asm_statements.specs.Expressions.{is_plain, atom_of, terms_of};
ghost use Rattle.asm_statements.specs.Cursors.{TakesFirst};
ghost use Rattle.asm_statements.specs.Readings.{ReadsTerm, IsNext, term_behind};

use crate::piece::{Piece, Sign};
use crate::pieces::Pieces;
use crate::spelling::Spelling;
use std::marker::Model;

/// What a term names.
#[derive(Debug, Drop)]
pub enum Atom<'a> {
    /// A number.
    Number(u64),
    /// The value of a name.
    Name(Spelling<'a>),
    /// The address of the statement, written `.`.
    Here,
}

/// A term of an expression.
#[derive(Debug, Drop)]
pub struct Term<'a> {
    /// Whether it is taken away.
    pub negative: bool,
    /// What it names.
    pub atom: Atom<'a>,
}

/// An expression, whose terms are read one by one. It takes no memory. Contracts see the list of the terms that are left.
#[derive(Drop)]
pub struct Expression<'a> {
    pieces: Pieces<'a>,
    is_first: bool,
}

impl<'a> Model for Expression<'a> {
    ghost use Rattle.std.specs.Prelude.{List};
    ghost use Rattle.asm_statements.specs.declared.expression.Term.{Term};

    ghost Value = { List Term };

    ghost use Rattle.asm_statements.specs.Readings.{terms_left, IsExpression};

    ghost view = { terms_left };

    ghost invariant = { IsExpression };
}

/// What reading one term gives.
#[derive(Drop)]
enum TermRead<'a> {
    Next(Term<'a>),
    End,
    Wrong,
}

/// Whether a word is a name: no dot stands before it or behind it.
pub(crate) fn is_plain(word: &[u8]) -> bool
    ensures { result ≡ is_plain word.now }
{
    match (word.first(), word.last()) {
        (Some(first), Some(last)) => *first != b'.' && *last != b'.',
        _ => false,
    }
}

/// What a piece names as a term.
fn atom_of<'a>(piece: Piece<'a>) -> Option<Atom<'a>>
    ensures { result ≡ atom_of piece.entry }
{
    match piece {
        Piece::Number(number) => Some(Atom::Number(number)),
        Piece::Word(word) => {
            if is_plain(word.bytes()) {
                Some(Atom::Name(word))
            } else {
                None
            }
        }
        Piece::Sign(Sign::Dot) => Some(Atom::Here),
        _ => None,
    }
}

/// The term behind its sign.
fn term_behind<'a>(negative: bool, piece: Option<Piece<'a>>) -> TermRead<'a>
    ensures { result ≡ term_behind negative piece.entry }
{
    match piece {
        Some(piece) => match atom_of(piece) {
            Some(atom) => TermRead::Next(Term { negative, atom }),
            None => TermRead::Wrong,
        },
        None => TermRead::Wrong,
    }
}

/// Reads a term. The sign of the first may be left out where it is a plus.
fn read_term<'a>(pieces: &mut Pieces<'a>, is_first: bool) -> TermRead<'a>
    ensures reads { ReadsTerm is_first pieces.old pieces.new result }
    ensures shorter { length pieces.new ≤ length pieces.old }
    ensures taken { IsNext result → length pieces.new < length pieces.old }
{
    match pieces.next() {
        Some(Piece::Sign(Sign::Minus)) => term_behind(true, pieces.next()),
        Some(Piece::Sign(Sign::Plus)) => {
            if is_first {
                return TermRead::Wrong;
            }
            term_behind(false, pieces.next())
        }
        Some(piece) => {
            if is_first {
                return term_behind(false, Some(piece));
            }
            TermRead::Wrong
        }
        None => {
            if is_first {
                return TermRead::Wrong;
            }
            TermRead::End
        }
    }
}

impl<'a> Expression<'a> {
    /// The expression that the pieces are, or `None` where they are none.
    pub fn of(pieces: Pieces<'a>) -> Option<Expression<'a>>
        ensures { result ≡ terms_of pieces.entry }
    {
        let mut rest = pieces.copy();
        let mut is_first = true;
        loop {
            match read_term(&mut rest, is_first) {
                TermRead::Next(_term) => is_first = false,
                TermRead::End => break,
                TermRead::Wrong => return None,
            }
        }
        Some(Expression {
            pieces,
            is_first: true,
        })
    }

    /// The next term, which is then no longer there, or `None` where no term is left.
    pub fn next(&mut self) -> Option<Term<'a>>
        ensures { TakesFirst self.old self.new result }
    {
        match read_term(&mut self.pieces, self.is_first) {
            TermRead::Next(term) => {
                self.is_first = false;
                Some(term)
            }
            _ => None,
        }
    }

    /// The same expression once more.
    pub fn copy(&self) -> Expression<'a>
        ensures { result ≡ self.now }
    {
        Expression {
            pieces: self.pieces.copy(),
            is_first: self.is_first,
        }
    }

    /// How many bytes the terms that are left were read from, or more. Each term takes one or more, and so does the sign
    /// between two.
    pub fn byte_count(&self) -> usize
        ensures terms { 2 * length self.now ≤ result + 1 }
        ensures few { result < 2 ^ 63 }
    {
        self.pieces.byte_count()
    }
}
