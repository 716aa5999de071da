//! Reading operands.

ghost use Rattle.std.specs.Prelude.{◌≡◌, ◌≤◌, [], ◌∷◌, length};
ghost use Rattle.asm_statements.specs.Operands.{register_number, register_of, register_by, half_of, part_in, number_of, bracketed, displacement_of, operand_of, operands_of};

use crate::expression::{Expression, is_plain};
use crate::operand::{Half, Number, Operand};
use crate::operand_list::Operands;
use crate::piece::{Piece, Sign};
use crate::pieces::Pieces;
use number_text::read_number;
use operand_texts::OperandText;

/// The general register that a word names.
fn register_number(word: &[u8]) -> Option<u8>
    ensures { result ≡ register_number word.now }
{
    match word {
        [b'r', digits @ ..] => match read_number(digits, 31) {
            Some(number) => Some(number as u8),
            None => None,
        },
        _ => None,
    }
}

/// The general register that a piece names; 0 may stand for register 0.
fn register_in<'a>(piece: Piece<'a>, or_zero: bool) -> Option<u8>
    ensures { result ≡ register_by or_zero (piece.entry ∷ []) }
{
    match piece {
        Piece::Word(word) => register_number(word.bytes()),
        Piece::Number(0) => { if or_zero { Some(0) } else { None } }
        _ => None,
    }
}

/// The general register that the pieces are; 0 may stand for register 0.
fn read_register<'a>(mut pieces: Pieces<'a>, or_zero: bool) -> Option<u8>
    ensures { result ≡ register_by or_zero pieces.entry }
{
    let piece = pieces.next()?;
    if pieces.next().is_some() {
        return None;
    }
    register_in(piece, or_zero)
}

/// Which part of a value a word asks for.
fn half_of(word: &[u8]) -> Option<Half>
    ensures { result ≡ half_of word.now }
{
    match word {
        b"l" => Some(Half::Low),
        b"h" => Some(Half::High),
        b"ha" => Some(Half::Adjusted),
        _ => None,
    }
}

/// The part of a name's value that the pieces ask for, if they are a name, `@` and a word.
fn read_part<'a>(mut pieces: Pieces<'a>) -> Option<Option<Number<'a>>>
    ensures { result ≡ part_in pieces.entry }
{
    match (pieces.next(), pieces.next(), pieces.next(), pieces.next()) {
        (Some(Piece::Word(name)), Some(Piece::Sign(Sign::At)), Some(Piece::Word(half)), None) => {
            if !is_plain(name.bytes()) {
                return Some(None);
            }
            match half_of(half.bytes()) {
                Some(half) => Some(Some(Number::Part(half, name))),
                None => Some(None),
            }
        }
        _ => None,
    }
}

/// The number that the pieces are.
fn read_operand_number<'a>(pieces: Pieces<'a>) -> Option<Number<'a>>
    ensures { result ≡ number_of pieces.entry }
{
    match read_part(pieces.copy()) {
        Some(part) => part,
        None => match Expression::of(pieces) {
            Some(expression) => Some(Number::Whole(expression)),
            None => None,
        },
    }
}

/// The register behind an opening bracket, with the closing one.
fn read_bracketed<'a>(mut pieces: Pieces<'a>, or_zero: bool) -> Option<u8>
    ensures { result ≡ bracketed or_zero pieces.entry }
{
    let piece = pieces.next()?;
    match (pieces.next(), pieces.next()) {
        (Some(Piece::Sign(Sign::Close)), None) => register_in(piece, or_zero),
        _ => None,
    }
}

/// A displacement with its register in brackets.
fn read_displacement<'a>(mut pieces: Pieces<'a>, or_zero: bool) -> Option<Operand<'a>>
    ensures { result ≡ displacement_of or_zero pieces.entry }
{
    let number = read_operand_number(pieces.before_open())?;
    if !pieces.skip_past(Sign::Open) {
        return None;
    }
    let register = read_bracketed(pieces, or_zero)?;
    Some(Operand::Displacement(number, register))
}

/// The operand that the pieces are, where it is of this kind.
fn read_operand<'a>(kind: OperandText, pieces: Pieces<'a>) -> Option<Operand<'a>>
    ensures { result ≡ operand_of kind pieces.entry }
{
    match kind {
        OperandText::Register(_) => Some(Operand::Register(read_register(pieces, false)?)),
        OperandText::RegisterOrZero(_) => Some(Operand::Register(read_register(pieces, true)?)),
        OperandText::Number(_) | OperandText::Signed(_) => {
            Some(Operand::Number(read_operand_number(pieces)?))
        }
        OperandText::Displacement => read_displacement(pieces, false),
        OperandText::DisplacementOrZero => read_displacement(pieces, true),
        OperandText::Target(_) => Some(Operand::Target(Expression::of(pieces)?)),
    }
}

/// Operands of these kinds, in order, with a comma between two.
pub(crate) fn read_operands<'a>(
    kinds: &[OperandText],
    mut pieces: Pieces<'a>,
) -> Option<Operands<'a>>
    requires { length kinds.now ≤ 5 }
    ensures { result ≡ operands_of kinds.now pieces.entry }
{
    let mut found = Operands::new();
    if kinds.is_empty() {
        if pieces.next().is_some() {
            return None;
        }
        return Some(found);
    }
    let last = kinds.len() - 1;
    for kind in &kinds[..last] {
        found.push(read_operand(*kind, pieces.before_comma())?);
        if !pieces.skip_past(Sign::Comma) {
            return None;
        }
    }
    found.push(read_operand(kinds[last], pieces)?);
    Some(found)
}
