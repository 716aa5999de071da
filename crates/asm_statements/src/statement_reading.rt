//! Reading statements.

ghost use Rattle.std.specs.Prelude.{◌≡◌};
ghost use Rattle.std.specs.Str.{bytes_eq};
ghost use Rattle.asm_statements.specs.Statements.{directive_of, name_in, text_in, definition_in, directive_in, instruction_in, statement_of};

use crate::expression::{Expression, is_plain};
use crate::mnemonic::mnemonic_of;
use crate::operand_reading::read_operands;
use crate::piece::{Piece, Sign};
use crate::pieces::Pieces;
use crate::spelling::Spelling;
use crate::statement::{Directive, Statement, Width};
use operand_texts::{Mnemonic, operands};

/// Whether a word is spelled so.
fn is_spelled(word: &[u8], name: &str) -> bool
    ensures { result ≡ bytes_eq word.now name.now }
{
    word == name.as_bytes()
}

/// The directive that a word names.
fn directive_of(word: &[u8]) -> Option<Directive>
    ensures { result ≡ directive_of word.now }
{
    if is_spelled(word, ".seg") {
        return Some(Directive::Seg);
    }
    if is_spelled(word, ".entry") {
        return Some(Directive::Entry);
    }
    if is_spelled(word, ".equ") {
        return Some(Directive::Equ);
    }
    if is_spelled(word, ".word") {
        return Some(Directive::Word);
    }
    if is_spelled(word, ".dword") {
        return Some(Directive::Dword);
    }
    if is_spelled(word, ".bedword") {
        return Some(Directive::Bedword);
    }
    if is_spelled(word, ".ascii") {
        return Some(Directive::Ascii);
    }
    if is_spelled(word, ".space") {
        return Some(Directive::Space);
    }
    if is_spelled(word, ".align") {
        return Some(Directive::Align);
    }
    None
}

/// The name that the pieces are.
fn name_in<'a>(mut pieces: Pieces<'a>) -> Option<Spelling<'a>>
    ensures { result ≡ name_in pieces.entry }
{
    match (pieces.next(), pieces.next()) {
        (Some(Piece::Word(word)), None) => {
            if is_plain(word.bytes()) {
                Some(word)
            } else {
                None
            }
        }
        _ => None,
    }
}

/// The text that the pieces are.
fn text_in<'a>(mut pieces: Pieces<'a>) -> Option<Spelling<'a>>
    ensures { result ≡ text_in pieces.entry }
{
    match (pieces.next(), pieces.next()) {
        (Some(Piece::Text(text)), None) => Some(text),
        _ => None,
    }
}

/// A name, a comma and an expression.
fn read_definition<'a>(mut pieces: Pieces<'a>) -> Option<Statement<'a>>
    ensures { result ≡ definition_in pieces.entry }
{
    match (pieces.next(), pieces.next()) {
        (Some(Piece::Word(word)), Some(Piece::Sign(Sign::Comma))) => {
            if is_plain(word.bytes()) {
                Some(Statement::Equ(word, Expression::of(pieces)?))
            } else {
                None
            }
        }
        _ => None,
    }
}

/// A directive with what stands behind its word.
fn read_directive<'a>(directive: Directive, pieces: Pieces<'a>) -> Option<Statement<'a>>
    ensures { result ≡ directive_in directive pieces.entry }
{
    match directive {
        Directive::Seg => Some(Statement::Seg(Expression::of(pieces)?)),
        Directive::Entry => Some(Statement::Entry(name_in(pieces)?)),
        Directive::Equ => read_definition(pieces),
        Directive::Word => Some(Statement::Data(Width::Word, Expression::of(pieces)?)),
        Directive::Dword => Some(Statement::Data(Width::Doubleword, Expression::of(pieces)?)),
        Directive::Bedword => Some(Statement::Data(
            Width::BigEndianDoubleword,
            Expression::of(pieces)?,
        )),
        Directive::Ascii => Some(Statement::Ascii(text_in(pieces)?)),
        Directive::Space => Some(Statement::Space(Expression::of(pieces)?)),
        Directive::Align => Some(Statement::Align(Expression::of(pieces)?)),
    }
}

/// The instruction with its operands.
fn read_instruction<'a>(mnemonic: Mnemonic, pieces: Pieces<'a>) -> Option<Statement<'a>>
    ensures { result ≡ instruction_in pieces.entry mnemonic }
{
    let found = read_operands(operands(mnemonic.op), pieces)?;
    Some(Statement::Instruction(mnemonic, found))
}

/// The statement that the pieces are.
pub(crate) fn read_statement<'a>(mut pieces: Pieces<'a>) -> Option<Statement<'a>>
    ensures { result ≡ statement_of pieces.entry }
{
    match pieces.next() {
        Some(Piece::Word(word)) => match directive_of(word.bytes()) {
            Some(directive) => read_directive(directive, pieces),
            None => read_instruction(mnemonic_of(word.bytes())?, pieces),
        },
        _ => None,
    }
}
