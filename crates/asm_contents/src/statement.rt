//! What a statement puts into memory.

ghost use Rattle.std.specs.Prelude.{◌≡◌, ◌<◌, ◌≤◌, ◌^◌, pos, option_map};
ghost use Rattle.asm_contents.specs.declared.content.Content.TheVariants.{Zeros};
ghost use Rattle.asm_places.specs.Places.{here_of};
ghost use Rattle.asm_places.specs.Ranges.{most_zeros};
ghost use Rattle.asm_places.specs.Sums.{total};
ghost use Rattle.asm_contents.specs.Contents as said;

use crate::content::Content;
use crate::numbers::{low_32, low_64};
use crate::values::line_word;
use asm_places::{Names, Places, base_of, in_range, padding_of, space_of, worth_of};
use asm_statements::{Expression, Spelling, Statement, Width};

/// What an expression is worth at the address of a statement, where all its names are defined.
fn value_at<'a>(names: &Names<'a>, at: &Places<'a>, expression: &Expression<'a>) -> i128
    requires { here_of at.now < 2 ^ 65 }
    ensures { result ≡ total names.now (pos (here_of at.now)) expression.now }
{
    worth_of(expression.copy(), names, names.len(), at.here() as i128).value
}

/// A number in memory, where it is in its range.
fn data_content<'a>(width: Width, value: i128) -> Option<Content<'a>>
    ensures { result ≡ said.data_content width value }
{
    match width {
        Width::Word => {
            if value >= -(1 << 31) && value < 1 << 32 {
                Some(Content::Word(low_32(value)))
            } else {
                None
            }
        }
        Width::Doubleword => match in_range(value) {
            Some(value) => Some(Content::Doubleword(low_64(value))),
            None => None,
        },
        Width::BigEndianDoubleword => match in_range(value) {
            Some(value) => Some(Content::BigEndianDoubleword(low_64(value))),
            None => None,
        },
    }
}

/// So many zeros, where there are as many.
fn zeros<'a>(count: Option<u32>) -> Option<Content<'a>>
    ensures { result ≡ option_map Zeros count }
{
    match count {
        Some(count) => Some(Content::Zeros(count)),
        None => None,
    }
}

/// What a statement puts into memory, or `None` where a number in it is out of range.
pub(crate) fn statement_content<'a>(
    names: &Names<'a>,
    at: &Places<'a>,
    statement: &Statement<'a>,
) -> Option<Content<'a>>
    requires here { here_of at.now < 2 ^ 65 }
    requires zeros { at.now.zeros ≤ most_zeros }
    ensures { result ≡ said.statement_content names.now at.now statement.now }
{
    match statement {
        Statement::Seg(expression) => {
            match base_of(value_at(&at.names, at, expression)) {
                Some(_base) => Some(Content::Nothing),
                None => None,
            }
        }
        Statement::Entry(_name) => Some(Content::Nothing),
        Statement::Equ(_name, expression) => {
            match in_range(value_at(&at.names, at, expression)) {
                Some(_value) => Some(Content::Nothing),
                None => None,
            }
        }
        Statement::Data(width, expression) => {
            data_content(*width, value_at(names, at, expression))
        }
        Statement::Ascii(text) => Some(Content::Text(Spelling::of(text.bytes()))),
        Statement::Space(expression) => {
            zeros(space_of(at.zeros, value_at(&at.names, at, expression)))
        }
        Statement::Align(expression) => {
            zeros(padding_of(at.zeros, at.here(), value_at(&at.names, at, expression)))
        }
        Statement::Instruction(mnemonic, operands) => {
            match line_word(names, at.here() as i128, *mnemonic, operands.as_slice()) {
                Some(word) => Some(Content::Word(word)),
                None => None,
            }
        }
    }
}
