//! Lines.

ghost use Rattle.std.specs.Prelude.{◌≡◌};
ghost use Rattle.asm_statements.specs.Statements.{behind_label, line_of};

use crate::expression::is_plain;
use crate::piece::{Piece, Sign};
use crate::pieces::Pieces;
use crate::spelling::Spelling;
use crate::statement::Statement;
use crate::statement_reading::read_statement;

/// What stands on a line beside a comment.
#[derive(Drop)]
pub struct Line<'a> {
    /// The label, where there is one.
    pub label: Option<Spelling<'a>>,
    /// The statement, where there is one.
    pub statement: Option<Statement<'a>>,
}

/// What stands behind a label, or where it may stand.
fn read_behind_label<'a>(label: Option<Spelling<'a>>, pieces: Pieces<'a>) -> Option<Line<'a>>
    ensures { result ≡ behind_label label.entry pieces.entry }
{
    if pieces.copy().next().is_none() {
        return Some(Line {
            label,
            statement: None,
        });
    }
    let statement = read_statement(pieces)?;
    Some(Line {
        label,
        statement: Some(statement),
    })
}

/// The label and the statement of a line, or `None` where the pieces are no line of the language.
pub fn read_line<'a>(pieces: Pieces<'a>) -> Option<Line<'a>>
    ensures { result ≡ line_of pieces.entry }
{
    let mut behind = pieces.copy();
    match (behind.next(), behind.next()) {
        (Some(Piece::Word(word)), Some(Piece::Sign(Sign::Colon))) => {
            if is_plain(word.bytes()) {
                read_behind_label(Some(word), behind)
            } else {
                None
            }
        }
        _ => read_behind_label(None, pieces),
    }
}
