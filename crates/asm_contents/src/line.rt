//! What a line puts into memory, or what is wrong with it.

ghost use Rattle.std.specs.Prelude.{◌≡◌, ◌<◌, ◌≤◌, ◌^◌, length};
ghost use Rattle.asm_places.specs.Places.{here_of};
ghost use Rattle.asm_places.specs.Ranges.{most_zeros};
ghost use Rattle.asm_contents.specs.Contents as said;

use crate::content::Content;
use crate::known::is_known;
use crate::overlap::segment_kind;
use crate::statement::statement_content;
use asm_places::{AsmKind, Places};
use asm_statements::Statement;

/// Whether no byte stands at 2^64 or above, of so many from an address on.
fn ends_below(here: u128, size: usize) -> bool
    requires { here < 2 ^ 65 }
    ensures { result ≡ said.ends_below here size }
{
    size == 0 || here + size as u128 <= 1 << 64
}

/// What is wrong with the segment that the statement begins, where it is a .seg.
fn begun_kind<'a>(whole: &Places<'a>, at: &Places<'a>, statement: &Statement<'a>) -> Option<AsmKind>
    ensures { result ≡ said.begun_kind whole.now.segments at.now statement.now }
{
    match statement {
        Statement::Seg(_expression) => {
            segment_kind(whole.segments.as_slice(), at.segments.as_slice().len())
        }
        _ => None,
    }
}

/// What the line with this statement puts into memory at its place, or the first that is wrong with it, in the order of the
/// kinds: a name in it is not defined, a number or a byte is out of range, or its segment meets another or is one too many.
/// `whole` are the places behind all lines of the source, `at` those at the statement.
pub fn content_of<'a>(
    whole: &Places<'a>,
    at: &Places<'a>,
    statement: &Option<Statement<'a>>,
) -> Result<Content<'a>, AsmKind>
    requires here { here_of at.now < 2 ^ 65 }
    requires zeros { at.now.zeros ≤ most_zeros }
    ensures { result ≡ said.content_or_kind whole.now at.now statement.now }
{
    let Some(statement) = statement else {
        return Ok(Content::Nothing);
    };
    if !is_known(&whole.names, at, statement) {
        return Err(AsmKind::Unknown);
    }
    let Some(content) = statement_content(&whole.names, at, statement) else {
        return Err(AsmKind::Range);
    };
    if !ends_below(at.here(), content.size()) {
        return Err(AsmKind::Range);
    }
    match begun_kind(whole, at, statement) {
        Some(kind) => Err(kind),
        None => Ok(content),
    }
}
