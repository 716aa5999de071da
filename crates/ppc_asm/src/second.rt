//! The second pass over a source.

ghost use Rattle.std.specs.Prelude.{◌≡◌, ◌<◌, ◌≤◌, ◌^◌, Ok, length};
ghost use Rattle.asm_places.specs.FirstPass.{first_pass, at_place};
ghost use Rattle.asm_places.specs.Places.{here_of};
ghost use Rattle.asm_places.specs.Ranges.{most_zeros};
ghost use Rattle.ppc_asm.specs.Filling.{AddsLine, Fills, EndsAlike, HasRoom};

use crate::filling::Filling;
use asm_contents::content_of;
use asm_places::{AsmFault, Places, behind_line, line_length, place_line};
use asm_statements::Statement;
use std::alloc::Global;

/// How many bytes the segment that begins at these places will have.
fn size_to_come<'a>(whole: &Places<'a>, at: &Places<'a>) -> usize {
    match whole.segments.as_slice().get(at.segments.as_slice().len()) {
        Some(segment) => segment.size as usize,
        None => 0,
    }
}

/// Adds what a line puts into memory, or says what is wrong with it.
fn add_line<'a>(
    filling: &mut Filling,
    alloc: Global,
    whole: &Places<'a>,
    at: &Places<'a>,
    number: u32,
    statement: &Option<Statement<'a>>,
) -> Result<(), AsmFault>
    requires here { here_of at.now < 2 ^ 65 }
    requires zeros { at.now.zeros ≤ most_zeros }
    requires ends { EndsAlike at.now.segments filling.old.last }
    requires below { HasRoom 0 filling.old.last }
    ensures { AddsLine whole.now (at_place number statement.now at.now) filling.old filling.new result }
{
    match content_of(whole, at, statement) {
        Ok(content) => match statement {
            Some(Statement::Seg(expression)) => {
                filling.begin(alloc, at.base(expression), size_to_come(whole, at))?;
            }
            _ => filling.add(&content)?,
        },
        Err(kind) => return Err(AsmFault::At { line: number, kind }),
    }
    Ok(())
}

/// Goes through the lines of a source a second time, by the places behind all of them. Answers the segments with their bytes, or
/// the first line that is wrong once all names are known. `Memory` may come at any source, and says nothing of it.
pub(crate) fn second_pass<'a>(
    alloc: Global,
    bytes: &'a [u8],
    whole: &Places<'a>,
) -> Result<Filling, AsmFault>
    requires { first_pass bytes.now ≡ Ok whole.now }
    ensures { Fills bytes.now whole.now result }
{
    let mut places = Places::new(alloc);
    let mut filling = Filling::new(alloc);
    let mut rest = bytes;
    let mut number = 0u32;
    while !rest.is_empty() {
        number += 1;
        let length = line_length(rest);
        let statement = place_line(&mut places, number, &rest[..length])?;
        add_line(&mut filling, alloc, whole, &places, number, &statement)?;
        places.add_optional(number, statement)?;
        rest = behind_line(rest, length);
    }
    Ok(filling)
}
