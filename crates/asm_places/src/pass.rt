//! The first pass over a source.

ghost use Rattle.std.specs.Prelude.{◌≡◌, ◌≤◌, ◌+◌, length, drop, IfOk};
ghost use Rattle.asm_places.specs.FirstPass as said;
ghost use Rattle.asm_places.specs.FirstPass.{Passes, PlacesLine};
ghost use Rattle.asm_places.specs.Names as defined;
ghost use Rattle.asm_places.specs.Sums as sums;
ghost use Rattle.asm_places.specs.Keeping.{AddsOptional, IsRoomy};

use crate::fault::{AsmFault, AsmKind};
use crate::lines::{behind_line, line_length};
use crate::names::Names;
use crate::places::Places;
use asm_statements::{Atom, Expression, Line, Pieces, Spelling, Statement, read_line};
use std::alloc::Global;

/// The most lines of a source.
const MOST_LINES: u32 = 65536;

/// Whether the address of the statement is one of the terms.
fn uses_here<'a>(expression: &Expression<'a>) -> bool
    ensures { result ≡ sums.uses_here expression.now }
{
    let mut left = expression.copy();
    loop {
        match left.next() {
            Some(term) => {
                if matches!(term.atom, Atom::Here) {
                    return true;
                }
            }
            None => return false,
        }
    }
}

fn is_defined<'a>(names: &Names<'a>, name: &[u8]) -> bool
    ensures { result ≡ defined.is_defined names.now name.now }
{
    names.value(name, names.len()).is_some()
}

fn is_same_name<'a>(label: &Option<Spelling<'a>>, name: &[u8]) -> bool
    ensures { result ≡ said.is_same_name label.now name.now }
{
    match label {
        Some(label) => label.bytes() == name,
        None => false,
    }
}

/// Whether a label is defined already.
fn defines_twice<'a>(label: &Option<Spelling<'a>>, places: &Places<'a>) -> bool
    ensures { result ≡ said.defines_twice label.now places.now }
{
    match label {
        Some(name) => is_defined(&places.names, name.bytes()),
        None => false,
    }
}

/// Whether a statement defines a name again, or is a second .entry.
fn repeats<'a>(line: &Line<'a>, places: &Places<'a>) -> bool
    ensures { result ≡ said.repeats line.now.label line.now.statement places.now }
{
    match &line.statement {
        Some(Statement::Equ(name, _expression)) => {
            is_defined(&places.names, name.bytes()) || is_same_name(&line.label, name.bytes())
        }
        Some(Statement::Entry(_name)) => places.entry.is_some(),
        _ => false,
    }
}

/// Whether a statement needs a segment before it.
fn needs_segment<'a>(statement: &Option<Statement<'a>>) -> bool
    ensures { result ≡ said.needs_segment statement.now }
{
    match statement {
        None | Some(Statement::Entry(_)) => false,
        Some(Statement::Seg(expression)) => uses_here(expression),
        Some(Statement::Equ(_, expression)) => uses_here(expression),
        Some(_) => true,
    }
}

/// Whether a label or a statement needs a segment, and there is none yet.
fn lacks_segment<'a>(line: &Line<'a>, places: &Places<'a>) -> bool
    ensures { result ≡ said.lacks_segment places.now line.now }
{
    places.segments.as_slice().is_empty()
        && (line.label.is_some() || needs_segment(&line.statement))
}

/// The first fault of a line that is one of the language.
fn fault_of<'a>(number: u32, places: &Places<'a>, line: &Line<'a>) -> Option<AsmKind>
    ensures { result ≡ said.fault_of number places.now line.now }
{
    if defines_twice(&line.label, places) || repeats(line, places) {
        return Some(AsmKind::Twice);
    }
    if lacks_segment(line, places) {
        return Some(AsmKind::NoSegment);
    }
    if number > MOST_LINES {
        return Some(AsmKind::Lines);
    }
    None
}

/// Reads a line of a source at its place: defines its label, and answers its statement, or says what is wrong with it.
/// `Memory` may come at any line, and says nothing of it.
pub fn place_line<'a>(
    places: &mut Places<'a>,
    number: u32,
    bytes: &'a [u8],
) -> Result<Option<Statement<'a>>, AsmFault>
    requires { IsRoomy (length bytes.now) places.old }
    ensures line { PlacesLine number bytes.now places.old places.new result }
    ensures room { IfOk result (λ statement. AddsOptional statement places.new) }
{
    let kind = match Pieces::of_line(bytes) {
        Some(pieces) => match read_line(pieces) {
            Some(line) => match fault_of(number, places, &line) {
                Some(kind) => kind,
                None => {
                    places.add_label(&line.label)?;
                    return Ok(line.statement);
                }
            },
            None => AsmKind::Form,
        },
        None => AsmKind::Lex,
    };
    Err(AsmFault::At { line: number, kind })
}

/// Goes through the lines of a source once. Answers the names, the segments and the entry's name, or the first line that is
/// wrong by itself or by those before it. `Memory` may come at any source, and says nothing of it.
pub fn first_pass<'a>(alloc: Global, bytes: &'a [u8]) -> Result<Places<'a>, AsmFault>
    ensures { Passes bytes.now result }
{
    let mut places = Places::new(alloc);
    let mut rest = bytes;
    let mut number = 0u32;
    while !rest.is_empty() {
        number += 1;
        let length = line_length(rest);
        let statement = place_line(&mut places, number, &rest[..length])?;
        places.add_optional(number, statement)?;
        rest = behind_line(rest, length);
    }
    Ok(places)
}
