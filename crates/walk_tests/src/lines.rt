//! The lines of the input.

use journal_core::{AccessKind, Ask};
use number_text::read_hex;
use std::str::SplitWhitespace;

/// A line of the input. Its words are one letter and numbers in hexadecimal. A line that is none of these is printed as it is.
pub enum Line {
    /// `m SIZE`: RAM is new and all zero, of so many bytes.
    Memory(u64),
    /// `w PLACE DOUBLEWORD`: a doubleword of RAM, its highest byte first.
    Word(u64, u64),
    /// `p PTCR LPID GRA`: a walk of a partition's tree.
    Partition(u64, u16, u64),
    /// `f EA MSR LPIDR PIDR PTCR`: a walk of a fetch; with `l` of a load, with `s` of a store.
    Asked(Ask),
}

/// The next word as a number.
fn number(words: &mut SplitWhitespace<'_>) -> Option<u64> {
    read_hex(words.next()?.as_bytes())
}

/// The next word as a partition's number.
fn partition(words: &mut SplitWhitespace<'_>) -> Option<u16> {
    u16::try_from(number(words)?).ok()
}

/// The ask of an access, from the next words.
fn ask_of(access: AccessKind, words: &mut SplitWhitespace<'_>) -> Option<Line> {
    Some(Line::Asked(Ask {
        access,
        ea: number(words)?,
        msr: number(words)?,
        lpid: partition(words)?,
        pid: u32::try_from(number(words)?).ok()?,
        ptcr: number(words)?,
        amr: 0,
        iamr: 0,
    }))
}

/// What a line says, or `None` where it is to be printed.
pub fn read_line(text: &str) -> Option<Line> {
    let mut words = text.split_whitespace();
    match words.next()? {
        "m" => Some(Line::Memory(number(&mut words)?)),
        "w" => Some(Line::Word(number(&mut words)?, number(&mut words)?)),
        "p" => Some(Line::Partition(
            number(&mut words)?,
            partition(&mut words)?,
            number(&mut words)?,
        )),
        "f" => ask_of(AccessKind::Fetch, &mut words),
        "l" => ask_of(AccessKind::Load, &mut words),
        "s" => ask_of(AccessKind::Store, &mut words),
        _ => None,
    }
}
