//! What is wrong with a source, in plain words.

use asm_places::AsmKind;
use std::fmt;

/// What is wrong with a line of a source, or with the source as a whole.
#[derive(Clone, Copy, Drop)]
pub struct SourceFault {
    /// The line, from 1; 0 for the source as a whole.
    pub line: u32,
    /// What is wrong.
    pub kind: AsmKind,
}

/// What is wrong, in words.
fn text_of(kind: AsmKind) -> &'static str {
    match kind {
        AsmKind::Lex =>
            "a byte that begins no token, a name of more than 32 bytes, or a number of 2^64 or above",
        AsmKind::Form => "not a line of the language",
        AsmKind::Twice => "a name or an entry that stands there twice",
        AsmKind::NoSegment => "bytes, a label or '.' before the first .seg",
        AsmKind::Lines => "more than 65536 lines",
        AsmKind::Unknown => "a name that is not known",
        AsmKind::Range => "an operand outside its field",
        AsmKind::Overlap => "a segment that meets an earlier one",
        AsmKind::Entry => "no .entry, or its name is no address",
        AsmKind::Segments => "more than 64 segments",
        AsmKind::Empty => "no byte",
    }
}

impl fmt::Display for SourceFault {
    fn fmt<W: fmt::Write>(&self, f: &mut fmt::Formatter<W>) -> fmt::Result {
        if self.line == 0 {
            f.write_str("is wrong as a whole: ")?;
        } else {
            write!(f, "is wrong in line {}: ", self.line)?;
        }
        write!(f, "{} ({:?})", text_of(self.kind), self.kind)
    }
}
