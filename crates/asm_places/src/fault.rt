//! Why a source is refused.

ghost use Rattle.std.specs.Prelude.{◌≡◌};
ghost use Rattle.asm_places.specs.declared.fault.AsmFault.TheVariants.{Memory};

use std::alloc::{AllocError, AllocFailed};
use thiserror::Error;

/// What is wrong with a line, or with the source as a whole. On one line the first of these counts.
#[derive(Clone, Copy, Debug, PartialEq, Eq)]
pub enum AsmKind {
    /// A byte stands in no token of the language, a name has more than 32 bytes, or a number is 2^64 or above.
    Lex,
    /// The tokens are no line of the language.
    Form,
    /// A name is defined twice, or `.entry` stands there a second time.
    Twice,
    /// A label, `.`, or a statement with bytes stands before the first `.seg`.
    NoSegment,
    /// The line is the 65,537th.
    Lines,
    /// A name is not defined, or not yet.
    Unknown,
    /// A number is outside its range, or the operands are an invalid form.
    Range,
    /// A segment meets an earlier one.
    Overlap,
    /// There is no `.entry`, or its name is not defined or no address.
    Entry,
    /// The `.seg` is the 65th.
    Segments,
    /// There is no byte.
    Empty,
}

/// The first fault of a source, or that memory ran out.
#[derive(Clone, Copy, Debug, PartialEq, Eq, Error)]
pub enum AsmFault {
    /// What is wrong on this line, counted from 1; 0 for the source as a whole.
    #[error("line {line}: {kind:?}")]
    At {
        /// The line.
        line: u32,
        /// What is wrong.
        kind: AsmKind,
    },
    /// Memory ran out. This says nothing of the source.
    #[error("out of memory")]
    Memory,
}

impl From<AllocError> for AsmFault {
    ghost from_gives = { λ _ e. e ≡ Memory };

    fn from(_e: AllocError) -> AsmFault {
        AsmFault::Memory
    }
}

impl<T: Drop> From<AllocFailed<T>> for AsmFault {
    ghost from_gives = { λ _ e. e ≡ Memory };

    fn from(_e: AllocFailed<T>) -> AsmFault {
        AsmFault::Memory
    }
}
