//! Lists of segments.

ghost use Rattle.std.specs.Prelude.{◌≡◌, ◌∷◌, ◌++◌, ◌-◌, ◌^◌, [], OnOk};
ghost use Rattle.asm_places.specs.Places.{grown, address_of, end_of};
ghost use Rattle.asm_places.specs.Keeping.{HaveAtMost};

use crate::places::SegmentLine;
use std::alloc::{AllocError, Global};
use std::marker::Model;

/// The segments of a source, in order. Contracts see the list of them.
#[derive(Debug, Drop)]
pub struct SegmentLines {
    items: Vec<SegmentLine>,
}

impl Model for SegmentLines {
    ghost use Rattle.std.specs.Prelude.{List};
    ghost use Rattle.asm_places.specs.declared.places.SegmentLine.{SegmentLine};

    ghost Value = { List SegmentLine };

    ghost view = { λ s. s.items.items };
}

impl SegmentLines {
    /// No segments. Takes no memory.
    pub(crate) fn new(alloc: Global) -> SegmentLines
        ensures { result ≡ [] }
    {
        SegmentLines {
            items: Vec::new(alloc),
        }
    }

    /// The segments, in order.
    pub fn as_slice(&self) -> &[SegmentLine]
        ensures { result.now ≡ self.now }
    {
        self.items.as_slice()
    }

    /// Adds a segment.
    pub(crate) fn push(&mut self, segment: SegmentLine) -> Result<(), AllocError>
        ensures { OnOk result (self.new ≡ self.old ++ segment ∷ []) }
    {
        match self.items.push(segment) {
            Ok(()) => Ok(()),
            Err(_failed) => Err(AllocError),
        }
    }

    /// Adds so many bytes to the last segment, where there is one.
    pub(crate) fn grow(&mut self, count: u64)
        requires { HaveAtMost (2 ^ 64 - 1 - count) self.old }
        ensures { self.new ≡ grown count self.old }
    {
        let len = self.items.len();
        if len > 0 {
            self.items[len - 1].size += count;
        }
    }

    /// The address behind the last segment's bytes, where there is a segment.
    pub(crate) fn address(&self) -> Option<u128>
        ensures { result ≡ address_of self.now }
    {
        match self.items.as_slice().last() {
            Some(segment) => Some(end(segment)),
            None => None,
        }
    }
}

// The address behind the segment's bytes.
fn end(segment: &SegmentLine) -> u128
    ensures { result ≡ end_of segment.now }
{
    u128::from(segment.base) + u128::from(segment.size)
}
