//! Lists of segments.

ghost use Rattle.std.specs.Prelude.{◌≡◌, ◌↔◌, IsTrue, [], length};

use crate::segment::Segment;
use std::marker::Model;

/// A list of segments.
#[derive(Debug, Drop)]
pub struct Segments {
    items: Vec<Segment>,
}

impl Model for Segments {
    ghost use Rattle.std.specs.Prelude.{List};
    ghost use Rattle.elf_image.specs.declared.segment.Segment.{Segment};

    ghost Value = { List Segment };

    ghost view = { λ s. s.items.items };
}

impl Segments {
    /// The segments of `items`. Takes no memory.
    pub fn of(items: Vec<Segment>) -> Segments
        ensures { result ≡ items.items }
    {
        Segments { items }
    }

    /// The segments, in order.
    pub fn as_slice(&self) -> &[Segment]
        ensures { result.now ≡ self.now }
    {
        self.items.as_slice()
    }

    /// The list itself, given back. Takes no memory.
    pub fn into_vec(self) -> Vec<Segment>
        ensures { result.items ≡ self }
    {
        self.items
    }

    /// How many segments there are.
    pub fn len(&self) -> usize
        ensures { result ≡ length self.now }
    {
        self.items.len()
    }

    /// Whether there is no segment.
    pub fn is_empty(&self) -> bool
        ensures { IsTrue result ↔ self.now ≡ [] }
    {
        self.items.is_empty()
    }
}
