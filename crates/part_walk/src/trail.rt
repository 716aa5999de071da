//! The readings of a walk, in order.

ghost use Rattle.std.specs.Prelude.{◌≡◌, ◌<◌, ◌≤◌, [], ◌∷◌, ◌++◌, length, drop, slice_get};
ghost use Rattle.std.specs.List.{list_any};
ghost use Rattle.part_walk.specs.Adds.{is_old};

use arrayvec::ArrayVec;
use journal_core::TrailItem;
use std::marker::Model;

/// The readings of a walk, at most 36. Contracts see the list of them.
#[derive(Drop)]
pub struct Trail {
    items: ArrayVec<TrailItem, 36>,
}

impl Model for Trail {
    ghost use Rattle.std.specs.Prelude.{List};
    ghost use Rattle.journal_core.specs.declared.walks.TrailItem.{TrailItem};

    ghost Value = { List TrailItem };

    ghost view = { λ t. t.items.items };
}

/// The item is a reading that was kept.
fn is_old(item: TrailItem) -> bool
    ensures { result ≡ is_old item }
{
    match item {
        TrailItem::Old(_) => true,
        TrailItem::New(_) => false,
    }
}

/// One of the items from the `from`th on was kept.
fn uses_kept(items: &[TrailItem], from: usize) -> bool
    ensures { result ≡ list_any is_old (drop from items.now) }
{
    if from >= items.len() {
        return false;
    }
    is_old(items[from]) || uses_kept(items, from + 1)
}

impl Trail {
    /// No reading yet.
    pub fn new() -> Trail
        ensures { result ≡ [] }
    {
        Trail {
            items: ArrayVec::new(),
        }
    }

    /// Adds a reading at the end.
    pub fn push(&mut self, item: TrailItem)
        requires { length self.old < 36 }
        ensures { self.new ≡ self.old ++ item ∷ [] }
    {
        self.items.push(item);
    }

    /// The item of this number, or `None` past the end.
    pub fn item(&self, i: u8) -> Option<TrailItem>
        ensures { result ≡ slice_get self.now i }
    {
        self.items.as_slice().get(i as usize).copied()
    }

    /// All of them, in order.
    pub fn items(&self) -> &[TrailItem]
        ensures { result.now ≡ self.now }
    {
        self.items.as_slice()
    }

    /// How many there are.
    pub fn count(&self) -> u8
        ensures value { result ≡ length self.now }
        ensures few { result ≤ 36 }
    {
        self.items.len() as u8
    }

    /// Some of them were kept.
    pub fn used(&self) -> bool
        ensures { result ≡ list_any is_old self.now }
    {
        uses_kept(self.items.as_slice(), 0)
    }
}
