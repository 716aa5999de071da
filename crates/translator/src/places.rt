//! The fills of one thread and one kind that are kept.

ghost use Rattle.std.specs.Prelude.{◌≡◌, ◌==◌, ◌+◌, ◌%◌, ◌<◌, [], ◌∷◌, ◌++◌, length, map, remove, filter, slice_get, count_by};
ghost use Rattle.journal_core.specs.Standing.{kind_number};
ghost use Rattle.journal_core.specs.Fills.{is_same_key};
ghost use Rattle.translator.specs.PlaceLists.{of_set, without_oldest, with_room, inserted, drop_at, newest, live, shown};

use arrayvec::ArrayVec;
use journal_core::{Key, KeyKind};
use std::marker::Model;

/// A kept fill.
#[derive(Clone, Copy, Debug)]
pub struct KeptPlace {
    /// What it is found by.
    pub key: Key,
    /// Its number in the journal.
    pub fill: u32,
    /// Whether it was dropped.
    pub dropped: bool,
}

impl Default for KeptPlace {
    fn default() -> KeptPlace {
        KeptPlace {
            key: Key {
                kind: KeyKind::Translation,
                lpid: 0,
                pid: 0,
                left: 0,
                page: 0,
            },
            fill: 0,
            dropped: true,
        }
    }
}

fn number_of(kind: KeyKind) -> u8
    ensures { result ≡ kind_number kind }
{
    match kind {
        KeyKind::Translation => 0,
        KeyKind::GuestPage => 1,
        KeyKind::ProcessDir => 2,
        KeyKind::PartDir => 3,
    }
}

fn are_same(a: &Key, b: &Key) -> bool
    ensures { result ≡ is_same_key a.now b.now }
{
    number_of(a.kind) == number_of(b.kind)
        && a.lpid == b.lpid
        && a.pid == b.pid
        && a.left == b.left
        && a.page == b.page
}

/// How many places are of a set.
fn count_in_set(places: &[KeptPlace], set: u64) -> usize
    ensures { result ≡ count_by (of_set set) places.now }
{
    let mut count: usize = 0;
    for place in places {
        if place.key.page % 16 == set {
            count += 1;
        }
    }
    count
}

/// The first place of a set.
fn first_in_set(places: &[KeptPlace], set: u64) -> usize
    requires some { 0 < count_by (of_set set) places.now }
    ensures within { result < length places.now }
    ensures removed { remove places.now result ≡ without_oldest set places.now }
{
    for (i, place) in places.iter().enumerate() {
        if place.key.page % 16 == set {
            return i;
        }
    }
    unreachable!()
}

/// Takes the oldest place of a full set out.
fn make_room(places: &mut ArrayVec<KeptPlace, 64>, set: u64)
    ensures { places.new.items ≡ with_room set places.old.items }
{
    if count_in_set(places.as_slice(), set) >= 4 {
        let first = first_in_set(places.as_slice(), set);
        places.remove(first);
    }
}

/// The newest place of a key.
fn newest_of(places: &[KeptPlace], key: &Key) -> Option<KeptPlace>
    ensures { result ≡ newest key.now places.now }
{
    for i in 0..places.len() {
        let place = places[places.len() - 1 - i];
        if are_same(&place.key, key) {
            return Some(place);
        }
    }
    None
}

/// The place of a set that has so many before it.
fn nth_in_set(places: &[KeptPlace], set: u64, nth: u8) -> Option<KeptPlace>
    ensures { result ≡ slice_get (filter (of_set set) places.now) nth }
{
    let mut seen: u8 = 0;
    for place in places {
        if place.key.page % 16 == set {
            if seen == nth {
                return Some(*place);
            }
            seen += 1;
        }
    }
    None
}

/// A place after the fill of this number was dropped.
fn dropped_at(place: KeptPlace, fill: u32) -> KeptPlace
    ensures { result ≡ drop_at fill place }
{
    KeptPlace {
        key: place.key,
        fill: place.fill,
        dropped: place.dropped || place.fill == fill,
    }
}

fn drop_all(places: &mut [KeptPlace], fill: u32)
    ensures { places.new ≡ map (drop_at fill) places.old }
{
    for place in places.iter_mut() {
        *place = dropped_at(*place, fill);
    }
}

/// The fills of one thread and one kind that are kept, the oldest first: of each of the sixteen sets, which is the page modulo 16,
/// at most four. A dropped one keeps its place.
#[derive(Drop)]
pub struct PlaceList {
    places: ArrayVec<KeptPlace, 64>,
}

impl Model for PlaceList {
    ghost use Rattle.std.specs.Prelude.{List};
    ghost use Rattle.translator.specs.declared.places.KeptPlace.{KeptPlace};

    ghost Value = { List KeptPlace };

    ghost use Rattle.translator.specs.PlaceLists.{HasFours};

    ghost view = { λ s. s.places.items };

    ghost invariant = { λ s. HasFours s.places.items };
}

impl PlaceList {
    /// An empty list.
    pub fn new() -> PlaceList
        ensures { result ≡ [] }
    {
        PlaceList {
            places: ArrayVec::new(),
        }
    }

    /// Whether it has no place.
    pub fn is_empty(&self) -> bool
        ensures { result ≡ (length self.now == 0) }
    {
        self.places.len() == 0
    }

    /// The fill of a key, if its newest place was not dropped.
    pub fn find(&self, key: &Key) -> Option<u32>
        ensures { result ≡ live (newest key.now self.now) }
    {
        match newest_of(self.places.as_slice(), key) {
            Some(place) => {
                if place.dropped {
                    None
                } else {
                    Some(place.fill)
                }
            }
            None => None,
        }
    }

    /// The key and the fill at a place of a set, the oldest first, or `None` where there is none or it was dropped.
    pub fn at(&self, set: u8, place: u8) -> Option<(Key, u32)>
        ensures { result ≡ shown (slice_get (filter (of_set set) self.now) place) }
    {
        match nth_in_set(self.places.as_slice(), u64::from(set), place) {
            Some(place) => {
                if place.dropped {
                    None
                } else {
                    Some((place.key, place.fill))
                }
            }
            None => None,
        }
    }

    /// Adds a fill. If its set has four places, it takes the oldest of them out.
    pub fn insert(&mut self, key: Key, fill: u32)
        ensures { self.new ≡ inserted key fill self.old }
    {
        make_room(&mut self.places, key.page % 16);
        self.places.push(KeptPlace {
            key,
            fill,
            dropped: false,
        });
    }

    /// Drops the fill of this number, which keeps its place.
    pub fn drop_fill(&mut self, fill: u32)
        ensures { self.new ≡ map (drop_at fill) self.old }
    {
        drop_all(self.places.as_mut_slice(), fill);
    }

    /// Takes all places out.
    pub fn clear(&mut self)
        ensures { self.new ≡ [] }
    {
        self.places.clear();
    }
}
