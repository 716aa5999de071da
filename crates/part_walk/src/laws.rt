//! Laws of what a partition's walk that begins with what is kept adds to a trail. Each function does nothing: its contract is the
//! law.

ghost use Rattle.part_walk.specs.PartLaws.{NothingKeptAddsFresh, AddedPartIsOne, AddedPartIsWalk, AddedPartIsShort};

/// Where nothing is kept, it is the fresh walk.
pub fn nothing_kept_adds_the_fresh_walk()
    ensures { NothingKeptAddsFresh }
{}

/// Two of given answers, at one moment over the same words and after the same items, are equal.
pub fn an_added_walk_is_one()
    ensures { AddedPartIsOne }
{}

/// The readings of what it adds are a walk of the address.
pub fn an_added_walk_is_a_walk()
    ensures { AddedPartIsWalk }
{}

/// It adds at most 5 items.
pub fn an_added_walk_is_short()
    ensures { AddedPartIsShort }
{}
