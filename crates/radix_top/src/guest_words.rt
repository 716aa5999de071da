//! Words that name guests.

ghost use Rattle.std.specs.Prelude.{◌≡◌, ◌<◌, ◌++◌, ◌∷◌, [], length};

use arrayvec::ArrayVec;
use std::marker::Model;

/// A file that is loaded beside the image, as a word `FILE@HEX` names it.
#[derive(Clone, Copy, Debug, Default, PartialEq, Eq)]
pub struct GuestWord {
    /// The number of the word.
    pub place: usize,
    /// How many bytes of the word are the file's name: those before its last `@`.
    pub name_len: usize,
    /// The address of the file's first byte.
    pub at: u64,
}

/// At most four words that name guests. Contracts see the list of them.
#[derive(Drop)]
pub struct GuestWords {
    items: ArrayVec<GuestWord, 4>,
}

impl Model for GuestWords {
    ghost use Rattle.std.specs.Prelude.{List};
    ghost use Rattle.radix_top.specs.declared.guest_words.GuestWord.{GuestWord};

    ghost Value = { List GuestWord };

    ghost view = { λ g. g.items.items };
}

impl GuestWords {
    /// No words.
    pub fn new() -> GuestWords
        ensures { result ≡ [] }
    {
        GuestWords {
            items: ArrayVec::new(),
        }
    }

    /// Adds a word behind the others, of which there must be at most three.
    pub fn push(&mut self, guest: GuestWord)
        requires { length self.old < 4 }
        ensures { self.new ≡ self.old ++ guest ∷ [] }
    {
        self.items.push(guest);
    }

    /// The words, in order.
    pub fn as_slice(&self) -> &[GuestWord]
        ensures { result.now ≡ self.now }
    {
        self.items.as_slice()
    }
}
