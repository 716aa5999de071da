//! Bytes that are loaded beside an image.

ghost use Rattle.std.specs.Prelude.{◌≡◌, ◌∷◌, ◌++◌, OnOk, OnErr, []};

use crate::bytes::Bytes;
use std::alloc::{AllocError, Global};
use std::marker::Model;

/// Some bytes, and where they are loaded.
#[derive(Debug, Drop)]
pub struct Guest {
    /// The address of the first byte.
    pub at: u64,
    /// The bytes.
    pub bytes: Bytes,
}

/// A list of guests.
#[derive(Debug, Drop)]
pub struct Guests {
    items: Vec<Guest>,
}

impl Model for Guests {
    ghost use Rattle.std.specs.Prelude.{List};
    ghost use Rattle.elf_image.specs.declared.guests.Guest.{Guest};

    ghost Value = { List Guest };

    ghost view = { λ g. g.items.items };
}

impl Guests {
    /// No guest. Takes no memory.
    pub fn new(alloc: Global) -> Guests
        ensures { result ≡ [] }
    {
        Guests {
            items: Vec::new(alloc),
        }
    }

    /// Puts a guest behind the others. Without memory the list stays as it is.
    pub fn push(&mut self, guest: Guest) -> Result<(), AllocError>
        ensures ok { OnOk result (self.new ≡ self.old ++ guest ∷ []) }
        ensures err { OnErr result (self.new ≡ self.old) }
    {
        self.items.push(guest)?;
        Ok(())
    }

    /// The guests, in order.
    pub fn as_slice(&self) -> &[Guest]
        ensures { result.now ≡ self.now }
    {
        self.items.as_slice()
    }
}
