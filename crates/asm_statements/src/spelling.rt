//! Words and texts as they stand in a source.

ghost use Rattle.std.specs.Prelude.{◌≡◌};

use std::marker::Model;

/// The bytes of a word, a name or a text in a source. Contracts see the list of them.
#[derive(Debug, Drop)]
pub struct Spelling<'a> {
    bytes: &'a [u8],
}

impl<'a> Model for Spelling<'a> {
    ghost use Rattle.std.specs.Prelude.{ℕ, List};

    ghost Value = { List ℕ };

    ghost view = { λ s. s.bytes.now };
}

impl<'a> Spelling<'a> {
    /// The spelling of these bytes.
    pub fn of(bytes: &'a [u8]) -> Spelling<'a>
        ensures { result ≡ bytes.now }
    {
        Spelling { bytes }
    }

    /// The bytes.
    pub fn bytes(&self) -> &'a [u8]
        ensures { result.now ≡ self.now }
    {
        self.bytes
    }

    /// The same spelling once more.
    pub fn copy(&self) -> Spelling<'a>
        ensures { result ≡ self.now }
    {
        Spelling { bytes: self.bytes }
    }
}
