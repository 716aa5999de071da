//! Laws of entries and their words: each function's contract is one, and it does nothing.

ghost use Rattle.std.specs.Prelude.{◌≡◌};
ghost use Rattle.table_formats.specs.Entries.{entry_of, word_of, named};
ghost use Rattle.table_formats.specs.Fitting.{Fits};

use crate::entries::Entry;

/// What is written for an entry is read as this entry.
#[tactic(auto, using(crate::proofs::ReadBack::read_back))]
pub fn written_entries_are_read(entry: Entry)
    requires { Fits entry }
    ensures { entry_of (word_of entry) ≡ entry }
{}

/// What is written for what is read is the word with the bits that no field names cleared.
#[tactic(auto, using(crate::proofs::WrittenBack::written_back))]
pub fn read_words_are_written_back(word: u64)
    ensures { word_of (entry_of word) ≡ named word }
{}
