//! Files that words name, guests among them.

ghost use Rattle.std.specs.Prelude.{◌≡◌, ◌≤◌, ◌<◌, ◌++◌, ℕ, List, IfOk, IfErr, OnOk, Some, length, map};
ghost use Rattle.elf_image.specs.declared.guests.Guest.{Guest};
ghost use Rattle.outer_io.specs.declared.files.Answer.TheVariants as answers;
ghost use Rattle.radix_top.specs.Words.{word_at, guest_name, IsCut, AreCut};
ghost use Rattle.radix_top.specs.Inputs.{met, guest_file, asked, last_name, WasRead, WasReadAs, IsGuest, AreGuests, FileFails, FailsAmong};
ghost use Rattle.radix_top.specs.Reading.{ReadFails};

use crate::guest_words::GuestWord;
use crate::status::Refusal;
use elf_image::{Bytes, Guest, Guests};
use outer_io::{FileFault, Files};
use std::alloc::Global;

/// The most bytes of a file: 64 MiB.
const MOST_BYTES: usize = 64 << 20;

/// Reads the file of a name, which the word with this number is, or the front of it.
fn read_named<F: Files>(
    alloc: Global,
    name: &str,
    place: usize,
    files: &mut F,
) -> Result<Vec<u8>, Refusal>
    ensures same { (n : List ℕ) → F.told files.new n ≡ F.told files.old n }
    ensures counts { F.faults files.old ≤ F.faults files.new }
    ensures ok { IfOk result (λ v. WasReadAs (met (F.told files.old) (F.faults files.old) (F.faults files.new) (F.last files.new)) name.now (λ bytes. v.items ≡ bytes)) }
    ensures err { IfErr result (ReadFails (met (F.told files.old) (F.faults files.old) (F.faults files.new) (F.last files.new)) name.now place) }
{
    let mut bytes = Vec::new(alloc);
    match files.read_file(alloc, name, MOST_BYTES, &mut bytes) {
        Ok(()) => Ok(bytes),
        Err(FileFault::Failed) => Err(Refusal::ReadFault(place)),
        Err(FileFault::TooLong) => Err(Refusal::TooLong(place)),
        Err(FileFault::Memory) => Err(Refusal::Memory),
    }
}

/// The word with a number.
fn word<'a>(words: &'a [String], place: usize) -> &'a str
    requires { place < length words.now }
    ensures { result.now ≡ word_at words.now place }
{
    words[place].as_str()
}

/// Reads the file that a word names.
pub(crate) fn read_word<F: Files>(
    alloc: Global,
    words: &[String],
    place: usize,
    files: &mut F,
) -> Result<Vec<u8>, Refusal>
    requires { place < length words.now }
    ensures same { (n : List ℕ) → F.told files.new n ≡ F.told files.old n }
    ensures counts { F.faults files.old ≤ F.faults files.new }
    ensures ok { IfOk result (λ v. WasReadAs (met (F.told files.old) (F.faults files.old) (F.faults files.new) (F.last files.new)) (word_at words.now place) (λ bytes. v.items ≡ bytes)) }
    ensures err { IfErr result (ReadFails (met (F.told files.old) (F.faults files.old) (F.faults files.new) (F.last files.new)) (word_at words.now place) place) }
{
    read_named(alloc, word(words, place), place, files)
}

/// The name of a guest's file.
fn guest_name<'a>(words: &'a [String], guest: &GuestWord) -> &'a str
    requires { IsCut words.now guest.now }
    ensures { result.now ≡ guest_name words.now guest.now }
{
    let (name, _) = word(words, guest.place).split_at(guest.name_len);
    name
}

/// Reads a guest.
fn read_guest_file<F: Files>(
    alloc: Global,
    words: &[String],
    guest: &GuestWord,
    files: &mut F,
) -> Result<Guest, Refusal>
    requires { IsCut words.now guest.now }
    ensures same { (n : List ℕ) → F.told files.new n ≡ F.told files.old n }
    ensures counts { F.faults files.old ≤ F.faults files.new }
    ensures ok { IfOk result (IsGuest (met (F.told files.old) (F.faults files.old) (F.faults files.new) (F.last files.new)) words.now guest.now) }
    ensures last { IfOk result (λ h. WasRead (met (F.told files.old) (F.faults files.old) (F.faults files.new) (F.last files.new)) (guest_name words.now guest.now)) }
    ensures err { IfErr result (FileFails (met (F.told files.old) (F.faults files.old) (F.faults files.new) (F.last files.new)) (guest_file words.now guest.now)) }
{
    let bytes = read_named(alloc, guest_name(words, guest), guest.place, files)?;
    Ok(Guest {
        at: guest.at,
        bytes: Bytes::of(bytes),
    })
}

/// Reads guests, in order, and puts them behind those that were read before.
pub(crate) fn read_guests<F: Files>(
    alloc: Global,
    words: &[String],
    guest_words: &[GuestWord],
    files: &mut F,
    guests: &mut Guests,
) -> Result<(), Refusal>
    requires { AreCut words.now guest_words.now }
    ensures same { (n : List ℕ) → F.told files.new n ≡ F.told files.old n }
    ensures counts { F.faults files.old ≤ F.faults files.new }
    ensures ok { OnOk result ((more : List Guest) × (guests.new ≡ guests.old ++ more) × AreGuests (met (F.told files.old) (F.faults files.old) (F.faults files.new) (F.last files.new)) words.now guest_words.now more) }
    ensures last { OnOk result ((name : List ℕ) → F.last files.old ≡ Some (asked name answers.Read) → F.last files.new ≡ Some (asked (last_name name words.now guest_words.now) answers.Read)) }
    ensures err { IfErr result (FailsAmong (met (F.told files.old) (F.faults files.old) (F.faults files.new) (F.last files.new)) (map (guest_file words.now) guest_words.now)) }
{
    match guest_words {
        [] => Ok(()),
        [first, rest @ ..] => {
            let guest = read_guest_file(alloc, words, first, files)?;
            match guests.push(guest) {
                Ok(()) => read_guests(alloc, words, rest, files, guests),
                Err(_) => Err(Refusal::Memory),
            }
        }
    }
}
