//! What standard error says of a call.

use crate::image_fault::ImageFault;
use crate::last_step::{LastStep, Stop, rows_of};
use crate::places::{BadPlace, PlugFault};
use crate::quoted::Quoted;
use crate::source_fault::SourceFault;
use crate::usage::WrongWord;
use elf_image::ElfFault;
use radix_top::{Command, Status, read_command};
use std::fmt;
use std::io::ErrorKind;

/// What a message tells beside the words and the status.
#[derive(Clone, Copy, Debug)]
pub struct Story {
    /// Why the system failed to read a file.
    pub reason: Option<ErrorKind>,
    /// The last step of the run.
    pub last: Option<LastStep>,
}

/// The text that standard error gets for a call with these words and this status. It is empty for a command that was
/// done, and for output that could not be written.
#[derive(Drop)]
pub struct Message<'a> {
    /// The words after the program's name.
    pub words: &'a [String],
    /// How the call ended.
    pub status: Status,
    /// What else is told.
    pub story: Story,
}

/// Whether the word with this number is a guest's.
fn is_guest(words: &[String], place: usize) -> bool {
    place > 4
        && words
            .get(place - 1)
            .is_some_and(|word| word.as_str() == "--guest")
}

/// The name of the file that the word with a number names, or no text, in quotes.
fn quoted_at(words: &[String], place: usize) -> Quoted<'_> {
    let Some(word) = words.get(place) else {
        return Quoted { text: "" };
    };
    let text = word.as_str();
    if is_guest(words, place)
        && let Some((name, _)) = text.rsplit_once('@')
    {
        return Quoted { text: name };
    }
    Quoted { text }
}

/// The number of the word of the first guest that begins at an address, if there is one.
fn guest_at(words: &[String], at: u64) -> Option<usize> {
    let Ok(Command::Run { options, .. }) = read_command(words) else {
        return None;
    };
    for guest in options.guests.as_slice() {
        if guest.at == at {
            return Some(guest.place);
        }
    }
    None
}

/// Says what has no place: the image, or the guest that begins there.
fn write_place<W: fmt::Write>(
    f: &mut fmt::Formatter<W>,
    words: &[String],
    place: BadPlace,
) -> fmt::Result {
    match guest_at(words, place.range.from) {
        Some(word) => {
            let name = quoted_at(words, word);
            let at = place.range.from;
            writeln!(
                f,
                "radix: the guest {name} at {at:x}: {place} (docs/FORMATS.md, \"Guests\")"
            )
        }
        None => {
            let name = quoted_at(words, 1);
            writeln!(f, "radix: {name}: {place} (docs/FORMATS.md, \"The image\")")
        }
    }
}

/// Why the system failed to read a file, in words.
fn reason_text(reason: Option<ErrorKind>) -> &'static str {
    match reason {
        Some(ErrorKind::NotFound) => "no such file",
        Some(ErrorKind::IsADirectory) => "is a directory",
        Some(ErrorKind::NotADirectory) => "a part of its path is not a directory",
        Some(ErrorKind::PermissionDenied) => "permission denied",
        Some(ErrorKind::InvalidFilename) => "the name is too long",
        Some(ErrorKind::FilesystemLoop) => "too many symbolic links",
        _ => "input/output error",
    }
}

/// Says where a run came to its end.
fn write_last<W: fmt::Write>(
    f: &mut fmt::Formatter<W>,
    what: &str,
    last: Option<LastStep>,
) -> fmt::Result {
    write!(f, "radix: {what}")?;
    match last {
        Some(last) => write!(f, " {last}"),
        None => f.write_str(" step 0"),
    }
}

impl<'a> fmt::Display for Message<'a> {
    fn fmt<W: fmt::Write>(&self, f: &mut fmt::Formatter<W>) -> fmt::Result {
        let words = self.words;
        match self.status {
            Status::Usage(place) => {
                let wrong = WrongWord {
                    words,
                    place,
                    is_cut: false,
                };
                write!(f, "{wrong}")
            }
            Status::ReadFault(place) => {
                let name = quoted_at(words, place);
                writeln!(f, "radix: {name}: {}", reason_text(self.story.reason))
            }
            Status::TooLong(place) => {
                let name = quoted_at(words, place);
                writeln!(f, "radix: {name}: longer than 64 MiB")
            }
            Status::BadSchedule(byte) => {
                let name = quoted_at(words, 2);
                writeln!(
                    f,
                    "radix: {name}: not a schedule that this version reads, from byte {byte} on \
                     (docs/FORMATS.md, \"The schedule\")"
                )
            }
            Status::BadImage(ElfFault::Memory) | Status::Memory => {
                f.write_str("radix: out of memory\n")
            }
            Status::BadImage(fault) => {
                let name = quoted_at(words, 1);
                let fault = ImageFault { fault };
                writeln!(f, "radix: {name}: {fault} (docs/FORMATS.md, \"The image\")")
            }
            Status::BadAsm(line, kind) => {
                let name = quoted_at(words, 1);
                let fault = SourceFault { line, kind };
                writeln!(f, "radix: the source {name} {fault}")
            }
            Status::BadPlace(range, other) => write_place(f, words, BadPlace { range, other }),
            Status::BadDevice(number, reason) => {
                let reason = PlugFault { reason };
                writeln!(f, "radix: device {number} cannot be plugged: {reason}")
            }
            Status::Stopped(name, value) => {
                write_last(f, "stopped in", self.story.last)?;
                let stop = Stop { name, value };
                writeln!(f, ": {stop} (docs/MACHINE.md, \"Stops\")")
            }
            Status::JournalFull(kind, count) => {
                write_last(f, "no room in the journal after", self.story.last)?;
                let rows = rows_of(kind);
                writeln!(
                    f,
                    ": its list of {rows} has {count} rows (docs/MACHINE.md, \"Limits\")"
                )
            }
            Status::Done(_) | Status::WriteFault => Ok(()),
        }
    }
}
