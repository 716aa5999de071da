//! How a call ends.

ghost use Rattle.std.specs.Prelude.{◌≡◌};
ghost use Rattle.radix_top.specs.Statuses.{refused_status, ended_status};

use asm_places::AsmKind;
use elf_image::{ElfFault, Span};
use journal_core::{Ended, RowKind, StopName};
use ppc_bus::PlugReason;

/// How a call ends.
#[derive(Clone, Copy, Debug, PartialEq, Eq)]
pub enum Status {
    /// The command was done; a run made all its steps, or its schedule has no next turn.
    Done(Ended),
    /// The words are not a command; the number of the first wrong or missing word, from 0.
    Usage(usize),
    /// The outside failed to read the file that the word of this number names.
    ReadFault(usize),
    /// The file that the word of this number names is longer than 64 MiB.
    TooLong(usize),
    /// The file is not an image, for this reason.
    BadImage(ElfFault),
    /// The file is not a schedule, from this byte on.
    BadSchedule(usize),
    /// The source is wrong in this line, from 1, or as a whole where the line is 0; and what is wrong.
    BadAsm(u32, AsmKind),
    /// The first range of addresses that the image and then the guests take and have no place for, and RAM where it leaves
    /// that, else the earlier range that it meets.
    BadPlace(Span, Span),
    /// The device with this number, from 0, cannot be plugged, for this reason.
    BadDevice(usize, PlugReason),
    /// The outside failed to take what was printed.
    WriteFault,
    /// Memory ran out before a machine was opened.
    Memory,
    /// The machine stopped, for this reason and with this value.
    Stopped(StopName, u64),
    /// This list of the journal, which has this many rows, has no room for one more step.
    JournalFull(RowKind, u32),
}

/// Why a call ends before it opens a machine.
#[derive(Clone, Copy, Debug, PartialEq, Eq)]
pub enum Refusal {
    /// The words are not a command; the number of the first wrong or missing word, from 0.
    Usage(usize),
    /// The outside failed to read the file that the word of this number names.
    ReadFault(usize),
    /// The file that the word of this number names is longer than 64 MiB.
    TooLong(usize),
    /// The file is not an image, for this reason.
    BadImage(ElfFault),
    /// The file is not a schedule, from this byte on.
    BadSchedule(usize),
    /// The source is wrong in this line, from 1, or as a whole where the line is 0; and what is wrong.
    BadAsm(u32, AsmKind),
    /// The first range of addresses that the image and then the guests take and have no place for, and RAM where it leaves
    /// that, else the earlier range that it meets.
    BadPlace(Span, Span),
    /// The device with this number, from 0, cannot be plugged, for this reason.
    BadDevice(usize, PlugReason),
    /// Memory ran out.
    Memory,
}

/// The status of a call that is refused.
pub fn refused_status(refusal: Refusal) -> Status
    ensures { result ≡ refused_status refusal }
{
    match refusal {
        Refusal::Usage(place) => Status::Usage(place),
        Refusal::ReadFault(place) => Status::ReadFault(place),
        Refusal::TooLong(place) => Status::TooLong(place),
        Refusal::BadImage(fault) => Status::BadImage(fault),
        Refusal::BadSchedule(place) => Status::BadSchedule(place),
        Refusal::BadAsm(line, kind) => Status::BadAsm(line, kind),
        Refusal::BadPlace(range, other) => Status::BadPlace(range, other),
        Refusal::BadDevice(number, reason) => Status::BadDevice(number, reason),
        Refusal::Memory => Status::Memory,
    }
}

/// The status of a call whose run had this end and was printed.
pub fn ended_status(ended: Ended) -> Status
    ensures { result ≡ ended_status ended }
{
    match ended {
        Ended::AllRun => Status::Done(ended),
        Ended::ScheduleEnd => Status::Done(ended),
        Ended::Stopped(name, value) => Status::Stopped(name, value),
        Ended::JournalFull(kind, count) => Status::JournalFull(kind, count),
    }
}
