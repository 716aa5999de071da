//! What has no place, in plain words.

use elf_image::Span;
use ppc_bus::PlugReason;
use std::fmt;

/// A range of addresses that the image or a guest takes, and what it has no place beside.
#[derive(Clone, Copy, Drop)]
pub struct BadPlace {
    /// The range.
    pub range: Span,
    /// RAM where the range leaves that, else an earlier range that it meets.
    pub other: Span,
}

/// The first address behind RAM.
const RAM_END: u64 = 0x100_0000;

impl fmt::Display for BadPlace {
    fn fmt<W: fmt::Write>(&self, f: &mut fmt::Formatter<W>) -> fmt::Result {
        let what = if self.range.to > RAM_END {
            "leave RAM,"
        } else {
            "meet"
        };
        write!(
            f,
            "addresses {:x} to {:x} {what} {:x} to {:x}",
            self.range.from, self.range.to, self.other.from, self.other.to
        )
    }
}

/// Why a device is not plugged.
#[derive(Clone, Copy, Drop)]
pub struct PlugFault {
    /// The reason.
    pub reason: PlugReason,
}

impl fmt::Display for PlugFault {
    fn fmt<W: fmt::Write>(&self, f: &mut fmt::Formatter<W>) -> fmt::Result {
        match self.reason {
            PlugReason::SlotsFull => f.write_str("all eight slots are taken"),
            PlugReason::BadWindow => f.write_str("no window may begin there or have its size"),
            PlugReason::SlotUsed(slot) => write!(f, "its window meets that of slot {slot}"),
        }
    }
}
