//! The lines of write rows and of device rows.

ghost use Rattle.std.specs.Prelude.{◌≡◌, ◌+◌, ◌≤◌, ◌++◌, length, codes};
ghost use Rattle.report_text.specs.Words.{with_words, line_of};
ghost use Rattle.report_text.specs.AccessText.{access_name, signal_words, write_words, write_lines, device_words, device_lines};

use crate::words::{push_decimal, push_hex, push_word};
use journal_core::{DeviceRow, Journal, Signal, WriteRow};
use line_text::{Line, Lines};

/// Makes a line that of a write row.
fn fill_write_line(line: &mut Line, row: &WriteRow)
    ensures { line.new ≡ line_of (write_words row.now) }
{
    line.clear();
    line.push(b'w');
    push_decimal(line, u64::from(row.step));
    push_decimal(line, u64::from(row.thread));
    push_hex(line, 16, row.at);
    push_decimal(line, u64::from(row.size));
    push_hex(line, 16, row.old);
    push_hex(line, 16, row.new);
    line.push(b'\n');
}

/// The name of an access.
fn access_name(store: bool) -> &'static [u8]
    ensures name { result.now ≡ access_name store }
    ensures most { length result.now ≤ 5 }
{
    if store { b"store" } else { b"load" }
}

/// Adds what a device wants.
fn push_signal(line: &mut Line, signal: Signal)
    requires { length line.old + 27 ≤ 512 }
    ensures text { line.new ≡ with_words line.old (signal_words signal) }
    ensures len { length line.new ≤ length line.old + 27 }
{
    match signal {
        Signal::Quiet => push_word(line, b"quiet"),
        Signal::Byte(byte) => {
            push_word(line, b"byte");
            push_hex(line, 2, u64::from(byte));
        }
        Signal::Stop => push_word(line, b"stop"),
        Signal::Eject(slot) => {
            push_word(line, b"eject");
            push_decimal(line, u64::from(slot));
        }
    }
}

/// Makes a line that of a device row.
fn fill_device_line(line: &mut Line, row: &DeviceRow)
    ensures { line.new ≡ line_of (device_words row.now) }
{
    line.clear();
    line.push(b'd');
    push_decimal(line, u64::from(row.step));
    push_decimal(line, u64::from(row.slot));
    push_hex(line, 8, u64::from(row.offset));
    push_decimal(line, u64::from(row.size));
    push_word(line, access_name(row.store));
    push_hex(line, 16, row.value);
    push_signal(line, row.signal);
    line.push(b'\n');
}

/// The lines of the write rows of a journal.
#[derive(Drop)]
pub(crate) struct WriteLines<'a> {
    /// The journal.
    pub(crate) journal: &'a Journal,
}

impl Lines for WriteLines<'_> {
    ghost lines = { λ l. write_lines l.journal.now.rows.writes };

    fn count(&self) -> u32 {
        self.journal.counts().writes
    }

    fn line(&self, k: u32, line: &mut Line) {
        if let Some(row) = self.journal.write(k) {
            fill_write_line(line, row);
        }
    }
}

/// The lines of the device rows of a journal.
#[derive(Drop)]
pub(crate) struct DeviceLines<'a> {
    /// The journal.
    pub(crate) journal: &'a Journal,
}

impl Lines for DeviceLines<'_> {
    ghost lines = { λ l. device_lines l.journal.now.rows.devices };

    fn count(&self) -> u32 {
        self.journal.counts().devices
    }

    fn line(&self, k: u32, line: &mut Line) {
        if let Some(row) = self.journal.device(k) {
            fill_device_line(line, row);
        }
    }
}
