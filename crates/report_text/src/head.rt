//! The lines of a report before those of the threads.

ghost use Rattle.std.specs.Prelude.{◌≡◌, ◌+◌, ◌≤◌, ◌++◌, length};
ghost use Rattle.report_text.specs.EndText.{kind_name, stop_name, full_text, stopped_text, end_text};
ghost use Rattle.report_text.specs.Report.{first_line, end_line, steps_line, tb_line, head_lines};

use journal_core::{Ended, RowKind, StopName};
use line_text::{Line, Lines};

/// The name of a list of rows.
fn kind_name(kind: RowKind) -> &'static [u8]
    ensures name { result.now ≡ kind_name kind }
    ensures most { length result.now ≤ 7 }
{
    match kind {
        RowKind::Reads => b"reads",
        RowKind::Fills => b"fills",
        RowKind::Writes => b"writes",
        RowKind::Dones => b"dones",
        RowKind::Devices => b"devices",
        RowKind::Steps => b"steps",
    }
}

/// The name of a stop.
pub(crate) fn stop_name(name: StopName) -> &'static [u8]
    ensures name { result.now ≡ stop_name name }
    ensures most { length result.now ≤ 15 }
{
    match name {
        StopName::NoStorage => b"NoStorage",
        StopName::Unsupported => b"Unsupported",
        StopName::InvalidForm => b"InvalidForm",
        StopName::DeviceAccess => b"DeviceAccess",
        StopName::ProfileBits => b"ProfileBits",
        StopName::UnknownSpr => b"UnknownSpr",
        StopName::BadInvalidation => b"BadInvalidation",
        StopName::HashedPartition => b"HashedPartition",
        StopName::GuestZero => b"GuestZero",
        StopName::DeviceStop => b"DeviceStop",
    }
}

fn first_line() -> Line
    ensures { result ≡ first_line }
{
    let mut line = Line::new();
    line.push_bytes(b"radix 1\n");
    line
}

fn full_line(kind: RowKind, count: u32) -> Line
    ensures { result ≡ end_line (full_text kind count) }
{
    let mut line = Line::new();
    line.push_bytes(b"end full ");
    line.push_bytes(kind_name(kind));
    line.push(b' ');
    line.push_number(u64::from(count));
    line.push(b'\n');
    line
}

fn stopped_line(name: StopName, value: u64) -> Line
    ensures { result ≡ end_line (stopped_text name value) }
{
    let mut line = Line::new();
    line.push_bytes(b"end stopped ");
    line.push_bytes(stop_name(name));
    line.push(b' ');
    line.push_hex(16, value);
    line.push(b'\n');
    line
}

fn end_line(end: Ended) -> Line
    ensures { result ≡ end_line (end_text end) }
{
    let mut line = Line::new();
    match end {
        Ended::AllRun => {
            line.push_bytes(b"end all\n");
            line
        }
        Ended::ScheduleEnd => {
            line.push_bytes(b"end schedule\n");
            line
        }
        Ended::JournalFull(kind, count) => full_line(kind, count),
        Ended::Stopped(name, value) => stopped_line(name, value),
    }
}

fn steps_line(steps: u32) -> Line
    ensures { result ≡ steps_line steps }
{
    let mut line = Line::new();
    line.push_bytes(b"steps ");
    line.push_number(u64::from(steps));
    line.push(b'\n');
    line
}

fn tb_line(tb: u64) -> Line
    ensures { result ≡ tb_line tb }
{
    let mut line = Line::new();
    line.push_bytes(b"tb ");
    line.push_hex(16, tb);
    line.push(b'\n');
    line
}

/// The lines before those of the threads.
#[derive(Drop)]
pub(crate) struct HeadLines {
    /// How the run ended.
    pub(crate) end: Ended,
    /// How many steps were made.
    pub(crate) steps: u32,
    /// The time base.
    pub(crate) tb: u64,
}

impl Lines for HeadLines {
    ghost lines = { λ h. head_lines h.end h.steps h.tb };

    fn count(&self) -> u32 {
        4
    }

    fn line(&self, k: u32, line: &mut Line) {
        *line = match k {
            0 => first_line(),
            1 => end_line(self.end),
            2 => steps_line(self.steps),
            _ => tb_line(self.tb),
        };
    }
}
