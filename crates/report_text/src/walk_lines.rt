//! The lines of read rows and of fill rows.

ghost use Rattle.std.specs.Prelude.{◌≡◌, ◌+◌, ◌*◌, ◌≤◌, length, map};
ghost use Rattle.std.specs.Fmt.{decimal};
ghost use Rattle.outer_io.specs.Outside.{Puts};
ghost use Rattle.journal_core.specs.Standing.{fill_reads};
ghost use Rattle.report_text.specs.Words.{with_words};
ghost use Rattle.report_text.specs.WalkText.{role_name, entry_name, read_line, read_lines, fill_line, fill_lines};

use crate::words::{push_byte, push_decimal, push_hex, push_short, push_word};
use journal_core::{FillRow, Journal, KeyKind, ReadRow, Role};
use line_text::{Line, Lines};
use outer_io::{Sink, SinkFault};

/// The name of what a doubleword was read as.
fn role_name(role: Role) -> &'static [u8]
    ensures name { result.now ≡ role_name role }
    ensures most { length result.now ≤ 5 }
{
    match role {
        Role::Pate => b"pate",
        Role::Prte => b"prte",
        Role::ProcessDir => b"pdir",
        Role::ProcessLeaf => b"pleaf",
        Role::PartDir => b"gdir",
        Role::PartLeaf => b"gleaf",
    }
}

/// Makes a line that of a read row with its number.
fn make_read_line(line: &mut Line, number: u32, row: &ReadRow)
    ensures { line.new ≡ read_line number row.now }
{
    line.clear();
    line.push(b'r');
    push_decimal(line, u64::from(number));
    push_word(line, role_name(row.role));
    push_decimal(line, u64::from(row.lpid));
    push_decimal(line, u64::from(row.pid));
    push_hex(line, 16, row.sought);
    push_decimal(line, u64::from(row.level));
    push_decimal(line, u64::from(row.left));
    push_hex(line, 16, row.at);
    push_hex(line, 16, row.value);
    push_decimal(line, u64::from(row.moment));
    line.push(b'\n');
}

/// The name of what a kept entry answers.
fn entry_name(kind: KeyKind) -> &'static [u8]
    ensures name { result.now ≡ entry_name kind }
    ensures most { length result.now ≤ 5 }
{
    match kind {
        KeyKind::Translation => b"trans",
        KeyKind::GuestPage => b"gpage",
        KeyKind::ProcessDir => b"pdir",
        KeyKind::PartDir => b"gdir",
    }
}

/// Adds numbers, each behind a space.
fn push_numbers(line: &mut Line, numbers: &[u32])
    requires { length line.old + 11 * length numbers.now + 10 ≤ 512 }
    ensures text { line.new ≡ with_words line.old (map decimal numbers.now) }
    ensures len { length line.new ≤ length line.old + 11 * length numbers.now }
{
    for number in numbers {
        push_short(line, *number);
    }
}

/// Adds the numbers of the reads that led to an entry.
fn push_reads(line: &mut Line, row: &FillRow)
    requires { length line.old + 406 ≤ 512 }
    ensures text { line.new ≡ with_words line.old (map decimal (fill_reads row.now)) }
    ensures len { length line.new ≤ length line.old + 396 }
{
    let count = usize::from(row.count).min(row.reads.len());
    push_numbers(line, &row.reads[..count]);
}

/// Makes a line that of a fill row with its number.
fn make_fill_line(line: &mut Line, number: u32, row: &FillRow)
    ensures { line.new ≡ fill_line number row.now }
{
    line.clear();
    line.push(b'f');
    push_short(line, number);
    push_byte(line, row.thread);
    push_word(line, entry_name(row.key.kind));
    push_short(line, u32::from(row.key.lpid));
    push_short(line, row.key.pid);
    push_byte(line, row.key.left);
    push_hex(line, 16, row.key.page);
    push_byte(line, row.level);
    push_short(line, row.moment);
    push_byte(line, row.count);
    push_reads(line, row);
    line.push(b'\n');
}

/// Puts the line of a read row with its number, as one piece. Takes no memory.
pub fn print_read<K: Sink>(number: u32, row: &ReadRow, out: &mut K) -> Result<(), SinkFault>
    ensures { Puts (K.told out.old) (K.told out.new) (K.faults out.old) (K.faults out.new) result (read_line number row.now) }
{
    let mut line = Line::new();
    make_read_line(&mut line, number, row);
    out.put(line.as_slice())
}

/// Puts the line of a fill row with its number, as one piece. Takes no memory.
pub fn print_fill<K: Sink>(number: u32, row: &FillRow, out: &mut K) -> Result<(), SinkFault>
    ensures { Puts (K.told out.old) (K.told out.new) (K.faults out.old) (K.faults out.new) result (fill_line number row.now) }
{
    let mut line = Line::new();
    make_fill_line(&mut line, number, row);
    out.put(line.as_slice())
}

/// The lines of the read rows of a journal.
#[derive(Drop)]
pub(crate) struct ReadLines<'a> {
    /// The journal.
    pub(crate) journal: &'a Journal,
}

impl Lines for ReadLines<'_> {
    ghost lines = { λ l. read_lines l.journal.now.rows.reads };

    fn count(&self) -> u32 {
        self.journal.counts().reads
    }

    fn line(&self, k: u32, line: &mut Line) {
        if let Some(row) = self.journal.read(k) {
            make_read_line(line, k, row);
        }
    }
}

/// The lines of the fill rows of a journal.
#[derive(Drop)]
pub(crate) struct FillLines<'a> {
    /// The journal.
    pub(crate) journal: &'a Journal,
}

impl Lines for FillLines<'_> {
    ghost lines = { λ l. fill_lines l.journal.now.rows.fills };

    fn count(&self) -> u32 {
        self.journal.counts().fills
    }

    fn line(&self, k: u32, line: &mut Line) {
        if let Some(row) = self.journal.fill(k) {
            make_fill_line(line, k, row);
        }
    }
}
