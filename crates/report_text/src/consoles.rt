//! The lines that show what devices showed.

ghost use Rattle.std.specs.Prelude.{◌≡◌, ◌+◌, ◌-◌, ◌^◌, ◌≤◌, ◌<◌, ◌++◌, ℕ, [], ◌∷◌, length, take, slice_index};
ghost use Rattle.outer_io.specs.Outside.{Puts};
ghost use Rattle.line_text.specs.Text.{text_of};
ghost use Rattle.report_text.specs.ConsoleText.{signal_bytes, console_bytes, escape, escaped, console_head, console_line, console_lines};

use journal_core::{DeviceRow, Journal, Signal};
use line_text::Line;
use outer_io::{Sink, SinkFault};

/// How many slots a device row can name.
const SLOTS: usize = 256;

/// How many device rows a piece of a console's line covers at most: a byte of each takes four bytes at most.
const PIECE_ROWS: u32 = 100;

/// Counts the byte that a row shows, if any.
fn count_row(counts: &mut [u32; SLOTS], row: &DeviceRow)
    requires { (slot : ℕ) → slot < 256 → slice_index counts.old slot < 2 ^ 32 - 1 }
    ensures { (slot : ℕ) → slot < 256 → slice_index counts.new slot ≡ slice_index counts.old slot + length (console_bytes slot (row.now ∷ [])) }
{
    if let Signal::Byte(_) = row.signal {
        counts[row.slot as usize] += 1;
    }
}

/// How many bytes the device of each slot shows.
fn count_bytes(journal: &Journal) -> [u32; SLOTS]
    ensures { (slot : ℕ) → slot < 256 → slice_index result slot ≡ length (console_bytes slot journal.now.rows.devices) }
{
    let mut counts = [0u32; SLOTS];
    for k in 0..journal.counts().devices {
        if let Some(row) = journal.device(k) {
            count_row(&mut counts, row);
        }
    }
    counts
}

/// Adds a byte as it is shown.
fn push_escape(line: &mut Line, byte: u8)
    requires { length line.old + 4 ≤ 512 }
    ensures text { line.new ≡ line.old ++ escape byte }
    ensures len { length line.new ≤ length line.old + 4 }
{
    if byte == b'\\' {
        line.push_bytes(b"\\\\");
    } else if byte == b'\n' {
        line.push_bytes(b"\\n");
    } else if byte >= b' ' && byte <= b'~' {
        line.push(byte);
    } else {
        line.push_bytes(b"\\x");
        line.push_hex(2, u64::from(byte));
    }
}

/// Adds what a row shows of a slot.
fn push_shown(line: &mut Line, slot: u8, row: &DeviceRow)
    requires { length line.old + 4 ≤ 512 }
    ensures text { line.new ≡ line.old ++ escaped (console_bytes slot (row.now ∷ [])) }
    ensures len { length line.new ≤ length line.old + 4 }
{
    if row.slot != slot {
        return;
    }
    if let Signal::Byte(byte) = row.signal {
        push_escape(line, byte);
    }
}

/// What the rows from `from` up to `end` show of a slot.
fn piece(slot: u8, journal: &Journal, from: u32, end: u32) -> Line
    requires order { from ≤ end }
    requires most { end ≤ from + PIECE_ROWS }
    requires rows { end ≤ length journal.now.rows.devices }
    ensures { escaped (console_bytes slot (take from journal.now.rows.devices)) ++ result ≡ escaped (console_bytes slot (take end journal.now.rows.devices)) }
{
    let mut line = Line::new();
    for k in from..end {
        if let Some(row) = journal.device(k) {
            push_shown(&mut line, slot, row);
        }
    }
    line
}

/// Puts what a slot shows, in pieces.
fn put_bytes<K: Sink>(slot: u8, journal: &Journal, out: &mut K) -> Result<(), SinkFault>
    ensures { Puts (K.told out.old) (K.told out.new) (K.faults out.old) (K.faults out.new) result (escaped (console_bytes slot journal.now.rows.devices)) }
{
    let count = journal.counts().devices;
    let mut from = 0;
    while from < count {
        let end = from + (count - from).min(PIECE_ROWS);
        out.put(piece(slot, journal, from, end).as_slice())?;
        from = end;
    }
    Ok(())
}

/// The front of a line that shows so many bytes of a slot.
fn console_head(slot: u8, count: u32) -> Line
    ensures { result ≡ console_head slot count }
{
    let mut line = Line::new();
    line.push_bytes(b"console ");
    line.push_number(u64::from(slot));
    line.push(b' ');
    line.push_number(u64::from(count));
    line.push(b' ');
    line
}

/// Puts the line of a slot that shows so many bytes; none where there is no byte.
fn put_console<K: Sink>(
    slot: u8,
    count: u32,
    journal: &Journal,
    out: &mut K,
) -> Result<(), SinkFault>
    requires { count ≡ length (console_bytes slot journal.now.rows.devices) }
    ensures { Puts (K.told out.old) (K.told out.new) (K.faults out.old) (K.faults out.new) result (console_line slot (console_bytes slot journal.now.rows.devices)) }
{
    if count == 0 {
        return Ok(());
    }
    out.put(console_head(slot, count).as_slice())?;
    put_bytes(slot, journal, out)?;
    out.put(b"\n")
}

/// Puts the lines of all slots that show a byte.
pub(crate) fn put_consoles<K: Sink>(journal: &Journal, out: &mut K) -> Result<(), SinkFault>
    ensures { Puts (K.told out.old) (K.told out.new) (K.faults out.old) (K.faults out.new) result (text_of (console_lines journal.now.rows.devices)) }
{
    let counts = count_bytes(journal);
    for (slot, count) in counts.iter().enumerate() {
        put_console(slot as u8, *count, journal, out)?;
    }
    Ok(())
}
