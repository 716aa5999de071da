//! The listing of an image.

ghost use Rattle.std.specs.Prelude.{◌≡◌, ◌+◌, ◌*◌, ◌≤◌, length};
ghost use Rattle.outer_io.specs.Outside.{Puts};
ghost use Rattle.line_text.specs.Text.{text_of};
ghost use Rattle.elf_image.specs.Fields.{word_at};
ghost use Rattle.report_text.specs.Listing.{listed_word, segment_lines, listing};

use byteorder::{ByteOrder, LittleEndian};
use elf_image::{Image, Segment};
use line_text::Line;
use outer_io::{Sink, SinkFault};
use ppc_disasm::push_word;

/// The word of some bytes that has `k` words before it, its lowest byte first.
fn word_at(bytes: &[u8], k: usize) -> u32
    requires { 4 * k + 4 ≤ length bytes.now }
    ensures { result ≡ word_at bytes.now (4 * k) }
{
    LittleEndian::read_u32(&bytes[4 * k..])
}

/// Makes `line` the line of the word at this address, whatever it was.
fn fill_line(line: &mut Line, at: u64, word: u32)
    ensures { line.new ≡ listed_word at word }
{
    line.clear();
    line.push_hex(16, at);
    line.push(b' ');
    line.push_hex(8, u64::from(word));
    line.push(b' ');
    push_word(line, word);
    line.push(b'\n');
}

/// Puts the lines of a segment's words, each made in `line`.
fn put_segment<K: Sink>(segment: &Segment, line: &mut Line, out: &mut K) -> Result<(), SinkFault>
    ensures { Puts (K.told out.old) (K.told out.new) (K.faults out.old) (K.faults out.new) result (text_of (segment_lines segment.now)) }
{
    let bytes = segment.bytes.as_slice();
    for k in 0..bytes.len() / 4 {
        fill_line(line, segment.at + 4 * k as u64, word_at(bytes, k));
        out.put(line.as_slice())?;
    }
    Ok(())
}

/// Puts the listing of an image: for each whole word of a segment's bytes a line with its address, its digits and its text.
/// Each line is one piece. Stops at the first fault of the sink, which then has a front of the listing. Takes no memory.
pub fn print_listing<K: Sink>(image: &Image, out: &mut K) -> Result<(), SinkFault>
    ensures { Puts (K.told out.old) (K.told out.new) (K.faults out.old) (K.faults out.new) result (listing image.now) }
{
    let mut line = Line::new();
    for segment in image.segments.as_slice() {
        put_segment(segment, &mut line, out)?;
    }
    Ok(())
}
