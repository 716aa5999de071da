//! The line of a refusal.

ghost use Rattle.std.specs.Prelude.{◌≡◌, ◌≤◌, ◌++◌, ◌+◌, length, codes};
ghost use Rattle.std.specs.Fmt.{decimal};
ghost use Rattle.line_text.specs.Text.{end_of_line};
ghost use Rattle.radix_top.specs.Causes.{elf_name, asm_name, plug_name, span_text, fault_line};

use crate::status::Refusal;
use asm_places::AsmKind;
use elf_image::{ElfFault, Span};
use line_text::Line;
use ppc_bus::PlugReason;

/// A line of some text.
fn plain(text: &[u8]) -> Line
    requires { length text.now ≤ 100 }
    ensures { result ≡ text.now ++ end_of_line }
{
    let mut line = Line::new();
    line.push_bytes(text);
    line.push(b'\n');
    line
}

/// A line of some text and a number.
fn numbered(text: &[u8], number: usize) -> Line
    requires { length text.now ≤ 100 }
    ensures { result ≡ text.now ++ decimal number ++ end_of_line }
{
    let mut line = Line::new();
    line.push_bytes(text);
    line.push_number(number as u64);
    line.push(b'\n');
    line
}

/// The line of two segments that meet, by the numbers of their headers.
fn overlap_line(i: u8, j: u8) -> Line
    ensures { result ≡ codes "fault image Overlap " ++ decimal i ++ codes " " ++ decimal j ++ end_of_line }
{
    let mut line = Line::new();
    line.push_bytes(b"fault image Overlap ");
    line.push_number(u64::from(i));
    line.push(b' ');
    line.push_number(u64::from(j));
    line.push(b'\n');
    line
}

/// The line of a file that is no image.
fn image_line(fault: ElfFault) -> Line
    ensures { result ≡ codes "fault image " ++ elf_name fault ++ end_of_line }
{
    match fault {
        ElfFault::Short => plain(b"fault image Short"),
        ElfFault::Magic => plain(b"fault image Magic"),
        ElfFault::Class => plain(b"fault image Class"),
        ElfFault::Order => plain(b"fault image Order"),
        ElfFault::Machine => plain(b"fault image Machine"),
        ElfFault::Abi => plain(b"fault image Abi"),
        ElfFault::FileType => plain(b"fault image FileType"),
        ElfFault::Header => plain(b"fault image Header"),
        ElfFault::TooMany => plain(b"fault image TooMany"),
        ElfFault::Segment(number) => numbered(b"fault image Segment ", usize::from(number)),
        ElfFault::Overlap(i, j) => overlap_line(i, j),
        ElfFault::Memory => plain(b"fault image Memory"),
    }
}

/// The name of what is wrong with a source.
fn asm_name(kind: AsmKind) -> &'static [u8]
    ensures name { result.now ≡ asm_name kind }
    ensures most { length result.now ≤ 9 }
{
    match kind {
        AsmKind::Lex => b"Lex",
        AsmKind::Form => b"Form",
        AsmKind::Twice => b"Twice",
        AsmKind::NoSegment => b"NoSegment",
        AsmKind::Lines => b"Lines",
        AsmKind::Unknown => b"Unknown",
        AsmKind::Range => b"Range",
        AsmKind::Overlap => b"Overlap",
        AsmKind::Entry => b"Entry",
        AsmKind::Segments => b"Segments",
        AsmKind::Empty => b"Empty",
    }
}

/// The line of a source that is wrong.
fn asm_line(number: u32, kind: AsmKind) -> Line
    ensures { result ≡ codes "fault asm " ++ decimal number ++ codes " " ++ asm_name kind ++ end_of_line }
{
    let mut line = Line::new();
    line.push_bytes(b"fault asm ");
    line.push_number(u64::from(number));
    line.push(b' ');
    line.push_bytes(asm_name(kind));
    line.push(b'\n');
    line
}

/// Adds the two ends of a range.
fn push_span(line: &mut Line, range: Span)
    requires { length line.old ≤ 100 }
    ensures text { line.new ≡ line.old ++ span_text range }
    ensures len { length line.new ≡ length line.old + 34 }
{
    line.push(b' ');
    line.push_hex(16, range.from);
    line.push(b' ');
    line.push_hex(16, range.to);
}

/// The line of a range that has no place beside another one.
fn place_line(range: Span, other: Span) -> Line
    ensures { result ≡ codes "fault place" ++ span_text range ++ span_text other ++ end_of_line }
{
    let mut line = Line::new();
    line.push_bytes(b"fault place");
    push_span(&mut line, range);
    push_span(&mut line, other);
    line.push(b'\n');
    line
}

/// Adds the name of the reason why a device is not plugged, and the slot that its window meets.
fn push_reason(line: &mut Line, reason: PlugReason)
    requires { length line.old ≤ 100 }
    ensures text { line.new ≡ line.old ++ plug_name reason }
    ensures len { length line.new ≤ length line.old + 40 }
{
    match reason {
        PlugReason::SlotsFull => line.push_bytes(b"SlotsFull"),
        PlugReason::BadWindow => line.push_bytes(b"BadWindow"),
        PlugReason::SlotUsed(slot) => {
            line.push_bytes(b"SlotUsed ");
            line.push_number(u64::from(slot));
        }
    }
}

/// The line of a device that cannot be plugged.
fn device_line(number: usize, reason: PlugReason) -> Line
    ensures { result ≡ codes "fault device " ++ decimal number ++ codes " " ++ plug_name reason ++ end_of_line }
{
    let mut line = Line::new();
    line.push_bytes(b"fault device ");
    line.push_number(number as u64);
    line.push(b' ');
    push_reason(&mut line, reason);
    line.push(b'\n');
    line
}

/// The line that a refusal prints.
pub fn fault_line(refusal: Refusal) -> Line
    ensures { result ≡ fault_line refusal }
{
    match refusal {
        Refusal::Usage(place) => numbered(b"fault usage ", place),
        Refusal::ReadFault(place) => numbered(b"fault read ", place),
        Refusal::TooLong(place) => numbered(b"fault long ", place),
        Refusal::BadImage(fault) => image_line(fault),
        Refusal::BadSchedule(place) => numbered(b"fault schedule ", place),
        Refusal::BadAsm(line, kind) => asm_line(line, kind),
        Refusal::BadPlace(range, other) => place_line(range, other),
        Refusal::BadDevice(number, reason) => device_line(number, reason),
        Refusal::Memory => plain(b"fault memory"),
    }
}
