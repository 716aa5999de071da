//! Whether what is loaded has its place.

ghost use Rattle.std.specs.Prelude.{◌≡◌, ◌<◌, ◌≤◌, ◌+◌, length, take, Some, slice_get};
ghost use Rattle.elf_image.specs.Ranges.{leaves, segment_range, guest_range, ranges_of};
ghost use Rattle.elf_image.specs.Places.{rival_of, span_of, bad_place_of};

use crate::address_range::{AddressRange, end_of, meets};
use crate::guests::{Guest, Guests};
use crate::image::Image;
use crate::segment::Segment;
use crate::span::Span;

/// How many bytes one MiB has.
const MIB: u64 = 1_048_576;

/// The range of a segment.
fn segment_range(segment: &Segment) -> AddressRange
    ensures { result ≡ segment_range segment.now }
{
    AddressRange {
        at: segment.at,
        size: segment.size,
    }
}

/// The range of a guest.
fn guest_range(guest: &Guest) -> AddressRange
    ensures { result ≡ guest_range guest.now }
{
    AddressRange {
        at: guest.at,
        size: guest.bytes.len() as u64,
    }
}

/// A range by its number, where the segments come first and the guests after them.
fn range_at(segments: &[Segment], guests: &[Guest], number: usize) -> AddressRange
    requires { number < length segments.now + length guests.now }
    ensures { slice_get (ranges_of segments.now guests.now) number ≡ Some result }
{
    if number < segments.len() {
        segment_range(&segments[number])
    } else {
        guest_range(&guests[number - segments.len()])
    }
}

/// Whether a range has an address outside RAM, which begins at 0.
fn leaves(range: AddressRange, ram: AddressRange) -> bool
    ensures { result ≡ leaves range ram }
{
    range.size > 0 && end_of(ram) < end_of(range)
}

/// What a range has no place beside: RAM where it leaves this, and else the first that it meets of
/// the ranges before a number.
fn rival(
    segments: &[Segment],
    guests: &[Guest],
    number: usize,
    range: AddressRange,
    ram: AddressRange,
) -> Option<AddressRange>
    requires { number ≤ length segments.now + length guests.now }
    ensures { result ≡ rival_of ram (take number (ranges_of segments.now guests.now)) range }
{
    if leaves(range, ram) {
        return Some(ram);
    }
    for i in 0..number {
        let earlier = range_at(segments, guests, i);
        if meets(earlier, range) {
            return Some(earlier);
        }
    }
    None
}

/// A range by its two ends.
fn span(range: AddressRange) -> Span
    ensures { result ≡ span_of range }
{
    Span {
        from: range.at,
        to: range.at.saturating_add(range.size),
    }
}

/// The first range without a place in RAM of this many MiB, and the range that stands against it.
///
/// The ranges are those of the segments and then those of the guests, and empty ones are passed
/// over. The first of the pair is the first range that leaves RAM or meets an earlier range; the
/// second is RAM's where it leaves RAM, and else the first of the earlier ranges that it meets.
pub fn bad_place(image: &Image, guests: &Guests, ram_mib: u16) -> Option<(Span, Span)>
    ensures { result ≡ bad_place_of image.now guests.now ram_mib }
{
    let segments = image.segments.as_slice();
    let guests = guests.as_slice();
    let ram = AddressRange {
        at: 0,
        size: u64::from(ram_mib) * MIB,
    };
    for number in 0..segments.len() + guests.len() {
        let range = range_at(segments, guests, number);
        match rival(segments, guests, number, range, ram) {
            Some(other) => return Some((span(range), span(other))),
            None => {}
        }
    }
    None
}
