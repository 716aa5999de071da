//! Segments that meet others, and one too many.

ghost use Rattle.std.specs.Prelude.{◌≡◌, take};
ghost use Rattle.asm_contents.specs.Contents as said;

use asm_places::{AsmKind, SegmentLine};

/// The most segments of a source.
const MOST_SEGMENTS: usize = 64;

/// Whether both segments have bytes, and one address is in both.
fn meet(one: &SegmentLine, other: &SegmentLine) -> bool
    ensures { result ≡ said.meet one.now other.now }
{
    let end = u128::from(one.base) + u128::from(one.size);
    let other_end = u128::from(other.base) + u128::from(other.size);
    one.size != 0
        && other.size != 0
        && u128::from(one.base) < other_end
        && u128::from(other.base) < end
}

/// Whether the segment meets one of these.
fn meets_one(segment: &SegmentLine, others: &[SegmentLine]) -> bool
    ensures { result ≡ said.meets_one segment.now others.now }
{
    for other in others.iter() {
        if meet(segment, other) {
            return true;
        }
    }
    false
}

/// What is wrong with the segment that has so many before it: it meets one of these, or is the 65th.
pub(crate) fn segment_kind(segments: &[SegmentLine], before: usize) -> Option<AsmKind>
    ensures { result ≡ said.segment_kind segments.now before }
{
    if let Some(segment) = segments.get(before) {
        if meets_one(segment, &segments[..before]) {
            return Some(AsmKind::Overlap);
        }
    }
    if before >= MOST_SEGMENTS {
        return Some(AsmKind::Segments);
    }
    None
}
