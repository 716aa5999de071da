//! Laws of sources and their images. Each function does nothing: its contract is the law.

ghost use Rattle.ppc_asm.specs.Laws.{SourcesHaveSegments};

/// The image of a source has 1 to 64 segments, so that it can be written as a file.
pub fn a_source_has_1_to_64_segments()
    ensures { SourcesHaveSegments }
{}
