//! Segments that are being filled.

ghost use Rattle.std.specs.Prelude.{◌≡◌, ◌≤◌, ◌+◌, ◌++◌, ◌^◌, length, map, Some, IfOk, OnOk, OnErr};
ghost use Rattle.elf_image.specs.Parts.{segment_parts};
ghost use Rattle.asm_contents.specs.Contents.{content_bytes};
ghost use Rattle.ppc_asm.specs.Images.{segment_at};
ghost use Rattle.ppc_asm.specs.Filling as said;
ghost use Rattle.ppc_asm.specs.Filling.{HasRoom, closed, part_of};

use asm_contents::Content;
use elf_image::{Bytes, Segment, Segments};
use std::alloc::{AllocError, Global};
use std::marker::Model;

/// A segment with the bytes that it has so far.
#[derive(Debug, Drop)]
struct Unfinished {
    base: u64,
    bytes: Vec<u8>,
}

/// Segments of which the last is being filled. Contracts see their parts.
#[derive(Debug, Drop)]
pub(crate) struct Filling {
    finished: Vec<Segment>,
    last: Option<Unfinished>,
}

impl Model for Filling {
    ghost use Rattle.ppc_asm.specs.Filling.{Filled, filled_of, EndsBelow};

    ghost Value = { Filled };

    ghost view = { filled_of };

    ghost invariant = { EndsBelow };
}

/// The segment with the bytes that it has.
fn close(segment: Unfinished) -> Segment
    requires { HasRoom 0 (Some (part_of segment)) }
    ensures { segment_parts result ≡ segment_at segment.base segment.bytes.items }
{
    let size = segment.bytes.len() as u64;
    Segment::of(segment.base, size, Bytes::of(segment.bytes))
}

/// Adds bytes.
fn add_bytes(bytes: &mut Vec<u8>, content: &Content) -> Result<(), AllocError>
    ensures added { OnOk result (bytes.new.items ≡ bytes.old.items ++ content_bytes content.now) }
    ensures kept { OnErr result (bytes.new.items ≡ bytes.old.items) }
{
    match content {
        Content::Nothing => Ok(()),
        Content::Word(number) => bytes.extend_from_slice(&number.to_le_bytes()),
        Content::Doubleword(number) => bytes.extend_from_slice(&number.to_le_bytes()),
        Content::BigEndianDoubleword(number) => bytes.extend_from_slice(&number.to_be_bytes()),
        Content::Text(text) => bytes.extend_from_slice(text.bytes()),
        Content::Zeros(count) => bytes.resize(bytes.len() + *count as usize, 0),
    }
}

impl Filling {
    /// No segments. Takes no memory.
    pub(crate) fn new(alloc: Global) -> Filling
        ensures { result ≡ said.no_segments }
    {
        Filling {
            finished: Vec::new(alloc),
            last: None,
        }
    }

    /// Finishes the segment that is being filled, where there is one.
    fn finish_last(&mut self) -> Result<(), AllocError>
        ensures { OnOk result (self.new ≡ said.with_finished self.old) }
    {
        match self.last.take() {
            Some(segment) => match self.finished.push(close(segment)) {
                Ok(()) => Ok(()),
                Err(_failed) => Err(AllocError),
            },
            None => Ok(()),
        }
    }

    /// Begins another segment, which will have so many bytes.
    pub(crate) fn begin(&mut self, alloc: Global, base: u64, size: usize) -> Result<(), AllocError>
        ensures { OnOk result (self.new ≡ said.with_segment base self.old) }
    {
        self.finish_last()?;
        let bytes = Vec::with_capacity(alloc, size)?;
        self.last = Some(Unfinished { base, bytes });
        Ok(())
    }

    /// Adds bytes to the segment that is being filled, where there is one.
    pub(crate) fn add(&mut self, content: &Content) -> Result<(), AllocError>
        requires { HasRoom (length (content_bytes content.now)) self.old.last }
        ensures { OnOk result (self.new ≡ said.filled (content_bytes content.now) self.old) }
    {
        match &mut self.last {
            Some(segment) => add_bytes(&mut segment.bytes, content),
            None => Ok(()),
        }
    }

    /// The segments.
    pub(crate) fn finish(self) -> Result<Segments, AllocError>
        ensures { IfOk result (λ segments. map segment_parts segments ≡ closed self) }
    {
        let mut filling = self;
        filling.finish_last()?;
        Ok(Segments::of(filling.finished))
    }
}
