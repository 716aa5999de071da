//! The segments of a generated image.

ghost use Rattle.std.specs.Prelude.{◌≡◌, ◌++◌, ◌+◌, ◌-◌, ◌≤◌, ◌<◌, ◌^◌, map, length, replicate, IfOk, OnOk};
ghost use Rattle.elf_image.specs.Parts.{segment_parts};
ghost use Rattle.gen_image.specs.Code.{code_bytes};
ghost use Rattle.gen_image.specs.Forms.{AreForms};
ghost use Rattle.gen_image.specs.Tables as tables;
ghost use Rattle.gen_image.specs.Generated as said;

use crate::code::{beginning, handler, push_code, push_guest_code};
use crate::tables::{base, push_partition_table, push_partition_tree, push_process_tables};
use elf_image::{Bytes, Segment};
use ppc_ops::Insn;
use std::alloc::{AllocError, Global};

/// How many bytes a guest's first pages have.
const PAGES: usize = 0x6000;

/// A segment that is no longer than its bytes.
fn segment(at: u64, bytes: Vec<u8>) -> Segment
    requires { at < 2 ^ 32 }
    ensures { segment_parts result ≡ said.segment at bytes.items }
{
    let size = bytes.len() as u64;
    Segment::of(at, size, Bytes::of(bytes))
}

/// The segment of some code.
fn code_segment(alloc: Global, at: u64, code: &[Insn]) -> Result<Segment, AllocError>
    requires at { at < 2 ^ 32 }
    requires forms { AreForms code.now }
    ensures { IfOk result (λ s. segment_parts s ≡ said.segment at (code_bytes code.now)) }
{
    let mut bytes = Vec::new(alloc);
    push_code(&mut bytes, code)?;
    Ok(segment(at, bytes))
}

/// The segment of the partition table.
fn partition_table(alloc: Global) -> Result<Segment, AllocError>
    ensures { IfOk result (λ s. segment_parts s ≡ said.segment 0x20000 (tables.table_bytes tables.partition_table)) }
{
    let mut bytes = Vec::new(alloc);
    push_partition_table(&mut bytes)?;
    Ok(segment(0x2_0000, bytes))
}

/// The segment of the tree through which a guest's addresses are translated.
fn partition_tree(alloc: Global, guest: u8) -> Result<Segment, AllocError>
    ensures { IfOk result (λ s. segment_parts s ≡ said.segment (tables.base guest) (tables.table_bytes (tables.partition_tree guest))) }
{
    let mut bytes = Vec::new(alloc);
    push_partition_tree(&mut bytes, guest)?;
    Ok(segment(base(guest), bytes))
}

/// Puts zeros behind some bytes, up to so many bytes.
fn pad(out: &mut Vec<u8>, size: usize) -> Result<(), AllocError>
    requires { length out.old.items ≤ size }
    ensures { OnOk result (out.new.items ≡ out.old.items ++ replicate (size - length out.old.items) 0) }
{
    out.resize(size, 0)
}

/// The segment of a guest's pages 0 to 5: its tables, and behind them its code.
fn guest_pages(alloc: Global, guest: u8, draws: &[u8]) -> Result<Segment, AllocError>
    requires { length draws.now ≤ 64 }
    ensures { IfOk result (λ s. segment_parts s ≡ said.segment (tables.base guest + 0x10000) (said.guest_pages draws.now)) }
{
    let mut bytes = Vec::new(alloc);
    push_process_tables(&mut bytes)?;
    push_guest_code(&mut bytes, draws)?;
    pad(&mut bytes, PAGES)?;
    Ok(segment(base(guest) + 0x1_0000, bytes))
}

/// All segments, by the draws of the guests.
pub(crate) fn segments(
    alloc: Global,
    first: &[u8],
    second: &[u8],
) -> Result<Vec<Segment>, AllocError>
    requires first { length first.now ≤ 64 }
    requires second { length second.now ≤ 64 }
    ensures { IfOk result (λ v. map segment_parts v.items ≡ said.segments first.now second.now) }
{
    let segments = vec![in alloc;
        code_segment(alloc, 0xc00, &handler())?,
        code_segment(alloc, 0x1_0000, &beginning())?,
        partition_table(alloc)?,
        partition_tree(alloc, 1)?,
        guest_pages(alloc, 1, first)?,
        partition_tree(alloc, 2)?,
        guest_pages(alloc, 2, second)?,
    ]?;
    Ok(segments)
}
