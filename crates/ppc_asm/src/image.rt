//! From a source to its image.

ghost use Rattle.std.specs.Prelude.{◌≡◌, map};
ghost use Rattle.elf_image.specs.Parts.{segment_parts};
ghost use Rattle.asm_places.specs.FirstPass.{fault_at};
ghost use Rattle.ppc_asm.specs.Images.{Assembles, entry_in, has_bytes};

use crate::second::second_pass;
use asm_places::{AsmFault, AsmKind, Places, base_of, first_pass};
use elf_image::{Image, Segments};
use std::alloc::Global;

/// The value of the entry's name, where that is an address.
fn entry_in<'a>(whole: &Places<'a>) -> Option<u64>
    ensures { result ≡ entry_in whole.now.names whole.now.entry }
{
    match &whole.entry {
        Some(name) => base_of(whole.names.value(name.bytes(), whole.names.len())?),
        None => None,
    }
}

/// Whether a segment has a byte.
fn has_bytes(segments: &Segments) -> bool
    ensures { result ≡ has_bytes (map segment_parts segments.now) }
{
    for segment in segments.as_slice().iter() {
        if segment.size != 0 {
            return true;
        }
    }
    false
}

/// The fault of a source as a whole.
fn whole_fault(kind: AsmKind) -> AsmFault
    ensures { result ≡ fault_at 0 kind }
{
    AsmFault::At { line: 0, kind }
}

/// The image that a source means, or its first fault: of the lines the first that is wrong by itself or by those before it, then
/// the first that is wrong once all names are known, each with the first of its kinds; and last what is wrong with the source as a
/// whole. `Memory` may come at any source, and says nothing of it.
pub fn assemble(alloc: Global, bytes: &[u8]) -> Result<Image, AsmFault>
    ensures { Assembles bytes.now result }
{
    let whole = first_pass(alloc, bytes)?;
    let filling = second_pass(alloc, bytes, &whole)?;
    let Some(entry) = entry_in(&whole) else {
        return Err(whole_fault(AsmKind::Entry));
    };
    let segments = filling.finish()?;
    if !has_bytes(&segments) {
        return Err(whole_fault(AsmKind::Empty));
    }
    Ok(Image { entry, segments })
}
