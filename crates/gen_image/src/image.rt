//! Generated images.

ghost use Rattle.gen_image.specs.Generated.{Generates};

use crate::draws::all_draws;
use crate::fault::GenFault;
use crate::segments::segments;
use elf_image::{Image, Segments};
use std::alloc::Global;

/// The greatest size.
const MOST_DRAWS: u8 = 64;

/// Where a generated image starts.
const ENTRY: u64 = 0x1_0000;

/// The image of a seed and a size, which is how many draws each guest has.
///
/// `Memory` may come at any size that is allowed.
pub fn generate(alloc: Global, seed: u64, size: u8) -> Result<Image, GenFault>
    ensures { Generates seed size result }
{
    if size < 1 || size > MOST_DRAWS {
        return Err(GenFault::SizeLimit);
    }
    let draws = all_draws(alloc, seed, size)?;
    let (first, second) = draws.as_slice().split_at(usize::from(size));
    Ok(Image {
        entry: ENTRY,
        segments: Segments::of(segments(alloc, first, second)?),
    })
}
