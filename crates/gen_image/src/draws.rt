//! Numbers that are drawn, in a fixed order for each seed.

ghost use Rattle.std.specs.Prelude.{◌≡◌, ◌*◌, ◌≤◌, IfOk};
ghost use Rattle.gen_image.specs.Draws as said;

use std::alloc::{AllocError, Global};

/// The number behind another.
fn next(x: u64) -> u64
    ensures { result ≡ said.next x }
{
    x.wrapping_mul(6_364_136_223_846_793_005)
        .wrapping_add(1_442_695_040_888_963_407)
}

/// What is drawn with a number: 0 to `size - 1`.
fn drawn(size: u8, x: u64) -> u8
    requires { 1 ≤ size }
    ensures { result ≡ said.drawn size x }
{
    ((x >> 33) % u64::from(size)) as u8
}

/// The draws of both guests: first `size` draws of guest 1, and then as many of guest 2.
pub(crate) fn all_draws(alloc: Global, seed: u64, size: u8) -> Result<Vec<u8>, AllocError>
    requires { 1 ≤ size }
    ensures { IfOk result (λ v. v.items ≡ said.draws size seed (2 * size)) }
{
    let count = 2 * usize::from(size);
    let mut draws = Vec::with_capacity(alloc, count)?;
    let mut x = seed;
    for _ in 0..count {
        x = next(x);
        draws.push(drawn(size, x))?;
    }
    Ok(draws)
}
