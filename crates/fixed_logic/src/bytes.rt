//! A comparison byte by byte, and a choice of bits (Power ISA, Book I, 3.3.13).

ghost use Rattle.std.specs.Prelude.{◌≡◌, ◌<◌};
ghost use Rattle.fixed_logic.specs.Bytes.{equality_of, cmpb_of, picked, bpermd_of};

/// Ones where the bytes are equal, else zeros.
fn equality(x: u8, y: u8) -> u8
    ensures { result ≡ equality_of x y }
{
    if x == y { 0xff } else { 0 }
}

pub(crate) fn cmpb(s: u64, b: u64) -> u64
    ensures { result ≡ cmpb_of s b }
{
    let x = s.to_be_bytes();
    let y = b.to_be_bytes();
    u64::from_be_bytes([
        equality(x[0], y[0]),
        equality(x[1], y[1]),
        equality(x[2], y[2]),
        equality(x[3], y[3]),
        equality(x[4], y[4]),
        equality(x[5], y[5]),
        equality(x[6], y[6]),
        equality(x[7], y[7]),
    ])
}

/// Bit n, 0 where there is none.
fn pick(b: u64, n: u8) -> u64
    ensures value { result ≡ picked b n }
    ensures bound { result < 2 }
{
    if n < 64 { b >> (63 - n) & 1 } else { 0 }
}

pub(crate) fn bpermd(s: u64, b: u64) -> u64
    ensures { result ≡ bpermd_of s b }
{
    let n = s.to_be_bytes();
    let high = 8 * pick(b, n[0]) + (4 * pick(b, n[1]) + (2 * pick(b, n[2]) + pick(b, n[3])));
    let low = 8 * pick(b, n[4]) + (4 * pick(b, n[5]) + (2 * pick(b, n[6]) + pick(b, n[7])));
    16 * high + low
}
