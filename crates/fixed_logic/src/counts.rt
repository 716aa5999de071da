//! Counts of zeros and ones, and parities (Power ISA, Book I, 3.3.13).

ghost use Rattle.std.specs.Prelude.{◌≡◌, ◌≤◌};
ghost use Rattle.fixed_logic.specs.Counts.{ones_of, cntlzw_of, cntlzd_of, cnttzw_of, cnttzd_of, popcntb_of, popcntw_of, popcntd_of, prtyw_of, prtyd_of};

use ppc_bits::low_word;

pub(crate) fn cntlzw(s: u64) -> u64
    ensures { result ≡ cntlzw_of s }
{
    u64::from(low_word(s).leading_zeros())
}

pub(crate) fn cntlzd(s: u64) -> u64
    ensures { result ≡ cntlzd_of s }
{
    u64::from(s.leading_zeros())
}

pub(crate) fn cnttzw(s: u64) -> u64
    ensures { result ≡ cnttzw_of s }
{
    u64::from(low_word(s).trailing_zeros())
}

pub(crate) fn cnttzd(s: u64) -> u64
    ensures { result ≡ cnttzd_of s }
{
    u64::from(s.trailing_zeros())
}

/// The ones of a byte.
fn ones(byte: u8) -> u8
    ensures { result ≡ ones_of 8 byte }
{
    byte.count_ones() as u8
}

pub(crate) fn popcntb(s: u64) -> u64
    ensures { result ≡ popcntb_of s }
{
    let [a, b, c, d, e, f, g, h] = s.to_be_bytes();
    u64::from_be_bytes([
        ones(a),
        ones(b),
        ones(c),
        ones(d),
        ones(e),
        ones(f),
        ones(g),
        ones(h),
    ])
}

pub(crate) fn popcntw(s: u64) -> u64
    ensures { result ≡ popcntw_of s }
{
    let high = (s >> 32) as u32;
    let low = low_word(s);
    (u64::from(high.count_ones()) << 32) + u64::from(low.count_ones())
}

pub(crate) fn popcntd(s: u64) -> u64
    ensures { result ≡ popcntd_of s }
{
    u64::from(s.count_ones())
}

pub(crate) fn prtyw(s: u64) -> u64
    ensures { result ≡ prtyw_of s }
{
    let [a, b, c, d, e, f, g, h] = s.to_be_bytes();
    let high = (a % 2 + b % 2 + c % 2 + d % 2) % 2;
    let low = (e % 2 + f % 2 + g % 2 + h % 2) % 2;
    (u64::from(high) << 32) + u64::from(low)
}

pub(crate) fn prtyd(s: u64) -> u64
    ensures { result ≡ prtyd_of s }
{
    let [a, b, c, d, e, f, g, h] = s.to_be_bytes();
    let high = a % 2 + b % 2 + c % 2 + d % 2;
    let low = e % 2 + f % 2 + g % 2 + h % 2;
    u64::from((high + low) % 2)
}
