//! Logical operations bit by bit (Power ISA, Book I, 3.3.13).

ghost use Rattle.std.specs.Prelude.{◌≡◌};
ghost use Rattle.fixed_logic.specs.Bitwise.{and_of, or_of, xor_of, nand_of, nor_of, eqv_of, andc_of, orc_of};

pub(crate) fn and(a: u64, b: u64) -> u64
    ensures { result ≡ and_of a b }
{
    a & b
}

pub(crate) fn or(a: u64, b: u64) -> u64
    ensures { result ≡ or_of a b }
{
    a | b
}

pub(crate) fn xor(a: u64, b: u64) -> u64
    ensures { result ≡ xor_of a b }
{
    a ^ b
}

pub(crate) fn nand(a: u64, b: u64) -> u64
    ensures { result ≡ nand_of a b }
{
    !(a & b)
}

pub(crate) fn nor(a: u64, b: u64) -> u64
    ensures { result ≡ nor_of a b }
{
    !(a | b)
}

pub(crate) fn eqv(a: u64, b: u64) -> u64
    ensures { result ≡ eqv_of a b }
{
    !(a ^ b)
}

pub(crate) fn andc(a: u64, b: u64) -> u64
    ensures { result ≡ andc_of a b }
{
    a & !b
}

pub(crate) fn orc(a: u64, b: u64) -> u64
    ensures { result ≡ orc_of a b }
{
    a | !b
}
