//! Addresses of instructions, which are words of four bytes.

ghost use Rattle.std.specs.Prelude.{◌≡◌};
ghost use Rattle.ppc_bits.specs.Addresses as addresses;

/// The address of the next instruction.
pub fn next_address(cia: u64) -> u64
    ensures { result ≡ addresses.next_address cia }
{
    cia.wrapping_add(4)
}

/// The address with bits 62 and 63 cleared.
pub fn aligned(address: u64) -> u64
    ensures { result ≡ addresses.aligned address }
{
    address - address % 4
}
