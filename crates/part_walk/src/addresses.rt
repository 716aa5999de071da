//! Addresses made of tables, pages and addresses.

ghost use Rattle.std.specs.Prelude.{◌≡◌, ◌^◌, ◌<◌, ◌≤◌};
ghost use Rattle.journal_core.specs.PartitionWalk.{entry_at, real_in};
ghost use Rattle.part_walk.specs.Ranges.{IsTable};

use journal_core::Node;

/// Where a table's entry for an address stands: base and eight times the index are added, whatever the base is a multiple of
/// (Power ISA, Book III, 5.7).
pub fn entry_address(address: u64, node: Node) -> u64
    requires { IsTable node }
    ensures value { result ≡ entry_at address node }
    ensures small { result < 2 ^ 61 }
{
    let index = (address >> (node.left - node.size)) % (1 << node.size);
    node.base + 8 * index
}

/// A page's address with its `low` lowest bits replaced by those of an address.
pub fn real_address(page: u64, low: u8, address: u64) -> u64
    requires page { page < 2 ^ 57 }
    requires low { low ≤ 30 }
    ensures value { result ≡ real_in page low address }
    ensures small { result < 2 ^ 57 }
{
    let size = 1 << low;
    page / size * size + address % size
}
