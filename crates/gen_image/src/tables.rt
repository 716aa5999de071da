//! The tables of a generated image.

ghost use Rattle.std.specs.Prelude.{◌≡◌, ◌++◌, ◌<◌, ◌^◌, ◌∷◌, [], replicate, OnOk};
ghost use Rattle.gen_image.specs.Tables as said;

use std::alloc::AllocError;

/// How many bytes a page has.
const PAGE: u64 = 0x1000;

/// Where the storage of a guest lies.
pub(crate) fn base(guest: u8) -> u64
    ensures { result ≡ said.base guest }
{
    u64::from(guest) * 0x10_0000
}

/// Puts a big-endian doubleword behind some bytes.
#[tactic(auto, unfolding(crate::specs::Tables::table_bytes))]
fn push_doubleword(out: &mut Vec<u8>, doubleword: u64) -> Result<(), AllocError>
    ensures { OnOk result (out.new.items ≡ out.old.items ++ said.table_bytes (doubleword ∷ [])) }
{
    out.extend_from_slice(&doubleword.to_be_bytes())
}

/// Puts so many zeros behind some bytes.
fn push_zeros(out: &mut Vec<u8>, count: u32) -> Result<(), AllocError>
    ensures { OnOk result (out.new.items ≡ out.old.items ++ replicate count 0) }
{
    out.resize(out.len() + count as usize, 0)
}

/// Puts so many empty entries behind some bytes.
#[tactic(auto, using(crate::proofs::TableLemmas::table_bytes_empty))]
fn push_empty(out: &mut Vec<u8>, count: u16) -> Result<(), AllocError>
    ensures { OnOk result (out.new.items ≡ out.old.items ++ said.table_bytes (said.empty count)) }
{
    push_zeros(out, 8 * u32::from(count))
}

/// Puts leaves of 128 pages from an address on behind some bytes, and then empty entries up to 512.
fn push_leaves(out: &mut Vec<u8>, from: u64) -> Result<(), AllocError>
    requires { from < 2 ^ 32 }
    ensures { OnOk result (out.new.items ≡ out.old.items ++ said.table_bytes (said.leaves from)) }
{
    for page in 0..128 {
        push_doubleword(out, 0xc000_0000_0000_0187 + from + PAGE * page)?;
    }
    push_empty(out, 384)?;
    Ok(())
}

/// Puts the partition table behind some bytes.
pub(crate) fn push_partition_table(out: &mut Vec<u8>) -> Result<(), AllocError>
    ensures { OnOk result (out.new.items ≡ out.old.items ++ said.table_bytes said.partition_table) }
{
    push_empty(out, 2)?;
    push_doubleword(out, 0x8000_0000_0000_000a + base(1))?;
    push_empty(out, 1)?;
    push_doubleword(out, 0x8000_0000_0000_000a + base(2))?;
    push_empty(out, 1)?;
    Ok(())
}

/// Puts the partition-scoped tree of a guest behind some bytes.
pub(crate) fn push_partition_tree(out: &mut Vec<u8>, guest: u8) -> Result<(), AllocError>
    ensures { OnOk result (out.new.items ≡ out.old.items ++ said.table_bytes (said.partition_tree guest)) }
{
    push_doubleword(out, 0x8000_0000_0000_0009 + base(guest) + 0x2000)?;
    push_empty(out, 1023)?;
    push_leaves(out, base(guest) + 0x1_0000)?;
    Ok(())
}

/// Puts a guest's own tables behind some bytes.
pub(crate) fn push_process_tables(out: &mut Vec<u8>) -> Result<(), AllocError>
    ensures { OnOk result (out.new.items ≡ out.old.items ++ said.table_bytes said.process_tables) }
{
    push_empty(out, 2)?;
    push_doubleword(out, 0x200a)?;
    push_empty(out, 1021)?;
    push_doubleword(out, 0x8000_0000_0000_4009)?;
    push_empty(out, 1023)?;
    push_leaves(out, 0)?;
    Ok(())
}
