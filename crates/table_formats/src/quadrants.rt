//! Quadrants of effective addresses.

ghost use Rattle.std.specs.Prelude.{◌≡◌};
ghost use Rattle.table_formats.specs.Quadrants.{space_of, hypervisor_space, guest_space};

use ppc_bits::{field, is_set};

/// The addresses of a process of a partition. Process 0 is the kernel, and partition 0 the hypervisor.
#[derive(Clone, Copy, Debug, PartialEq, Eq)]
pub struct Space {
    /// The partition.
    pub lpid: u16,
    /// The process.
    pub pid: u32,
}

/// The space that an effective address is of while addresses are translated, or none where it is in no segment: by its two
/// highest bits, HV and PR of the machine state, and the partition and the process in LPIDR and PIDR. It does not look at
/// IR and DR.
#[tactic(auto, unfolding(crate::specs::Quadrants::space_of))]
pub fn quadrant(ea: u64, msr: u64, lpid: u16, pid: u32) -> Option<Space>
    ensures { result ≡ space_of ea msr lpid pid }
{
    let quarter = field(ea, 64, 0, 1);
    if is_set(msr, 64, 3) {
        hypervisor_quadrant(is_set(msr, 64, 49), lpid, pid, quarter)
    } else {
        guest_quadrant(lpid, pid, quarter)
    }
}

/// The space in hypervisor state.
fn hypervisor_quadrant(problem: bool, lpid: u16, pid: u32, quarter: u64) -> Option<Space>
    ensures { result ≡ hypervisor_space problem lpid pid quarter }
{
    if quarter == 0 {
        return Some(Space { lpid: 0, pid });
    }
    if quarter == 3 {
        return Some(Space { lpid: 0, pid: 0 });
    }
    if problem || lpid == 0 {
        return None;
    }
    if quarter == 1 {
        Some(Space { lpid, pid })
    } else {
        Some(Space { lpid, pid: 0 })
    }
}

/// The space in a guest's state.
fn guest_quadrant(lpid: u16, pid: u32, quarter: u64) -> Option<Space>
    ensures { result ≡ guest_space lpid pid quarter }
{
    match quarter {
        0 => Some(Space { lpid, pid }),
        3 => Some(Space { lpid, pid: 0 }),
        _ => None,
    }
}
