//! The table of the headers of segments.

ghost use Rattle.std.specs.Prelude.{◌≡◌, ◌+◌, ◌*◌, ◌≤◌, length, take, []};
ghost use Rattle.std.specs.List.{position_from};
ghost use Rattle.elf_image.specs.Grammar.{loads_from, is_bad, meets_load, overlap_from, fault_of};

use crate::address_range::meets;
use crate::fault::ElfFault;
use crate::file_header::{MOST_HEADERS, SEGMENT_HEADER_BYTES};
use crate::load::{Load, NOTHING, is_good, read_load};

/// What the headers from a place of the file on ask to load.
pub fn read_loads(bytes: &[u8], table: usize, count: usize) -> [Load; MOST_HEADERS]
    requires few { count ≤ 64 }
    requires table_within { table + 56 * count ≤ length bytes.now }
    ensures { take count result ≡ loads_from bytes.now table count }
{
    let mut loads = [NOTHING; MOST_HEADERS];
    for number in 0..count {
        loads[number] = read_load(&bytes[table + SEGMENT_HEADER_BYTES * number..]);
    }
    loads
}

/// The number of the first load that is not good.
fn first_bad(len: usize, loads: &[Load]) -> Option<u8>
    requires { length loads.now ≤ 64 }
    ensures { result ≡ position_from (is_bad len) 0 loads.now }
{
    for (number, load) in loads.iter().enumerate() {
        if !is_good(len, load) {
            return Some(number as u8);
        }
    }
    None
}

/// The number of the first of some loads that meets one.
fn first_meeting(loads: &[Load], one: &Load) -> Option<u8>
    requires { length loads.now ≤ 64 }
    ensures { result ≡ position_from (meets_load one.now) 0 loads.now }
{
    for (number, load) in loads.iter().enumerate() {
        if meets(load.range, one.range) {
            return Some(number as u8);
        }
    }
    None
}

/// The numbers of the first two loads that meet.
fn overlap(loads: &[Load]) -> Option<(u8, u8)>
    requires { length loads.now ≤ 64 }
    ensures { result ≡ overlap_from [] loads.now }
{
    for j in 0..loads.len() {
        match first_meeting(&loads[..j], &loads[j]) {
            Some(i) => return Some((i, j as u8)),
            None => {}
        }
    }
    None
}

/// The first fault of the loads of a file of `len` bytes.
#[tactic(auto, unfolding(crate::specs::Grammar::fault_of))]
pub fn first_fault(len: usize, loads: &[Load]) -> Option<ElfFault>
    requires { length loads.now ≤ 64 }
    ensures { result ≡ fault_of len loads.now }
{
    match first_bad(len, loads) {
        Some(number) => return Some(ElfFault::Segment(number)),
        None => {}
    }
    match overlap(loads) {
        Some((i, j)) => Some(ElfFault::Overlap(i, j)),
        None => None,
    }
}
