//! Where an ask points, and what is walked for it.

ghost use Rattle.std.specs.Prelude.{◌≡◌};
ghost use Rattle.journal_core.specs.Places.{place_of};
ghost use Rattle.nested_walk.specs.Targets.{target_at, place_in};

use journal_core::{AccessKind, Ask, Place};
use ppc_spr::Msr;
use table_formats::{Space, quadrant};

/// What is walked for an ask: an address of a process of a partition. The numbers are those of the space that is walked, not
/// those of LPIDR and PIDR.
#[derive(Clone, Copy, Debug)]
pub struct Target {
    /// The ask.
    pub ask: Ask,
    /// The partition.
    pub lpid: u16,
    /// The process, or 0 for a guest real address.
    pub pid: u32,
    /// The address.
    pub address: u64,
}

impl Target {
    /// What is walked for an ask at a place.
    pub fn at(ask: &Ask, place: Place) -> Target
        ensures { result ≡ target_at ask.now place }
    {
        let (lpid, pid, address) = match place {
            Place::Real(address) => (0, 0, address),
            Place::GuestReal(lpid, address) => (lpid, 0, address),
            Place::Space(lpid, pid, address) => (lpid, pid, address),
            Place::Segment => (0, 0, 0),
        };
        Target {
            ask: *ask,
            lpid,
            pid,
            address,
        }
    }
}

/// The place in a space, at the address without its two highest bits, or in no segment.
fn place_in(ask: &Ask, space: Option<Space>) -> Place
    ensures { result ≡ place_in ask.now space }
{
    match space {
        Some(space) => Place::Space(space.lpid, space.pid, ask.ea % (1 << 62)),
        None => Place::Segment,
    }
}

/// Where an ask points (Power ISA, Book III, 5.7).
///
/// With relocation it is the quadrant that decides; else it is a real address, or in a guest a guest real one, without the four
/// highest bits of the effective address.
#[tactic(auto, unfolding(journal_core::specs::Places::place_of), using(crate::proofs::QuadrantJoins::quadrant_joins))]
pub fn place_of(ask: &Ask) -> Place
    ensures { result ≡ place_of ask.now }
{
    let msr = Msr(ask.msr);
    let relocates = match ask.access {
        AccessKind::Fetch => msr.relocates_fetches(),
        AccessKind::Load | AccessKind::Store => msr.relocates_data(),
    };
    if relocates {
        return place_in(ask, quadrant(ask.ea, ask.msr, ask.lpid, ask.pid));
    }
    let at = ask.ea % (1 << 60);
    if msr.is_hypervisor() {
        Place::Real(at)
    } else {
        Place::GuestReal(ask.lpid, at)
    }
}
