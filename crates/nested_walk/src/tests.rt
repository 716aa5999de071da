ghost use Rattle.std.specs.Prelude.{◌≡◌, [], length};
ghost use Rattle.journal_core.specs.Translating.{IsQuiet};
ghost use Rattle.nested_walk.specs.Ranges.{IsInRange};

use super::*;
use journal_core::{
    AccessKind, Ask, Cause, FaultKind, Goal, Journal, NestResult, Node, NothingKept, PartResult,
    PartStage, Place, ReadRow, Role, Stage, StopName, TableReader,
};
use part_walk::Trail;
use std::process::Abort;
use std::test::Fail;

/// Storage of no byte.
struct NoStorage;

impl TableReader for NoStorage {
    ghost ram = { λ s. [] };

    #[tactic(auto, unfolding(journal_core::specs::Past::word_in))]
    fn table_word(&self, _at: u64) -> Option<u64> {
        None
    }
}

/// HV, and IR and DR.
const HYPERVISOR: u64 = 1 << 60;

const RELOCATED: u64 = 0x30;

/// An ask of process 1 of partition 1, whose partition table of 256 entries stands at 20000.
fn ask(access: AccessKind, msr: u64, ea: u64) -> Ask {
    Ask {
        ea,
        access,
        msr,
        lpid: 1,
        pid: 1,
        ptcr: 0x2_0000,
        amr: 0,
        iamr: 0,
    }
}

#[test]
fn a_quadrant_gives_the_space(rt: HostRuntime) {
    let load = AccessKind::Load;
    assert_eq!(rt;
        place_of(&ask(load, RELOCATED, 0x5000)),
        Place::Space(1, 1, 0x5000)
    );
    assert_eq!(rt;
        place_of(&ask(load, RELOCATED, 0xc000_0000_0000_5000)),
        Place::Space(1, 0, 0x5000)
    );
    assert_eq!(rt;
        place_of(&ask(load, RELOCATED, 0x4000_0000_0000_5000)),
        Place::Segment
    );
    let hypervisor = HYPERVISOR + RELOCATED;
    assert_eq!(rt;
        place_of(&ask(load, hypervisor, 0x5000)),
        Place::Space(0, 1, 0x5000)
    );
    assert_eq!(rt;
        place_of(&ask(load, hypervisor, 0x4000_0000_0000_5000)),
        Place::Space(1, 1, 0x5000)
    );
    // IR is for fetches and DR for loads and stores; the four highest bits are no part of these.
    assert_eq!(rt;
        place_of(&ask(AccessKind::Fetch, 0x10, 0xf000_0000_0000_5000)),
        Place::GuestReal(1, 0x5000)
    );
    assert_eq!(rt;
        place_of(&ask(load, HYPERVISOR, 0xf000_0000_0000_5000)),
        Place::Real(0x5000)
    );
}

#[test]
fn a_target_has_the_numbers_of_its_space(rt: HostRuntime) {
    let fetch = ask(AccessKind::Fetch, RELOCATED, 0xc000_0000_0000_5000);
    let target = Target::at(&fetch, Place::Space(1, 0, 0x5000));
    assert_eq!(rt; (target.lpid, target.pid, target.address), (1, 0, 0x5000));
    let guest = Target::at(&fetch, Place::GuestReal(1, 0x6000));
    assert_eq!(rt; (guest.lpid, guest.pid, guest.address), (1, 0, 0x6000));
}

/// A fetch of 5000 by process 1 of partition 1.
fn fetched() -> Target {
    let fetch = ask(AccessKind::Fetch, RELOCATED, 0x5000);
    Target::at(&fetch, Place::Space(1, 1, 0x5000))
}

/// Reads a value at a place.
fn read(rt: &impl Abort, target: &Target, stage: Stage, at: u64, value: u64) -> Stage
    requires { IsInRange stage }
    ensures { IsInRange result }
{
    assert_eq!(rt; next_word(stage), Some(at));
    next(target, stage, value)
}

/// Reads the three words that lead to a guest page: both trees have 31 bits, and tables of 10 and 9 bits.
fn read_guest_page(rt: &impl Abort, target: &Target, stage: Stage, page: u64) -> Stage
    requires { IsInRange stage }
    ensures { IsInRange result }
{
    let root = read(rt, target, stage, 0x2_0010, 0x8000_0000_0010_000a);
    let table = read(rt, target, root, 0x10_0000, 0x8000_0000_0010_2009);
    let leaf = 0xc000_0000_0011_0187 + 4096 * (page % 128);
    read(rt, target, table, 0x10_2000 + 8 * (page % 128), leaf)
}

#[test]
fn sixteen_words_lead_to_the_page(rt: HostRuntime) {
    let target = fetched();
    let second = start(&target, Place::Space(1, 1, 0x5000));
    let entry = read(&rt, &target, second, 0x2_0018, 0);
    let entry = read_guest_page(&rt, &target, entry, 0);
    let root = read(&rt, &target, entry, 0x11_0010, 0x200a);
    let root = read_guest_page(&rt, &target, root, 2);
    let table = read(&rt, &target, root, 0x11_2000, 0x8000_0000_0000_4009);
    let table = read_guest_page(&rt, &target, table, 4);
    let result = read(&rt, &target, table, 0x11_4028, 0xc000_0000_0000_5187);
    let page = read_guest_page(&rt, &target, result, 5);
    assert_eq!(rt; page, Stage::Over(NestResult::Page(0x11_5000)));
    assert_eq!(rt; next_word(page), None);
}

/// What a reading says.
fn said(row: ReadRow) -> (Role, u16, u32, u64, u8, u8, u64) {
    (
        row.role, row.lpid, row.pid, row.sought, row.level, row.left, row.at,
    )
}

#[test]
fn a_reading_says_where_it_was_made(rt: HostRuntime) {
    let target = fetched();
    let second = reading(&target, Stage::SecondWord(0x2_0018), 7, 0);
    assert_eq!(rt; said(second), (Role::Pate, 1, 1, 0x5000, 0, 0, 0x2_0018));
    let entry = reading(&target, Stage::ProcessEntry(0x11_0010), 7, 0x200a);
    assert_eq!(rt; said(entry), (Role::Prte, 1, 1, 0x5000, 0, 31, 0x11_0010));
    let inner = reading(
        &target,
        Stage::PartEntry(Goal::ForEntry, 0x10, 0x2_0010),
        7,
        0x8000_0000_0010_000a,
    );
    assert_eq!(rt; said(inner), (Role::Pate, 1, 0, 0x10, 0, 31, 0x2_0010));
    let node = Node {
        base: 0x4000,
        size: 9,
        left: 21,
        level: 2,
    };
    let leaf = reading(
        &target,
        Stage::ProcessTable(node, 0x11_4028),
        7,
        0xc000_0000_0000_5187,
    );
    assert_eq!(rt;
        said(leaf),
        (Role::ProcessLeaf, 1, 1, 0x5000, 2, 12, 0x11_4028)
    );
    let inner = reading(
        &target,
        Stage::PartTable(Goal::ForResult, 0x5000, node),
        7,
        0,
    );
    assert_eq!(rt; said(inner), (Role::PartDir, 1, 0, 0x5000, 2, 12, 0x4028));
}

/// Over with a fetch's process fault.
fn inst(bits: u64) -> Stage {
    Stage::Over(NestResult::Fault(Cause::InstStorage { bits }))
}

#[test]
fn a_process_tree_is_walked_in_order(rt: HostRuntime) {
    let target = fetched();
    let stranger = Target { pid: 256, ..target };
    assert_eq!(rt; after_second(&stranger, 0), inst(1 << 30));
    // The 53 bits are tested before the address is.
    let beyond = Target {
        address: 1 << 53,
        ..target
    };
    assert_eq!(rt;
        after_process_entry(&beyond, 0x4000_0000_0000_20cd),
        inst(1 << 19)
    );
    let outside = Stage::Over(NestResult::Fault(Cause::InstSegment));
    assert_eq!(rt; after_process_entry(&beyond, 0x200a), outside);
}

#[test]
fn partition_0_reads_its_tables_at_real_addresses(rt: HostRuntime) {
    let target = fetched();
    let node = Node {
        base: 0x2000,
        size: 10,
        left: 31,
        level: 1,
    };
    let own = Target { lpid: 0, ..target };
    assert_eq!(rt; at_table(&own, node), Stage::ProcessTable(node, 0x2000));
    assert_eq!(rt;
        at_table(&target, node),
        Stage::PartEntry(Goal::ForTable(node), 0x2000, 0x2_0010)
    );
    assert_eq!(rt;
        in_process(&own, PartStage::Tree(node)),
        Stage::ProcessTable(node, 0x2000)
    );
    assert_eq!(rt;
        at_result(&own, 0x5000),
        Stage::Over(NestResult::Page(0x5000))
    );
    assert_eq!(rt;
        at_result(&target, 0x5000),
        Stage::PartEntry(Goal::ForResult, 0x5000, 0x2_0010)
    );
    assert_eq!(rt;
        enter(&target, Goal::ForGuest, 0x5000),
        Stage::PartEntry(Goal::ForGuest, 0x5000, 0x2_0010)
    );
}

#[test]
fn an_interrupt_has_the_bits_of_its_cause(rt: HostRuntime) {
    walks_raise_six_causes();
    let missing = PartStage::Ended(PartResult::Fault(FaultKind::Missing));
    let store = ask(AccessKind::Store, RELOCATED, 0x12_0000);
    let stored = Target::at(&store, Place::Space(1, 1, 0x12_0000));
    // 33 and 38, and for a table's entry 46.
    let guest = Cause::HypDataStorage {
        hdar: 0x12_0000,
        hdsisr: 0x4200_0000,
        asdr: 0x7_f000,
    };
    let found = inside(&stored, Goal::ForResult, 0x7_f018, missing);
    assert_eq!(rt; found, Stage::Over(NestResult::Fault(guest)));
    let table = Cause::HypInstStorage {
        bits: 0x4002_0000,
        asdr: 0x7_f000,
    };
    let found = inside(&fetched(), Goal::ForEntry, 0x7_f018, missing);
    assert_eq!(rt; found, Stage::Over(NestResult::Fault(table)));
    let process = Cause::DataStorage {
        dar: 0x12_0000,
        dsisr: 0x4200_0000,
    };
    let found = in_process(&stored, missing);
    assert_eq!(rt; found, Stage::Over(NestResult::Fault(process)));
    assert_eq!(rt; in_process(&fetched(), missing), inst(1 << 30));
}

/// The outcome of an ask's walk with nothing kept, over storage of no byte, and how many readings it has.
fn walked(journal: &Journal, asked: &Ask) -> Result<(NestResult, u8), Fail>
    requires steps { length journal.now.rows.steps ≡ 0 }
    requires quiet { IsQuiet journal.now.rows }
{
    let mut trail = Trail::new();
    match place_of(asked) {
        Place::Real(_) => Err("a real address")?,
        _ => {
            let out = walk_fresh(&NoStorage, journal, 0, asked, 0, &mut trail);
            Ok((out, trail.count()))
        }
    }
}

/// Where the walk of an ask begins with nothing kept, if the ask is one of a process.
fn begun(journal: &Journal, asked: &Ask) -> Option<Stage>
    requires { IsQuiet journal.now.rows }
{
    match place_of(asked) {
        Place::Space(lpid, pid, address) => {
            let target = Target {
                ask: *asked,
                lpid,
                pid,
                address,
            };
            let mut trail = Trail::new();
            Some(begin_process(&NothingKept, journal, 0, &target, &mut trail))
        }
        _ => None,
    }
}

#[test]
fn a_walk_with_nothing_kept_begins_at_the_partitions_entry(rt: HostRuntime) -> Result<(), Fail> {
    let journal = Journal::open(rt.alloc(), 1)?;
    let load = ask(AccessKind::Load, RELOCATED, 0x5000);
    assert_eq!(rt; begun(&journal, &load), Some(Stage::SecondWord(0x2_0018)));
    Ok(())
}

#[test]
fn a_walk_ends_where_no_word_is(rt: HostRuntime) -> Result<(), Fail> {
    let journal = Journal::open(rt.alloc(), 1)?;
    let load = ask(AccessKind::Load, RELOCATED, 0x5000);
    let stop = NestResult::Stop(StopName::NoStorage, 0x2_0018);
    assert_eq!(rt; walked(&journal, &load)?, (stop, 0));
    let guest = ask(AccessKind::Load, 0, 0x5000);
    let stop = NestResult::Stop(StopName::NoStorage, 0x2_0010);
    assert_eq!(rt; walked(&journal, &guest)?, (stop, 0));
    let away = ask(AccessKind::Load, RELOCATED, 0x4000_0000_0000_0000);
    let segment = NestResult::Fault(Cause::DataSegment {
        dar: 0x4000_0000_0000_0000,
    });
    assert_eq!(rt; walked(&journal, &away)?, (segment, 0));
    let stranger = Ask {
        lpid: 256,
        ..ask(AccessKind::Store, RELOCATED, 0x1_0000)
    };
    let missing = NestResult::Fault(Cause::HypDataStorage {
        hdar: 0x1_0000,
        hdsisr: 0x4200_0000,
        asdr: 0,
    });
    assert_eq!(rt; walked(&journal, &stranger)?, (missing, 0));
    Ok(())
}
