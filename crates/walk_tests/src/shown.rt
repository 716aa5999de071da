//! Walks, and the text of what they give.

ghost use Rattle.std.specs.Prelude.{◌≡◌, length};
ghost use Rattle.journal_core.specs.Translating.{IsQuiet};

use journal_core::{Ask, Cause, Journal, NestResult, PartResult, Place, ReadRow, Role, TrailItem};
use nested_walk::{place_of, walk_fresh};
use part_walk::{Trail, walk_partition_fresh};
use real_store::Store;
use std::io;

fn role_text(role: Role) -> &'static str {
    match role {
        Role::Pate => "pate",
        Role::Prte => "prte",
        Role::ProcessDir => "pdir",
        Role::ProcessLeaf => "pleaf",
        Role::PartDir => "gdir",
        Role::PartLeaf => "gleaf",
    }
}

/// A line with the nine fields of a reading.
fn show_reading(rt: &impl Print, reading: &ReadRow) -> io::Result<()> {
    let role = role_text(reading.role);
    let ReadRow {
        lpid,
        pid,
        sought,
        level,
        left,
        at,
        value,
        moment,
        ..
    } = *reading;
    println!(rt; "{role} {lpid} {pid} {sought:x} {level} {left} {at:x} {value:x} {moment}")
}

/// The readings of a walk, a line each.
fn show_readings(rt: &impl Print, trail: &Trail) -> io::Result<()> {
    for i in 0..36 {
        match trail.item(i) {
            None => {}
            Some(TrailItem::Old(number)) => println!(rt; "kept {number}")?,
            Some(TrailItem::New(reading)) => show_reading(rt, &reading)?,
        }
    }
    Ok(())
}

/// How a walk of a partition's tree ends.
fn show_part_result(rt: &impl Print, end: PartResult) -> io::Result<()> {
    match end {
        PartResult::Leaf {
            page,
            bits,
            att,
            eaa,
            r,
            c,
        } => {
            let (r, c) = (u8::from(r), u8::from(c));
            println!(rt; "Leaf {page:x} {bits} {att} {eaa} {r} {c}")
        }
        PartResult::Fault(kind) => println!(rt; "{kind:?}"),
        PartResult::Stop(name, value) => println!(rt; "{name:?} {value:x}"),
    }
}

/// Walks a partition's tree, and prints how the walk ends and its readings.
pub fn show_partition(
    rt: &impl Print,
    journal: &Journal,
    store: &Store,
    ptcr: u64,
    lpid: u16,
    gra: u64,
) -> io::Result<()>
    requires moment { length journal.now.rows.steps ≡ 3 }
    requires quiet { IsQuiet journal.now.rows }
{
    let mut trail = Trail::new();
    let end = walk_partition_fresh(store, journal, 0, ptcr, lpid, gra, 3, &mut trail);
    show_part_result(rt, end)?;
    show_readings(rt, &trail)
}

/// An interrupt, with what it leaves in registers in hexadecimal.
fn show_cause(rt: &impl Print, cause: Cause) -> io::Result<()> {
    match cause {
        Cause::DataStorage { dar, dsisr } => println!(rt; "DataStorage {dar:x} {dsisr:x}"),
        Cause::DataSegment { dar } => println!(rt; "DataSegment {dar:x}"),
        Cause::InstStorage { bits } => println!(rt; "InstStorage {bits:x}"),
        Cause::HypDataStorage { hdar, hdsisr, asdr } => {
            println!(rt; "HypDataStorage {hdar:x} {hdsisr:x} {asdr:x}")
        }
        Cause::HypInstStorage { bits, asdr } => println!(rt; "HypInstStorage {bits:x} {asdr:x}"),
        _ => println!(rt; "{cause:?}"),
    }
}

/// How a walk of an ask ends.
fn show_nest_result(rt: &impl Print, end: NestResult) -> io::Result<()> {
    match end {
        NestResult::Page(at) => println!(rt; "Page {at:x}"),
        NestResult::Fault(cause) => show_cause(rt, cause),
        NestResult::Stop(name, value) => println!(rt; "{name:?} {value:x}"),
    }
}

/// Walks an ask, and prints how the walk ends and its readings; of a real address it prints that it is one.
pub fn show_ask(rt: &impl Print, journal: &Journal, store: &Store, ask: &Ask) -> io::Result<()>
    requires moment { length journal.now.rows.steps ≡ 3 }
    requires quiet { IsQuiet journal.now.rows }
{
    if let Place::Real(at) = place_of(ask) {
        return println!(rt; "Real {at:x}");
    }
    let mut trail = Trail::new();
    let end = walk_fresh(store, journal, 0, ask, 3, &mut trail);
    show_nest_result(rt, end)?;
    show_readings(rt, &trail)
}
