ghost use Rattle.std.specs.Prelude.{◌≡◌};

use super::*;
use std::mem::size_of;
use std::test::Fail;

/// A read of a doubleword by the step that is being made.
fn read_row(moment: u32) -> ReadRow
    ensures { result.moment ≡ moment }
{
    ReadRow {
        role: Role::PartLeaf,
        lpid: 1,
        pid: 0,
        sought: 0x1000,
        level: 4,
        left: 12,
        at: 0x8000,
        value: 0x187,
        moment,
    }
}

#[test]
fn an_opened_journal_is_empty_and_has_room(rt: HostRuntime) -> Result<(), Fail> {
    let journal = Journal::open(rt.alloc(), 2)?;
    assert_eq!(rt; journal.room(), None);
    assert_eq!(rt; journal.counts().steps, 0);
    assert!(rt; journal.step(0).is_none());
    Ok(())
}

#[test]
fn a_journal_for_no_step_is_full_at_its_reads(rt: HostRuntime) -> Result<(), Fail> {
    let journal = Journal::open(rt.alloc(), 0)?;
    assert_eq!(rt; journal.room(), Some((RowKind::Reads, 0)));
    Ok(())
}

#[test]
fn a_read_row_is_found_by_its_number(rt: HostRuntime) -> Result<(), Fail> {
    let mut journal = Journal::open(rt.alloc(), 1)?;
    let number = journal.push_read(read_row(0));
    assert_eq!(rt; number, 0);
    let value = journal.read(0).map_or(0, |row| row.value);
    assert_eq!(rt; value, 0x187);
    assert!(rt; journal.read(1).is_none());
    Ok(())
}

#[test]
fn each_pushed_row_is_found_by_its_number(rt: HostRuntime) -> Result<(), Fail> {
    let mut journal = Journal::open(rt.alloc(), 1)?;
    let key = Key {
        kind: KeyKind::GuestPage,
        lpid: 1,
        pid: 0,
        left: 12,
        page: 1,
    };
    let number = journal.push_fill(FillRow {
        thread: 0,
        key,
        level: 4,
        moment: 0,
        count: 0,
        reads: [0; 36],
    });
    assert_eq!(rt; number, 0);
    assert!(rt; journal.fill(0).is_some_and(|row| row.key == key));
    journal.fills_are_named();
    journal.push_write(WriteRow {
        step: 0,
        thread: 0,
        at: 0x100,
        size: 1,
        old: 0,
        new: 7,
    });
    assert!(rt; journal.write(0).is_some_and(|row| row.new == 7));
    Ok(())
}

#[test]
fn rows_of_operations_and_devices_are_found(rt: HostRuntime) -> Result<(), Fail> {
    let mut journal = Journal::open(rt.alloc(), 1)?;
    journal.push_done(DoneRow {
        step: 0,
        thread: 0,
        what: Done::Ptcr,
    });
    assert!(rt; journal.done(0).is_some_and(|row| row.what == Done::Ptcr));
    journal.push_device(DeviceRow {
        step: 0,
        slot: 1,
        offset: 0,
        size: 1,
        store: true,
        value: 65,
        signal: Signal::Byte(65),
    });
    assert!(rt;
        journal
            .device(0)
            .is_some_and(|row| row.signal == Signal::Byte(65))
    );
    Ok(())
}

#[test]
fn a_step_row_takes_the_last_place(rt: HostRuntime) -> Result<(), Fail> {
    let mut journal = Journal::open(rt.alloc(), 1)?;
    journal.push_step(StepRow {
        thread: 0,
        cia: 0x1_0000,
        word: Some(0x4800_0000),
        end: StepEnd::Ran,
        uses: [Use::Real(0x1_0000), Use::Unused, Use::Unused],
    });
    assert!(rt;
        journal
            .step(0)
            .is_some_and(|row| row.word == Some(0x4800_0000))
    );
    assert_eq!(rt; journal.counts().steps, 1);
    assert_eq!(rt; journal.room(), Some((RowKind::Steps, 1)));
    Ok(())
}

/// What a journal for the most steps takes stays below 400 MB only with rows of at most these sizes.
#[test]
fn no_row_takes_more_bytes_than_its_list_may(rt: HostRuntime) -> Result<(), Fail> {
    assert!(rt; size_of::<ReadRow>() <= 48);
    assert!(rt; size_of::<FillRow>() <= 192);
    assert!(rt; size_of::<WriteRow>() <= 40);
    assert!(rt; size_of::<DoneRow>() <= 64);
    assert!(rt; size_of::<DeviceRow>() <= 48);
    assert!(rt; size_of::<StepRow>() <= 128);
    Ok(())
}
