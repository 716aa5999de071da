//! Traces, consoles and devices, from the bytes of the image to the printed rows.

use super::support::{ONE_THREAD, call, call_with, consoles, image, traced};
use crate::{Bench, Status};
use journal_core::{Ended, RowKind, StopName};
use outer_io::{MemFiles, MemSink};
use ppc_bus::PlugReason;
use std::test::Fail;

#[test]
fn a_store_across_a_page_is_read_back(rt: HostRuntime) -> Result<(), Fail> {
    let words = [0x3860_ffff, 0x3c80_0002, 0xf864_fffc, 0xe8a4_fffc];
    let left = traced(rt.alloc(), &words, "4")?;
    assert_eq!(rt; left.status, Status::Done(Ended::AllRun));
    let text = String::from_utf8(left.text).unwrap_or(String::new(rt.alloc()));
    let registers = "r00 0000000000000000 0000000000000000 0000000000000000 ffffffffffffffff
r04 0000000000020000 ffffffffffffffff 0000000000000000 0000000000000000
";
    assert!(rt; text.as_str().contains(registers));
    assert!(rt; text.as_str().contains("\ndec fffffffc hdec fffffffc\n"));
    let rows = "
s 0 0 ran 0000000000010000 3860ffff R0000000000010000 - -
s 1 0 ran 0000000000010004 3c800002 R0000000000010004 - -
s 2 0 ran 0000000000010008 f864fffc R0000000000010008 R000000000001fffc R0000000000020000
s 3 0 ran 000000000001000c e8a4fffc R000000000001000c R000000000001fffc R0000000000020000
w 2 0 000000000001fffc 4 0000000000000000 00000000ffffffff
w 2 0 0000000000020000 4 0000000000000000 00000000ffffffff
.
";
    assert!(rt; text.as_str().ends_with(rows));
    Ok(())
}

#[test]
fn traces_end_with_what_happened(rt: HostRuntime) -> Result<(), Fail> {
    let alignment: [u32; 2] = [0x3860_0001, 0x7ca0_1eea];
    let ejected: [u32; 5] = [
        0x3c80_1000,
        0x6085_1000,
        0x38c0_0000,
        0xf8c5_0008,
        0x98c4_0000,
    ];
    let cases: [(&[u32], &str, Status, &str); 2] = [
        (
            &alignment,
            "2",
            Status::Done(Ended::AllRun),
            "
s 0 0 ran 0000000000010000 38600001 R0000000000010000 - -
s 1 0 took 0000000000010004 7ca01eea 600 R0000000000010004 - -
.
",
        ),
        (
            &ejected,
            "9",
            Status::Stopped(StopName::NoStorage, 0x1000_0000),
            "
s 4 0 stop 0000000000010010 98c40000 NoStorage 0000000010000000 R0000000000010010 R0000000010000000 -
d 3 1 00000008 8 store 0000000000000000 eject 0
.
",
        ),
    ];
    for (words, count, status, rows) in cases {
        if words.len() < 100 {
            let left = traced(rt.alloc(), words, count)?;
            assert_eq!(rt; left.status, status);
            assert!(rt; left.text.as_slice().ends_with(rows.as_bytes()));
        }
    }
    Ok(())
}

#[test]
fn a_console_shows_what_is_stored_to_it(rt: HostRuntime) -> Result<(), Fail> {
    let words = [
        0x3c80_1000,
        0x3860_0048,
        0x9864_0000,
        0x3860_0069,
        0x9864_0000,
        0x3860_000a,
        0x9864_0000,
        0x3860_005c,
        0x9864_0000,
        0x3860_017f,
        0x9064_0000,
        0x3860_0020,
        0xf864_0000,
        0x3860_0041,
        0x9864_0004,
        0x88a4_0000,
        0x4800_0000,
    ];
    let left = traced(rt.alloc(), &words, "17")?;
    assert_eq!(rt; left.status, Status::Done(Ended::AllRun));
    let text = String::from_utf8(left.text).unwrap_or(String::new(rt.alloc()));
    for line in [
        "\nconsole 0 6 Hi\\n\\\\\\x7f \n",
        "\nd 10 0 00000000 4 store 000000000000017f byte 7f\n",
        "\nd 14 0 00000004 1 store 0000000000000041 quiet\n",
        "\nd 15 0 00000000 1 load 0000000000000006 quiet\n",
    ] {
        assert!(rt; text.as_str().contains(line));
    }
    Ok(())
}

#[test]
fn a_journal_without_room_ends_a_run(rt: HostRuntime) -> Result<(), Fail> {
    let words = [0x3c80_1000, 0x9864_0000, 0x4bff_fffc];
    let mut files = MemFiles::new(rt.alloc());
    files.add("a", &image(rt.alloc(), 0x1_0000, 0x1_0000, &words)?)?;
    files.add("b", ONE_THREAD)?;
    let mut out = MemSink::open(rt.alloc(), 1_049_818)?;
    let line = ["run", "a", "b", "1048576"];
    let left = call(rt.alloc(), &line, &mut files, &mut out)?;
    let full = Status::JournalFull(RowKind::Devices, 262_144);
    assert_eq!(rt; left.status, full);
    assert_eq!(rt; left.text.len(), 1_049_818);
    let head = "radix 1
end full devices 262144
steps 524288
tb 0000000000080000
thread 0
";
    assert!(rt; left.text.as_slice().starts_with(head.as_bytes()));
    assert!(rt; left.text.as_slice().ends_with(b"\\x00\\x00\n.\n"));
    Ok(())
}

#[test]
fn two_consoles_show_their_own(rt: HostRuntime) -> Result<(), Fail> {
    let words = [
        0x3c80_1000,
        0x60a5_0000,
        0x3860_0041,
        0x9864_3000,
        0x3860_0042,
        0x9864_0000,
    ];
    let mut files = MemFiles::new(rt.alloc());
    files.add("a", &image(rt.alloc(), 0x1_0000, 0x1_0000, &words)?)?;
    files.add("b", ONE_THREAD)?;
    let mut out = MemSink::open(rt.alloc(), 8192)?;
    let bench = Bench {
        devices: consoles(rt.alloc(), &[0x1000_0000, 0x1000_3000])?.devices,
        machine: None,
    };
    let line = ["run", "a", "b", "6"];
    let left = call_with(rt.alloc(), &line, &mut files, &mut out, bench)?;
    assert!(rt;
        left.text
            .as_slice()
            .ends_with(b"\nconsole 0 1 B\nconsole 1 1 A\n.\n")
    );
    Ok(())
}

#[test]
fn a_device_that_cannot_be_plugged_is_told_by_its_number(rt: HostRuntime) -> Result<(), Fail> {
    let nine = [
        0x1000_0000,
        0x1000_1000,
        0x1000_2000,
        0x1000_3000,
        0x1000_4000,
        0x1000_5000,
        0x1000_6000,
        0x1000_7000,
        0x1000_8000,
    ];
    let cases: [(&[u64], usize, PlugReason, &str); 3] = [
        (
            &[0x1000_0000, 0x1000_0800],
            1,
            PlugReason::BadWindow,
            "fault device 1 BadWindow\n",
        ),
        (
            &[0x1000_0000, 0x1000_0000],
            1,
            PlugReason::SlotUsed(0),
            "fault device 1 SlotUsed 0\n",
        ),
        (
            &nine,
            8,
            PlugReason::SlotsFull,
            "fault device 8 SlotsFull\n",
        ),
    ];
    for (places, number, reason, text) in cases {
        let mut files = MemFiles::new(rt.alloc());
        files.add("a", &image(rt.alloc(), 0x1_0000, 0x1_0000, &[0x3860_0001])?)?;
        files.add("b", ONE_THREAD)?;
        let mut out = MemSink::open(rt.alloc(), 8192)?;
        let bench = Bench {
            devices: consoles(rt.alloc(), places)?.devices,
            machine: None,
        };
        let line = ["run", "a", "b", "1"];
        let left = call_with(rt.alloc(), &line, &mut files, &mut out, bench)?;
        assert_eq!(rt; left.status, Status::BadDevice(number, reason));
        assert_eq!(rt; left.text.as_slice(), text.as_bytes());
        assert_eq!(rt; left.steps, None);
        assert_eq!(rt; left.devices, places.len());
    }
    Ok(())
}
