//! Guest 1 of the generated hypervisor with other words: how its steps end, what they read, and how that is printed.

use super::generated::{change_entry, change_word, fixture};
use super::support::{ONE_THREAD, bench, image, words};
use crate::{Bench, Status, radix_call};
use journal_core::{Counts, Ended, StopName};
use outer_io::{MemFiles, MemSink};
use std::alloc::Global;
use std::process::Abort;
use std::test::Fail;

/// The end of a run that makes all its steps.
const ALL: Status = Status::Done(Ended::AllRun);

/// A run of the generated hypervisor with other words, and what it leaves.
#[derive(Clone, Copy)]
struct Case<'a> {
    /// Words of code, by their real addresses; guest 1 begins at 115000.
    code: &'a [(u64, u32)],
    /// Doublewords of tables, by their real addresses.
    entries: &'a [(u64, u64)],
    /// How many steps it has.
    count: &'a str,
    /// How it ends.
    status: Status,
    /// How many rows of reads, of fills and of writes there are.
    rows: (u32, u32, u32),
    /// Parts of its text.
    parts: &'a [&'a str],
}

/// What a run left.
#[derive(Drop)]
struct Left {
    /// Its status.
    status: Status,
    /// What it printed.
    text: String,
    /// How many rows its journal has, where a machine was opened.
    counts: Option<Counts>,
}

/// Runs a file with `--trace` and `--walks`, with the doubleword 11 at 120000 and 22 at 121000.
fn run(alloc: Global, file: &[u8], count: &str) -> Result<Left, Fail> {
    let mut files = MemFiles::new(alloc);
    files.add("a", file)?;
    files.add("b", ONE_THREAD)?;
    files.add("g", &0x11u64.to_le_bytes())?;
    files.add("h", &0x22u64.to_le_bytes())?;
    let mut out = MemSink::open(alloc, 65_536)?;
    let line = [
        "run", "a", "b", count, "--walks", "--trace", "--guest", "g@120000", "--guest", "h@121000",
    ];
    let list = words(alloc, &line)?;
    let mut bench = Bench {
        devices: bench(alloc)?.devices,
        machine: None,
    };
    let status = radix_call(alloc, &list, &mut files, &mut out, &mut bench);
    let counts = match &bench.machine {
        Some(machine) => Some(machine.journal().counts()),
        None => None,
    };
    let text = String::from_utf8(Vec::from_slice(alloc, out.bytes())?);
    Ok(Left {
        status,
        text: text.unwrap_or(String::new(alloc)),
        counts,
    })
}

/// The first of some parts that a text has not.
fn first_missing<'a>(text: &str, parts: &'a [&'a str]) -> Option<&'a str> {
    for part in parts {
        if !text.contains(part) {
            return Some(part);
        }
    }
    None
}

/// The run of this file leaves what the case says.
fn leaves(rt: &impl Abort, alloc: Global, file: &[u8], case: &Case) -> Result<(), Fail> {
    let left = run(alloc, file, case.count)?;
    assert_eq!(rt; first_missing(left.text.as_str(), case.parts), None);
    assert_eq!(rt; left.status, case.status);
    let rows = match left.counts {
        Some(counts) => Some((counts.reads, counts.fills, counts.writes)),
        None => None,
    };
    assert_eq!(rt; rows, Some(case.rows));
    Ok(())
}

/// The file of the generated hypervisor with the words of a case.
fn changed(rt: &(impl Abort + AllocGlobal), case: &Case) -> Result<Vec<u8>, Fail> {
    let mut file = fixture(rt)?;
    for (at, word) in case.code {
        assert!(rt; change_word(&mut file, *at, *word));
    }
    for (at, entry) in case.entries {
        assert!(rt; change_entry(&mut file, *at, *entry));
    }
    Ok(file)
}

/// Each case's run leaves what it says.
fn all_leave(rt: &(impl Abort + AllocGlobal), cases: &[Case]) -> Result<(), Fail> {
    for case in cases {
        let file = changed(rt, case)?;
        leaves(rt, rt.alloc(), file.as_slice(), case)?;
    }
    Ok(())
}

/// Two loads of the doubleword at the guest's address 10000.
const TWO_LOADS: Case<'static> = Case {
    // ld r7,0(r12) twice
    code: &[(0x11_5000, 0xe8ec_0000), (0x11_5004, 0xe8ec_0000)],
    entries: &[],
    count: "19",
    status: ALL,
    rows: (64, 4, 0),
    parts: &[
        "r04 0000000000000001 0000000000005000 8000000000001033 0000000000000011\n",
        "
s 17 0 ran 0000000000005000 e8ec0000 W0:0000000000115000 W1:0000000000120000 -
s 18 0 ran 0000000000005004 e8ec0000 W2:0000000000115004 W3:0000000000120000 -
r 0 pate 1 1 0000000000005000 0 0 0000000000020018 0000000000000000 17
r 1 pate 1 0 0000000000000010 0 31 0000000000020010 800000000010000a 17
r 2 gdir 1 0 0000000000000010 1 21 0000000000100000 8000000000102009 17
r 3 gleaf 1 0 0000000000000010 2 12 0000000000102000 c000000000110187 17
r 4 prte 1 1 0000000000005000 0 31 0000000000110010 000000000000200a 17
r 5 pate 1 0 0000000000002000 0 31 0000000000020010 800000000010000a 17
r 6 gdir 1 0 0000000000002000 1 21 0000000000100000 8000000000102009 17
r 7 gleaf 1 0 0000000000002000 2 12 0000000000102010 c000000000112187 17
r 8 pdir 1 1 0000000000005000 1 21 0000000000112000 8000000000004009 17
r 9 pate 1 0 0000000000004028 0 31 0000000000020010 800000000010000a 17
r 10 gdir 1 0 0000000000004028 1 21 0000000000100000 8000000000102009 17
r 11 gleaf 1 0 0000000000004028 2 12 0000000000102020 c000000000114187 17
r 12 pleaf 1 1 0000000000005000 2 12 0000000000114028 c000000000005187 17
r 13 pate 1 0 0000000000005000 0 31 0000000000020010 800000000010000a 17
r 14 gdir 1 0 0000000000005000 1 21 0000000000100000 8000000000102009 17
r 15 gleaf 1 0 0000000000005000 2 12 0000000000102028 c000000000115187 17
",
        "\nf 0 0 trans 1 1 12 0000000000000005 2 17 16 0 1 2 3 4 5 6 7 8 9 10 11 12 13 14 15\n",
    ],
};

/// The first fetch of a guest behind the largest trees, which have 52 bits of addresses and pages of 4 KiB.
///
/// The tables lie in the storage of guest 2: the partition's tree at 200000, 201000, 202000 and 210000, the process table at
/// 211000, and the tree of the process at 212000, 213000, 214000 and 215000, which are its addresses 10000, 20000, 21000 and 22000.
const LARGEST: Case<'static> = Case {
    // b .
    code: &[(0x11_5000, 0x4800_0000)],
    entries: &[
        (0x2_0010, 0xc000_0000_0020_00ad),
        (0x20_0000, 0x8000_0000_0020_1009),
        (0x20_1000, 0x8000_0000_0020_2009),
        (0x20_2000, 0x8000_0000_0021_0009),
        (0x21_0000, 0xc000_0000_0021_1187),
        (0x21_0028, 0xc000_0000_0011_5187),
        (0x21_0080, 0xc000_0000_0021_2187),
        (0x21_0100, 0xc000_0000_0021_3187),
        (0x21_0108, 0xc000_0000_0021_4187),
        (0x21_0110, 0xc000_0000_0021_5187),
        (0x21_1010, 0x4000_0000_0001_00ad),
        (0x21_2000, 0x8000_0000_0002_0009),
        (0x21_3000, 0x8000_0000_0002_1009),
        (0x21_4000, 0x8000_0000_0002_2009),
        (0x21_5028, 0xc000_0000_0000_5187),
    ],
    count: "18",
    status: ALL,
    rows: (36, 1, 0),
    parts: &[
        "\ns 17 0 ran 0000000000005000 48000000 W0:0000000000115000 - -\n",
        "\nf 0 0 trans 1 1 12 0000000000000005 4 17 36 0 1 2 3 4 5 6 7 8 9 10 11 12 13 14 15 16 17 18 19 20 21 22 23 24 25 26 27 28 29 30 31 32 33 34 35\n",
    ],
};

#[test]
fn each_access_of_a_guest_reads_the_words_of_both_trees(rt: HostRuntime) -> Result<(), Fail> {
    all_leave(&rt, &[TWO_LOADS, LARGEST])
}

#[test]
fn runs_over_the_same_tables_print_the_same_bytes(rt: HostRuntime) -> Result<(), Fail> {
    let file = changed(&rt, &TWO_LOADS)?;
    let first = run(rt.alloc(), file.as_slice(), TWO_LOADS.count)?;
    let again = run(rt.alloc(), file.as_slice(), TWO_LOADS.count)?;
    assert_eq!(rt; first.status, ALL);
    assert_eq!(rt; first.text.as_str(), again.text.as_str());
    Ok(())
}

#[test]
fn a_call_in_problem_state_comes_to_the_hypervisor(rt: HostRuntime) -> Result<(), Fail> {
    // sc 1; the guest's machine state is 800000000000D033, and the decrementer is set to 800
    let call = Case {
        code: &[
            (0x1_002c, 0x60c6_d033),
            (0x1_0038, 0x7f16_03a6),
            (0x11_5000, 0x4400_0022),
        ],
        entries: &[],
        count: "18",
        status: ALL,
        rows: (16, 1, 0),
        parts: &[
            "nia 0000000000000c00 msr 9000000000001001\n",
            "srr 0000000000005004 800000000000d033 ",
            "\ns 17 0 took 0000000000005000 44000022 c00 W0:0000000000115000 - -\n",
        ],
    };
    all_leave(&rt, &[call])
}

#[test]
fn accesses_of_two_pages_of_guest_real_storage_and_of_quadrant_1(
    rt: HostRuntime,
) -> Result<(), Fail> {
    // addi r12,r12,-4 and ld r7,0(r12)
    let two_pages = Case {
        code: &[(0x11_5000, 0x398c_fffc), (0x11_5004, 0xe8ec_0000)],
        entries: &[],
        count: "19",
        status: ALL,
        rows: (64, 4, 0),
        parts: &[
            " 0000000000000001 0000000000005000 8000000000001033 0000001100000000\n",
            "\ns 18 0 ran 0000000000005004 e8ec0000 W1:0000000000115004 W2:000000000011fffc W3:0000000000120000\n",
        ],
    };
    // ld r7,0(r12) with relocation off
    let guest_real = Case {
        code: &[(0x1_002c, 0x60c6_1003), (0x11_5000, 0xe8ec_0000)],
        entries: &[],
        count: "18",
        status: ALL,
        rows: (6, 2, 0),
        parts: &[
            " 0000000000000001 0000000000005000 8000000000001003 0000000000000011\n",
            "\ns 17 0 ran 0000000000005000 e8ec0000 W0:0000000000115000 W1:0000000000120000 -\n",
            "\nf 0 0 gpage 1 ",
            "\nf 1 0 gpage 1 ",
        ],
    };
    // mfmsr r8, ori r8,r8,16, mtmsrd r8,0, the address 4000000000010000 in r6, and ld r7,0(r6)
    let hypervisor = [
        (0x1_0014, 0x7d00_00a6),
        (0x1_0018, 0x6108_0010),
        (0x1_001c, 0x7d00_0164),
        (0x1_0020, 0x3cc0_4000),
        (0x1_0024, 0x78c6_07c6),
        (0x1_0028, 0x64c6_0001),
        (0x1_002c, 0xe8e6_0000),
    ];
    let quadrant = Case {
        code: &hypervisor,
        entries: &[],
        count: "12",
        status: ALL,
        rows: (16, 1, 0),
        parts: &[
            " 4000000000010000 0000000000000011\n",
            "\ns 11 0 ran 000000000001002c e8e60000 R000000000001002c W0:0000000000120000 -\n",
        ],
    };
    all_leave(&rt, &[two_pages, guest_real, quadrant])
}

#[test]
fn data_faults_come_to_the_guest_or_to_the_hypervisor(rt: HostRuntime) -> Result<(), Fail> {
    let cases = [
        // a table in no page of the guest: addis r6,0,32 and ld r7,0(r6)
        Case {
            code: &[(0x11_5000, 0x3cc0_0020), (0x11_5004, 0xe8e6_0000)],
            entries: &[(0x11_2008, 0x8000_0000_0007_f009), (0x10_23f8, 0)],
            count: "19",
            status: ALL,
            rows: (44, 2, 0),
            parts: &[
                "\nnia 0000000000000e00 ",
                "\nhdar 0000000000200000 hdsisr 40020000 asdr 000000000007f000\n",
                "\ns 18 0 took 0000000000005004 e8e60000 e00 W1:0000000000115004 F32+12 -\n",
            ],
        },
        // an unchanged page: addis r6,0,1, ori r6,r6,8192, ld r7,0(r6) and std r7,0(r6)
        Case {
            code: &[
                (0x11_5000, 0x3cc0_0001),
                (0x11_5004, 0x60c6_2000),
                (0x11_5008, 0xe8e6_0000),
                (0x11_500c, 0xf8e6_0000),
            ],
            entries: &[(0x11_4090, 0xc000_0000_0001_2107)],
            count: "21",
            status: ALL,
            rows: (93, 5, 0),
            parts: &[
                "\nnia 0000000000000300 ",
                "\ndar 0000000000012000 dsisr 02040000\n",
                "\ns 19 0 ran 0000000000005008 e8e60000 W2:0000000000115008 W3:0000000000122000 -\n",
                "\ns 20 0 took 000000000000500c f8e60000 300 W4:000000000011500c F80+13 -\n",
            ],
        },
        // no segment: addis r6,0,16384, rldicr r6,r6,32,31 and ld r7,0(r6)
        Case {
            code: &[
                (0x11_5000, 0x3cc0_4000),
                (0x11_5004, 0x78c6_07c6),
                (0x11_5008, 0xe8e6_0000),
            ],
            entries: &[],
            count: "20",
            status: ALL,
            rows: (48, 3, 0),
            parts: &[
                "\nnia 0000000000000380 ",
                "\ndar 4000000000000000 ",
                "\ns 19 0 took 0000000000005008 e8e60000 380 W2:0000000000115008 F48+0 -\n",
            ],
        },
        // behind the tree: addis r6,0,-32768, rldicl r6,r6,0,32 and ld r7,0(r6)
        Case {
            code: &[
                (0x11_5000, 0x3cc0_8000),
                (0x11_5004, 0x78c6_0020),
                (0x11_5008, 0xe8e6_0000),
            ],
            entries: &[],
            count: "20",
            status: ALL,
            rows: (53, 3, 0),
            parts: &[
                "\nnia 0000000000000380 ",
                "\ndar 0000000080000000 ",
                "\ns 19 0 took 0000000000005008 e8e60000 380 W2:0000000000115008 F48+5 -\n",
            ],
        },
        // the second page is missing: addis r6,0,7, ori r6,r6,65532 and std r12,0(r6)
        Case {
            code: &[
                (0x11_5000, 0x3cc0_0007),
                (0x11_5004, 0x60c6_fffc),
                (0x11_5008, 0xf986_0000),
            ],
            entries: &[],
            count: "20",
            status: ALL,
            rows: (77, 4, 0),
            parts: &[
                "\nnia 0000000000000300 ",
                "\ndar 0000000000080000 dsisr 42000000\n",
                "\ns 19 0 took 0000000000005008 f9860000 300 W2:0000000000115008 W3:000000000018fffc F64+13\n",
            ],
        },
        // quadrant 1 of partition 0: as above, with addi r4,0,0 in front of mtspr 319,r4
        Case {
            code: &[
                (0x1_0008, 0x3880_0000),
                (0x1_0014, 0x7d00_00a6),
                (0x1_0018, 0x6108_0010),
                (0x1_001c, 0x7d00_0164),
                (0x1_0020, 0x3cc0_4000),
                (0x1_0024, 0x78c6_07c6),
                (0x1_0028, 0x64c6_0001),
                (0x1_002c, 0xe8e6_0000),
            ],
            entries: &[],
            count: "12",
            status: ALL,
            rows: (0, 0, 0),
            parts: &[
                "\nnia 0000000000000380 ",
                "\ndar 4000000000010000 ",
                "\ns 11 0 took 000000000001002c e8e60000 380 R000000000001002c F0+0 -\n",
            ],
        },
    ];
    all_leave(&rt, &cases)
}

#[test]
fn faults_of_a_fetch_come_to_the_guest_or_to_the_hypervisor(rt: HostRuntime) -> Result<(), Fail> {
    let cases = [
        // no page of the process: b .+503808
        Case {
            code: &[(0x11_5000, 0x4807_b000)],
            entries: &[],
            count: "19",
            status: ALL,
            rows: (29, 1, 0),
            parts: &[
                "\nnia 0000000000000400 ",
                "\nsrr 0000000000080000 8000000040001033 ",
                "\ns 18 0 took 0000000000080000 - 400 F16+13 - -\n",
            ],
        },
        // no page of the partition: b .+499712
        Case {
            code: &[(0x11_5000, 0x4807_a000)],
            entries: &[(0x10_23f8, 0)],
            count: "19",
            status: ALL,
            rows: (32, 1, 0),
            parts: &[
                "\nnia 0000000000000e20 ",
                " hsrr 000000000007f000 8000000040001033\n",
                " asdr 000000000007f000\n",
                "\ns 18 0 took 000000000007f000 - e20 F16+16 - -\n",
            ],
        },
        // the page of the code is guarded
        Case {
            code: &[],
            entries: &[(0x11_4028, 0xc000_0000_0000_51a7)],
            count: "18",
            status: ALL,
            rows: (13, 0, 0),
            parts: &[
                "\nnia 0000000000000400 ",
                "\nsrr 0000000000005000 8000000010001033 ",
                "\ns 17 0 took 0000000000005000 - 400 F0+13 - -\n",
            ],
        },
    ];
    all_leave(&rt, &cases)
}

#[test]
fn partitions_without_a_tree_stop_the_machine(rt: HostRuntime) -> Result<(), Fail> {
    let cases = [
        // a guest whose partition is 0, with relocation off
        Case {
            code: &[(0x1_0008, 0x3880_0000), (0x1_002c, 0x60c6_1003)],
            entries: &[],
            count: "18",
            status: Status::Stopped(StopName::GuestZero, 0),
            rows: (0, 0, 0),
            parts: &[
                "\nend stopped GuestZero 0000000000000000\n",
                "\ns 17 0 stop 0000000000005000 - GuestZero 0000000000000000 - - -\n",
            ],
        },
        // the partition's entry says that its tables are hashed
        Case {
            code: &[],
            entries: &[(0x2_0010, 0x0000_0000_0010_000a)],
            count: "18",
            status: Status::Stopped(StopName::HashedPartition, 1),
            rows: (0, 0, 0),
            parts: &[
                "\nend stopped HashedPartition 0000000000000001\n",
                "\ns 17 0 stop 0000000000005000 - HashedPartition 0000000000000001 - - -\n",
            ],
        },
    ];
    all_leave(&rt, &cases)?;
    // mfmsr r5, ori r5,r5,16, mtmsrd r5 and lbz r3,0(0): there is no table at all
    let list = [0x7ca0_00a6, 0x60a5_0010, 0x7ca0_0164, 0x8860_0000];
    let file = image(rt.alloc(), 0x1_0000, 0x1_0000, &list)?;
    let none = Case {
        code: &[],
        entries: &[],
        count: "9",
        status: Status::Stopped(StopName::HashedPartition, 0),
        rows: (0, 0, 0),
        parts: &[
            "\ns 3 0 stop 000000000001000c 88600000 HashedPartition 0000000000000000 R000000000001000c - -\n",
        ],
    };
    leaves(&rt, rt.alloc(), file.as_slice(), &none)
}
