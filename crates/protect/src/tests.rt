ghost use Rattle.std.specs.Prelude.{◌≤◌, ◌^◌};

mod cases;

use super::*;
use cases::{CAUSES, RIGHTS};
use journal_core::{AccessKind, Ask, Cause, FaultKind};
use std::process::Abort;

const EA: u64 = 0x4000_0000_0012_3456;

const GUEST_REAL: u64 = 0x8765_4321;

/// An ask with this access, in problem state or not.
fn ask(access: AccessKind, problem: bool) -> Ask {
    Ask {
        ea: EA,
        access,
        msr: if problem { 1 << 14 } else { 0 },
        lpid: 1,
        pid: 2,
        ptcr: 3,
        amr: 4,
        iamr: 5,
    }
}

fn access(text: Option<&str>) -> AccessKind {
    match text.unwrap_or("") {
        "fetch" => AccessKind::Fetch,
        "load" => AccessKind::Load,
        _ => AccessKind::Store,
    }
}

/// The letter of an answer.
fn letter(answer: Result<(), Denial>) -> char {
    match answer {
        Ok(()) => '.',
        Err(Denial::Privilege) => 'p',
        Err(Denial::Read) => 'r',
        Err(Denial::Write) => 'w',
        Err(Denial::Execute) => 'x',
        Err(Denial::Guarded) => 'g',
        Err(Denial::Referenced) => 'f',
        Err(Denial::Changed) => 'c',
    }
}

#[test]
fn each_access_is_refused_by_the_right_that_the_sentences_say(rt: HostRuntime) {
    let mut count = 0u32;
    for line in RIGHTS.lines() {
        let mut parts = line.split(' ');
        let scope = if parts.next() == Some("process") {
            Scope::Process
        } else {
            Scope::Partition
        };
        let access = access(parts.next());
        let ask = ask(access, parts.next() == Some("1"));
        let att = u8::from_str_radix(parts.next().unwrap_or(""), 10).expect(&rt, "a digit");
        let mut mix = 0u8;
        for wanted in parts.next().unwrap_or("").chars() {
            let rights = Rights {
                scope,
                eaa: mix & 15,
                att,
                r: mix & 32 != 0,
                c: mix & 16 != 0,
            };
            assert_eq!(rt; letter(permit(&rights, &ask)), wanted, "{line}");
            mix = mix.wrapping_add(1);
            count = count.wrapping_add(1);
        }
    }
    assert_eq!(rt; count, 3072);
}

/// The bits of what is wrong.
fn why(text: &str) -> u64
    ensures { result ≤ 2 ^ 30 }
{
    match text {
        "missing" => kind_bits(FaultKind::Missing),
        "unsupported" => kind_bits(FaultKind::Unsupported),
        "privilege" => denial_bits(Denial::Privilege),
        "read" => denial_bits(Denial::Read),
        "write" => denial_bits(Denial::Write),
        "execute" => denial_bits(Denial::Execute),
        "guarded" => denial_bits(Denial::Guarded),
        "referenced" => denial_bits(Denial::Referenced),
        _ => denial_bits(Denial::Changed),
    }
}

/// The number in a column; 0 for a dash.
fn hexadecimal(rt: &impl Abort, text: Option<&str>) -> u64 {
    match text {
        Some("-") => 0,
        _ => u64::from_str_radix(text.unwrap_or(""), 16).expect(rt, "hexadecimal digits"),
    }
}

/// The cause that a line's last columns say.
fn cause(rt: &impl Abort, name: &str, address: u64, bits: u64, asdr: u64) -> Cause {
    let status = u32::try_from(bits).expect(rt, "a word");
    match name {
        "DataSegment" => Cause::DataSegment { dar: address },
        "InstSegment" => Cause::InstSegment,
        "DataStorage" => Cause::DataStorage {
            dar: address,
            dsisr: status,
        },
        "InstStorage" => Cause::InstStorage { bits },
        "HypDataStorage" => Cause::HypDataStorage {
            hdar: address,
            hdsisr: status,
            asdr,
        },
        _ => Cause::HypInstStorage { bits, asdr },
    }
}

#[test]
fn each_cause_has_the_address_and_the_bits_that_the_sentences_say(rt: HostRuntime) {
    assert_eq!(rt; CAUSES.lines().count(), 84);
    for line in CAUSES.lines() {
        let mut parts = line.split(' ');
        let tables = parts.next().unwrap_or("");
        let ask = ask(access(parts.next()), false);
        let wrong = why(parts.next().unwrap_or(""));
        let read = if parts.next() == Some("46") {
            1 << 17
        } else {
            0
        };
        let given = match tables {
            "segment" => segment_fault(&ask),
            "process" => process_fault(&ask, wrong),
            _ => partition_fault(&ask, wrong + read, GUEST_REAL),
        };
        let name = parts.next().unwrap_or("");
        let address = hexadecimal(&rt, parts.next());
        let bits = hexadecimal(&rt, parts.next());
        let wanted = cause(&rt, name, address, bits, hexadecimal(&rt, parts.next()));
        assert_eq!(rt; given, wanted, "{line}");
    }
}

#[test]
fn an_entry_of_a_table_is_loaded_by_the_ask_whatever_the_ask_does(rt: HostRuntime) {
    let store = ask(AccessKind::Store, true);
    assert_eq!(rt; for_table(&store), ask(AccessKind::Load, true));
    let read_only = Rights {
        scope: Scope::Partition,
        eaa: 4,
        att: 0,
        r: true,
        c: false,
    };
    assert_eq!(rt; permit(&read_only, &store), Err(Denial::Write));
    assert_eq!(rt; permit(&read_only, &for_table(&store)), Ok(()));
}
