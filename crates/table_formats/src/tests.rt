mod cases;

use super::*;
use cases::{ENTRIES, LISTS, QUADRANTS, ROOTS};
use std::process::Abort;

fn hexadecimal(rt: &impl Abort, text: Option<&str>) -> u64 {
    u64::from_str_radix(text.unwrap_or(""), 16).expect(rt, "hexadecimal digits")
}

fn number(rt: &impl Abort, text: Option<&str>) -> u32 {
    u32::from_str_radix(text.unwrap_or(""), 10).expect(rt, "decimal digits")
}

fn small(rt: &impl Abort, text: Option<&str>) -> u8 {
    u8::from_str_radix(text.unwrap_or(""), 16).expect(rt, "at most two hexadecimal digits")
}

fn is_one(text: Option<&str>) -> bool {
    text == Some("1")
}

#[test]
fn each_word_is_the_entry_that_the_sentences_say_and_is_written_back(rt: HostRuntime) {
    assert!(rt; ENTRIES.lines().count() >= 200);
    for line in ENTRIES.lines() {
        let mut parts = line.split(' ');
        let word = hexadecimal(&rt, parts.next());
        let kind = parts.next().unwrap_or("");
        let wanted = if kind == "leaf" {
            Entry::Leaf {
                page: hexadecimal(&rt, parts.next()),
                r: is_one(parts.next()),
                c: is_one(parts.next()),
                att: small(&rt, parts.next()),
                eaa: small(&rt, parts.next()),
            }
        } else if kind == "directory" {
            Entry::Directory {
                base: hexadecimal(&rt, parts.next()),
                size: small(&rt, parts.next()),
            }
        } else {
            Entry::Invalid
        };
        let entry = Entry::read(word);
        assert_eq!(rt; entry, wanted, "{line}");
        assert_eq!(rt; entry.write(), hexadecimal(&rt, parts.next()), "{line}");
    }
}

#[test]
fn each_word_is_the_root_that_the_sentences_say(rt: HostRuntime) {
    assert!(rt; ROOTS.lines().count() >= 40);
    for line in ROOTS.lines() {
        let mut parts = line.split(' ');
        let word = hexadecimal(&rt, parts.next());
        assert_eq!(rt; Pate::radix(word), is_one(parts.next()), "{line}");
        let wanted = Root {
            bits: (number(&rt, parts.next()) & 0xff) as u8,
            base: hexadecimal(&rt, parts.next()),
            size: (number(&rt, parts.next()) & 0xff) as u8,
        };
        assert_eq!(rt; Pate::root(word), wanted, "{line}");
        assert_eq!(rt; Prte::root(word), wanted, "{line}");
    }
}

#[test]
fn each_word_has_the_table_that_the_sentences_say(rt: HostRuntime) {
    assert!(rt; LISTS.lines().count() >= 10);
    for line in LISTS.lines() {
        let mut parts = line.split(' ');
        let word = hexadecimal(&rt, parts.next());
        let base = hexadecimal(&rt, parts.next());
        let size = (number(&rt, parts.next()) & 0xff) as u8;
        assert!(rt; Pate::process(word) == (base, size), "{line}");
        assert!(rt; Ptcr::table(word) == (base, size), "{line}");
    }
}

/// The space of a line's last two columns.
fn space(rt: &impl Abort, lpid: Option<&str>, pid: Option<&str>) -> Option<Space> {
    if lpid == Some("-") {
        return None;
    }
    Some(Space {
        lpid: (number(rt, lpid) & 0xffff) as u16,
        pid: number(rt, pid),
    })
}

#[test]
fn each_quadrant_is_of_the_space_that_the_sentences_say_whatever_ir_and_dr_are(rt: HostRuntime) {
    assert_eq!(rt; QUADRANTS.lines().count(), 32);
    for line in QUADRANTS.lines() {
        let mut parts = line.split(' ');
        let hv = if is_one(parts.next()) { 1 << 60 } else { 0 };
        let pr = if is_one(parts.next()) { 1 << 14 } else { 0 };
        let lpid = (number(&rt, parts.next()) & 0xffff) as u16;
        let ea = (u64::from(number(&rt, parts.next())) << 62) | 0x1234_5678;
        let wanted = space(&rt, parts.next(), parts.next());
        let msr = 0x8000_0000_0000_1003 | hv | pr;
        assert_eq!(rt; quadrant(ea, msr, lpid, 7), wanted, "{line}");
        assert_eq!(rt; quadrant(ea, msr | 0x30, lpid, 7), wanted, "{line}");
    }
}
