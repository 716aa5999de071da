//! Command lines and the places of their faults.

use super::support::words;
use crate::{Command, read_command};
use std::alloc::{AllocError, Global};
use std::test::Fail;

/// A word of a hundred letters.
const LONG: &str =
    "aaaaaaaaaaaaaaaaaaaaaaaaaaaaaaaaaaaaaaaaaaaaaaaaaaaaaaaaaaaaaaaaaaaaaaaaaaaaaaaaaaaaaaaaaaaaaaaaaaaa";

/// A number of forty digits.
const FORTY: &str = "1000000000000000000000000000000000000000";

/// The place at which a command line breaks, or None where it is a command.
fn place(alloc: Global, list: &[&str]) -> Result<Option<usize>, AllocError> {
    let words = words(alloc, list)?;
    Ok(read_command(&words).err())
}

/// The count of the run that a command line is, whether it has a trace and walks, and how many guests it loads.
fn run_of(alloc: Global, list: &[&str]) -> Result<Option<(u32, bool, bool, usize)>, AllocError> {
    let words = words(alloc, list)?;
    match read_command(&words) {
        Ok(Command::Run { count, options }) => {
            let guests = options.guests.as_slice().len();
            Ok(Some((count, options.trace, options.walks, guests)))
        }
        _ => Ok(None),
    }
}

#[test]
fn a_run_has_its_count_and_its_options(rt: HostRuntime) -> Result<(), Fail> {
    let lines: [(&[&str], (u32, bool, bool, usize)); 8] = [
        (&["run", "a", "b", "1048576"], (1_048_576, false, false, 0)),
        (&["run", "a", "b", "0", "--trace"], (0, true, false, 0)),
        (&["run", "a", "b", "0", "--walks"], (0, false, true, 0)),
        (
            &["run", "a", "b", "3", "--trace", "--walks"],
            (3, true, true, 0),
        ),
        (
            &["run", "a", "b", "3", "--guest", "g@20000"],
            (3, false, false, 1),
        ),
        (
            &[
                "run", "a", "b", "3", "--guest", "g@0", "--trace", "--guest", "g@1",
            ],
            (3, true, false, 2),
        ),
        (
            &["run", "a", "b", "3", "--walks", "--guest", "g@0", "--trace"],
            (3, true, true, 1),
        ),
        (
            &[
                "run",
                "a",
                "b",
                "3",
                "--guest",
                "g@0",
                "--guest",
                "g@1",
                "--guest",
                "g@2",
                "--guest",
                "g@0123456789abcDEF",
            ],
            (3, false, false, 4),
        ),
    ];
    for (line, run) in lines {
        assert_eq!(rt; run_of(rt.alloc(), line)?, Some(run));
    }
    Ok(())
}

#[test]
fn wrong_and_missing_words_have_their_numbers(rt: HostRuntime) -> Result<(), Fail> {
    let lines: [(&[&str], usize); 32] = [
        (&[], 0),
        (&[""], 0),
        (&["Run"], 0),
        (&["run "], 0),
        (&[" run"], 0),
        (&["runs", "a", "b", "1"], 0),
        (&["--help"], 0),
        (&["--version"], 0),
        (&["mon", "a", "b", "c"], 0),
        (&["gen", "1", "1", "53"], 0),
        (&["audit", "a", "b", "c"], 0),
        (&["a", "run", "b", "1"], 0),
        (&[LONG, "a", "b", "1"], 0),
        (&["asm"], 1),
        (&["asm", "a", "b"], 2),
        (&["dis", "a", "--trace"], 2),
        (&["run"], 1),
        (&["run", "a"], 2),
        (&["run", ""], 2),
        (&["run", "a", "b"], 3),
        (&["run", "", ""], 3),
        (&["run", "--trace", "--walks"], 3),
        (&["run", "a", "b", "1", "2"], 4),
        (&["run", "a", "b", "1", ""], 4),
        (&["run", "a", "b", "1", "a", "b"], 4),
        (&["run", "a", "b", "3", "--trace", "--trace"], 5),
        (&["run", "a", "b", "3", "--trac"], 4),
        (&["run", "a", "b", "--trace", "3"], 3),
        (&["run", "a", "b", "3", "--walks", "--walks"], 5),
        (&["run", "a", "b", "--walks", "3"], 3),
        (&["run", "a", "b", "3", "--walks", "--trace", "--walks"], 6),
        (&["run", "a", "b", "3", "--walk"], 4),
    ];
    for (list, wrong) in lines {
        assert_eq!(rt; place(rt.alloc(), list)?, Some(wrong));
    }
    Ok(())
}

#[test]
fn counts_have_no_sign_no_leading_zero_and_a_bound(rt: HostRuntime) -> Result<(), Fail> {
    let counts: [&str; 18] = [
        "",
        "x",
        "-1",
        "+1",
        "00",
        "01",
        "007",
        "1 ",
        " 1",
        "1.0",
        "1e3",
        "0x10",
        "1_000",
        "1048577",
        "4294967296",
        "18446744073709551616",
        FORTY,
        LONG,
    ];
    for count in counts {
        assert_eq!(rt; place(rt.alloc(), &["run", "a", "b", count])?, Some(3));
    }
    for count in ["0", "1", "9", "10", "1048575", "1048576"] {
        assert_eq!(rt; place(rt.alloc(), &["run", LONG, "", count])?, None);
    }
    Ok(())
}

#[test]
fn a_word_after_n_that_is_no_option_is_refused(rt: HostRuntime) -> Result<(), Fail> {
    let options: [&str; 6] = ["--walk", "--ram", "--help", "-h", "16", "g@20000"];
    for option in options {
        assert_eq!(rt;
            place(rt.alloc(), &["run", "a", "b", "3", option])?,
            Some(4)
        );
    }
    Ok(())
}

#[test]
fn a_guest_is_a_name_and_one_to_sixteen_digits(rt: HostRuntime) -> Result<(), Fail> {
    assert_eq!(rt;
        place(rt.alloc(), &["run", "a", "b", "3", "--guest"])?,
        Some(5)
    );
    for guest in ["g", "@0", "g@", "g@12345678901234567"] {
        assert_eq!(rt;
            place(rt.alloc(), &["run", "a", "b", "3", "--guest", guest])?,
            Some(5)
        );
    }
    Ok(())
}

#[test]
fn a_fifth_guest_is_refused(rt: HostRuntime) -> Result<(), Fail> {
    let line = [
        "run", "a", "b", "3", "--guest", "g@0", "--guest", "g@1", "--guest", "g@2", "--guest",
        "g@3", "--guest", "g@4",
    ];
    assert_eq!(rt; place(rt.alloc(), &line)?, Some(12));
    Ok(())
}
