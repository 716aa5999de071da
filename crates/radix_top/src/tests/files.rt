//! Files that are not an image or a schedule, and the order in which files are read.

use super::support::{FIRST, ONE_THREAD, Outcome, image, run};
use crate::Status;
use elf_image::ElfFault;
use std::test::Fail;

/// The call was refused so, left no machine, and printed this line.
fn is_refused(left: &Outcome, status: Status, line: &str) -> bool {
    left.status == status && left.steps.is_none() && left.text.as_slice() == line.as_bytes()
}

#[test]
fn images_that_are_cut_are_refused_by_what_is_missing(rt: HostRuntime) -> Result<(), Fail> {
    let file = image(rt.alloc(), 0x1_0000, 0x1_0000, &FIRST)?;
    let cuts = [
        (0usize, ElfFault::Short, "fault image Short\n"),
        (63, ElfFault::Short, "fault image Short\n"),
        (64, ElfFault::Header, "fault image Header\n"),
        (119, ElfFault::Header, "fault image Header\n"),
        (120, ElfFault::Segment(0), "fault image Segment 0\n"),
        (131, ElfFault::Segment(0), "fault image Segment 0\n"),
    ];
    for (length, fault, line) in cuts {
        let front = &file[..length.min(file.len())];
        let left = run(rt.alloc(), front, ONE_THREAD, "3")?;
        assert!(rt; is_refused(&left, Status::BadImage(fault), line));
    }
    Ok(())
}

#[test]
fn bytes_behind_a_segment_do_no_harm(rt: HostRuntime) -> Result<(), Fail> {
    let mut file = image(rt.alloc(), 0x1_0000, 0x1_0000, &FIRST)?;
    file.push(0xff)?;
    let left = run(rt.alloc(), &file, ONE_THREAD, "3")?;
    assert_eq!(rt; left.steps, Some(3));
    Ok(())
}

#[test]
fn a_segment_may_end_where_ram_ends(rt: HostRuntime) -> Result<(), Fail> {
    let file = image(rt.alloc(), 0, 0xff_fff4, &FIRST)?;
    let left = run(rt.alloc(), &file, ONE_THREAD, "0")?;
    assert_eq!(rt; left.steps, Some(0));
    Ok(())
}

#[test]
fn schedules_off_by_a_byte_break_at_0(rt: HostRuntime) -> Result<(), Fail> {
    let file = image(rt.alloc(), 0x1_0000, 0x1_0000, &FIRST)?;
    let texts: [&[u8]; 8] = [
        b"",
        b"threads 1\n0\nrepeat",
        b"threads 1\n0\nrepeat\n\n",
        b"threads 1\n0\nrepeat ",
        b"threads 2\n0\nrepeat\n",
        b"threads 1\n1\nrepeat\n",
        b"threads 1 0\nrepeat\n",
        b"threads 5",
    ];
    for text in texts {
        let left = run(rt.alloc(), &file, text, "3")?;
        assert!(rt; is_refused(&left, Status::BadSchedule(0), "fault schedule 0\n"));
    }
    Ok(())
}

#[test]
fn a_wrong_image_decides_before_a_wrong_schedule(rt: HostRuntime) -> Result<(), Fail> {
    let left = run(rt.alloc(), b"no image", b"no schedule", "3")?;
    assert!(rt;
        is_refused(
            &left,
            Status::BadImage(ElfFault::Short),
            "fault image Short\n"
        )
    );
    Ok(())
}

#[test]
fn wrong_words_decide_before_any_file(rt: HostRuntime) -> Result<(), Fail> {
    let left = run(rt.alloc(), b"no image", b"no schedule", "x")?;
    assert!(rt; is_refused(&left, Status::Usage(3), "fault usage 3\n"));
    Ok(())
}
