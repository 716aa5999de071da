use crate::call::{refuse_cut_words, run};
use crate::command_line::read_command_line;
use crate::information::HELP;
use crate::last_step::LastStep;
use crate::message::{Message, Story};
use crate::usage::WrongWord;
use asm_places::AsmKind;
use elf_image::{ElfFault, Span};
use journal_core::{RowKind, StopName};
use ppc_bus::PlugReason;
use radix_top::Status;
use std::alloc::{AllocError, Global};
use std::env::{Env, FillError};
use std::io::ErrorKind;
use std::test::Fail;

/// The words of a text, which blanks separate.
fn words_of(alloc: Global, text: &str) -> Result<Vec<String>, AllocError> {
    let mut words = Vec::new(alloc);
    for word in text.split(' ') {
        if !word.is_empty() {
            words.push(String::from_str(alloc, word)?)?;
        }
    }
    Ok(words)
}

/// What a message says without a step and a reason.
fn said(alloc: Global, words: &[String], status: Status) -> Result<String, AllocError> {
    let story = Story {
        reason: None,
        last: None,
    };
    Message {
        words,
        status,
        story,
    }
    .to_string(alloc)
}

#[test]
fn messages_name_the_wrong_word_and_what_would_be_right(rt: HostRuntime) -> Result<(), Fail> {
    for (text, place, want) in [
        ("", 0, "radix: a command is missing\n"),
        ("gen a", 0, "radix: 'gen' is no command of this version\n"),
        ("asm", 1, "radix: the source is missing\n"),
        ("dis", 1, "radix: the image is missing\n"),
        ("asm a b", 2, "radix: unexpected 'b'\n"),
        (
            "run a b 3 --guest",
            5,
            "radix: FILE@HEX is missing behind --guest\n",
        ),
        (
            "run a b 3 --guest g@",
            5,
            "radix: the guest is 'g@', and must be FILE@HEX: a name, '@', and an address of 1 to 16 hexadecimal digits\n",
        ),
        ("--help 1", 0, "radix: '--help' takes no further word\n"),
        (
            "run",
            1,
            "radix: the image, the schedule and N are missing\n",
        ),
        ("run a", 2, "radix: the schedule and N are missing\n"),
        ("run a b", 3, "radix: N is missing\n"),
        (
            "run a b 1048577",
            3,
            "radix: N is '1048577', and must be 0 to 1048576 in decimal\n",
        ),
        (
            "run a b 01",
            3,
            "radix: N is '01', and must be 0 to 1048576 in decimal, without a leading zero\n",
        ),
        (
            "run a b -1",
            3,
            "radix: N is '-1', and must be 0 to 1048576 in decimal, without a sign\n",
        ),
        ("run a b 1 2", 4, "radix: unexpected '2'\n"),
    ] {
        let words = words_of(rt.alloc(), text)?;
        let given = said(rt.alloc(), &words, Status::Usage(place))?;
        let hint = "Try 'radix --help' for what can be asked.\n";
        let whole = format!(in rt.alloc(); "{want}{hint}")?;
        assert_eq!(rt; given.as_str(), whole.as_str());
    }
    for text in ["-h", "run -h", "run --help"] {
        let words = words_of(rt.alloc(), text)?;
        let given = said(rt.alloc(), &words, Status::Usage(0))?;
        assert_eq!(rt; given.as_str(), HELP);
    }
    Ok(())
}

#[test]
fn messages_name_the_file_and_what_is_wrong(rt: HostRuntime) -> Result<(), Fail> {
    let words = words_of(rt.alloc(), "run a\u{1b}\n' b 3")?;
    for (status, want) in [
        (
            Status::ReadFault(1),
            "radix: 'a\\u{1b}\\n\\'': input/output error\n",
        ),
        (Status::TooLong(2), "radix: 'b': longer than 64 MiB\n"),
        (
            Status::BadImage(ElfFault::Class),
            "radix: 'a\\u{1b}\\n\\'': not an ELF file of 64 bits (docs/FORMATS.md, \"The image\")\n",
        ),
        (
            Status::BadImage(ElfFault::Overlap(0, 2)),
            "radix: 'a\\u{1b}\\n\\'': the segments of headers 0 and 2 have a common address (docs/FORMATS.md, \"The image\")\n",
        ),
        (
            Status::BadSchedule(0),
            "radix: 'b': not a schedule that this version reads, from byte 0 on (docs/FORMATS.md, \"The schedule\")\n",
        ),
        (
            Status::BadPlace(
                Span {
                    from: 0xff_fffc,
                    to: 0x100_0004,
                },
                Span {
                    from: 0,
                    to: 0x100_0000,
                },
            ),
            "radix: 'a\\u{1b}\\n\\'': addresses fffffc to 1000004 leave RAM, 0 to 1000000 (docs/FORMATS.md, \"The image\")\n",
        ),
        (
            Status::BadDevice(1, PlugReason::SlotUsed(0)),
            "radix: device 1 cannot be plugged: its window meets that of slot 0\n",
        ),
        (Status::Memory, "radix: out of memory\n"),
        (Status::WriteFault, ""),
    ] {
        let given = said(rt.alloc(), &words, status)?;
        assert_eq!(rt; given.as_str(), want);
    }
    Ok(())
}

#[test]
fn messages_say_what_is_wrong_with_a_source_or_a_guest(rt: HostRuntime) -> Result<(), Fail> {
    let words = words_of(rt.alloc(), "asm s")?;
    for (status, want) in [
        (
            Status::BadAsm(2, AsmKind::Range),
            "radix: the source 's' is wrong in line 2: an operand outside its field (Range)\n",
        ),
        (
            Status::BadAsm(0, AsmKind::Empty),
            "radix: the source 's' is wrong as a whole: no byte (Empty)\n",
        ),
    ] {
        let given = said(rt.alloc(), &words, status)?;
        assert_eq!(rt; given.as_str(), want);
    }
    let words = words_of(rt.alloc(), "run a b 3 --guest g@10008")?;
    let range = Span {
        from: 0x1_0008,
        to: 0x1_000c,
    };
    let other = Span {
        from: 0x1_0000,
        to: 0x1_000c,
    };
    let given = said(rt.alloc(), &words, Status::BadPlace(range, other))?;
    let want =
        "radix: the guest 'g' at 10008: addresses 10008 to 1000c meet 10000 to 1000c (docs/FORMATS.md, \"Guests\")\n";
    assert_eq!(rt; given.as_str(), want);
    let given = said(rt.alloc(), &words, Status::ReadFault(5))?;
    assert_eq!(rt; given.as_str(), "radix: 'g': input/output error\n");
    Ok(())
}

#[test]
fn messages_say_where_a_run_stopped(rt: HostRuntime) -> Result<(), Fail> {
    let mut story = Story {
        reason: None,
        last: Some(LastStep {
            number: 2,
            cia: 0x10008,
            word: Some(0xC800_0000),
        }),
    };
    let stopped = Message {
        words: &[],
        status: Status::Stopped(StopName::Unsupported, 0xC800_0000),
        story,
    }
    .to_string(rt.alloc())?;
    assert_eq!(rt;
        stopped.as_str(),
        "radix: stopped in step 2, at address 10008, word c8000000: Unsupported, this machine has no such instruction (docs/MACHINE.md, \"Stops\")\n"
    );
    story.last = Some(LastStep {
        number: 0,
        cia: 0x100_0000,
        word: None,
    });
    let outside = Message {
        words: &[],
        status: Status::Stopped(StopName::NoStorage, 0x100_0000),
        story,
    }
    .to_string(rt.alloc())?;
    assert_eq!(rt;
        outside.as_str(),
        "radix: stopped in step 0, at address 1000000: NoStorage, there is no RAM at real address 1000000 (docs/MACHINE.md, \"Stops\")\n"
    );
    let full = Message {
        words: &[],
        status: Status::JournalFull(RowKind::Reads, 262_144),
        story,
    }
    .to_string(rt.alloc())?;
    assert_eq!(rt;
        full.as_str(),
        "radix: no room in the journal after step 0, at address 1000000: its list of reads has 262144 rows (docs/MACHINE.md, \"Limits\")\n"
    );
    story.reason = Some(ErrorKind::IsADirectory);
    let words = words_of(rt.alloc(), "run a b 3")?;
    let read = Message {
        words: &words,
        status: Status::ReadFault(2),
        story,
    }
    .to_string(rt.alloc())?;
    assert_eq!(rt; read.as_str(), "radix: 'b': is a directory\n");
    Ok(())
}

/// A command line: the program's name and its words.
#[derive(Drop)]
struct Line {
    alloc: Global,
    words: Vec<Vec<u8>>,
}

impl Alloc for Line {
    type A = Global;

    fn alloc(&self) -> Global {
        self.alloc
    }
}

impl Env for Line {
    fn arg(&self, i: usize, buf: &mut [u8]) -> Result<usize, FillError> {
        match self.words.get(i) {
            None => Err(FillError::NotPresent),
            Some(word) if buf.len() < word.len() => Err(FillError::TooLong),
            Some(word) => {
                buf[..word.len()].copy_from_slice(word.as_slice());
                Ok(word.len())
            }
        }
    }

    fn var(&self, _name: &str, _buf: &mut [u8]) -> Result<usize, FillError> {
        Err(FillError::NotPresent)
    }

    fn var_at(&self, _i: usize, _buf: &mut [u8]) -> Result<usize, FillError> {
        Err(FillError::NotPresent)
    }
}

/// Adds a word to a line.
fn add(line: &mut Line, word: &[u8]) -> Result<(), AllocError> {
    let word = Vec::from_slice(line.alloc, word)?;
    line.words.push(word)?;
    Ok(())
}

#[test]
fn words_are_read_up_to_one_that_is_not_text(rt: HostRuntime) -> Result<(), Fail> {
    let alloc = rt.alloc();
    let mut line = Line {
        alloc,
        words: Vec::new(alloc),
    };
    add(&mut line, b"radix")?;
    add(&mut line, b"run")?;
    add(&mut line, &[b'x'; 600])?;
    let whole = read_command_line(&line)?;
    assert_eq!(rt; whole.words.len(), 2);
    assert_eq!(rt; whole.words[1].len(), 600);
    assert!(rt; !whole.is_cut);
    line.words.truncate(2);
    add(&mut line, b"\xff")?;
    add(&mut line, b"b")?;
    let cut = read_command_line(&line)?;
    assert_eq!(rt; cut.words.len(), 1);
    assert!(rt; cut.is_cut);
    let wrong = WrongWord {
        words: &cut.words,
        place: 1,
        is_cut: true,
    };
    let said = wrong.to_string(alloc)?;
    assert_eq!(rt;
        said.as_str(),
        "radix: word 1 is not UTF-8 text\nTry 'radix --help' for what can be asked.\n"
    );
    assert_eq!(rt; refuse_cut_words(&rt, &cut.words), 2);
    assert_eq!(rt; run(&rt, &cut.words), 2);
    Ok(())
}
