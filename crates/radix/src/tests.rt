mod messages;

use crate::call::run;
use crate::real_files::{RealFiles, gather};
use crate::real_sink::RealSink;
use outer_io::{Answer, FileFault, Files, Sink, SinkFault};
use std::alloc::Global;
use std::io::{Error, ErrorKind, Read, Write};
use std::test::Fail;
use std::{env, fs, io, process};

/// Bytes that come three at once, after an interruption, and end with a fault, if there is one.
#[derive(Drop)]
struct SlowReader<'a> {
    left: &'a [u8],
    interrupted: bool,
    fault: Option<ErrorKind>,
}

impl<'a> Read for SlowReader<'a> {
    fn read(&mut self, buf: &mut [u8]) -> io::Result<usize> {
        if !self.interrupted {
            self.interrupted = true;
            return Err(Error::from(ErrorKind::Interrupted));
        }
        if self.left.is_empty()
            && let Some(kind) = self.fault
        {
            return Err(Error::from(kind));
        }
        let count = self.left.len().min(buf.len()).min(3);
        let (front, rest) = self.left.split_at(count);
        buf[..count].copy_from_slice(front);
        self.left = rest;
        Ok(count)
    }
}

/// A writer that takes at most three bytes at once, after an interruption, and fails at the write with one
/// number: it takes nothing there, or gives an error.
#[derive(Drop)]
struct SlowWriter {
    held: Vec<u8>,
    writes: u32,
    fails_at: u32,
    fault: Option<ErrorKind>,
}

impl Write for SlowWriter {
    fn write(&mut self, buf: &[u8]) -> io::Result<usize> {
        self.writes = self.writes.saturating_add(1);
        if self.writes == 1 {
            return Err(Error::from(ErrorKind::Interrupted));
        }
        if self.writes == self.fails_at {
            return match self.fault {
                Some(kind) => Err(Error::from(kind)),
                None => Ok(0),
            };
        }
        let count = buf.len().min(3);
        self.held.extend_from_slice(&buf[..count])?;
        Ok(count)
    }

    fn flush(&mut self) -> io::Result<()> {
        Ok(())
    }
}

#[test]
fn a_file_is_read_within_its_bound(rt: HostRuntime) -> Result<(), Fail> {
    let name = format!(in rt.alloc(); "radix-files-{}", process::id(rt.process()))?;
    let path = env::temp_dir(&rt)?.join(rt.alloc(), name.as_str())?;
    fs::write(&rt, path.as_path(), b"seven b")?;
    let mut files = RealFiles::new(&rt);
    let mut into = Vec::from_slice(rt.alloc(), b"<")?;
    let whole = files.read_file(rt.alloc(), path.as_str(), 7, &mut into);
    let long = files.read_file(rt.alloc(), path.as_str(), 6, &mut into);
    fs::remove_file(&rt, path.as_path())?;
    let missing = files.read_file(rt.alloc(), path.as_str(), 7, &mut into);
    assert_eq!(rt; whole, Ok(()));
    assert_eq!(rt; long, Err(FileFault::TooLong));
    assert_eq!(rt; missing, Err(FileFault::Failed));
    assert_eq!(rt; into.as_slice(), b"<seven b".as_slice());
    assert_eq!(rt; files.faults(), 1);
    assert_eq!(rt; files.reason(), Some(ErrorKind::NotFound));
    Ok(())
}

#[test]
fn reading_goes_on_after_an_interruption(rt: HostRuntime) -> Result<(), Fail> {
    for (max, fault, want, kept) in [
        (7, None, Answer::Read, b"<seven b".as_slice()),
        (6, None, Answer::TooLong, b"<seven ".as_slice()),
        (
            8,
            Some(ErrorKind::Other),
            Answer::Failed,
            b"<seven b".as_slice(),
        ),
    ] {
        let mut reader = SlowReader {
            left: b"seven b",
            interrupted: false,
            fault,
        };
        let mut into = Vec::from_slice(rt.alloc(), b"<")?;
        let mut reason = None;
        assert_eq!(rt; gather(&mut reader, max, &mut into, &mut reason)?, want);
        assert_eq!(rt; reason, fault);
        assert_eq!(rt; into.as_slice(), kept);
    }
    Ok(())
}

#[test]
fn pieces_reach_a_file_in_order(rt: HostRuntime) -> Result<(), Fail> {
    let name = format!(in rt.alloc(); "radix-sink-{}", process::id(rt.process()))?;
    let path = env::temp_dir(&rt)?.join(rt.alloc(), name.as_str())?;
    let long = vec![in rt.alloc(); b'x'; 70_000]?;
    let mut sink = RealSink::new(rt.alloc(), fs::create(&rt, path.as_path())?);
    let mut want = Vec::new(rt.alloc());
    for piece in [b"one".as_slice(), b"", b"two", &long, b"three"] {
        assert_eq!(rt; sink.put(piece), Ok(()));
        want.extend_from_slice(piece)?;
    }
    assert_eq!(rt; sink.finish(), Ok(()));
    let written = fs::read(&rt, path.as_path())?;
    fs::remove_file(&rt, path.as_path())?;
    assert!(rt; written.as_slice() == want.as_slice());
    Ok(())
}

/// What a sink over this writer answers, and whether it says that nobody reads.
fn answers(alloc: Global, writer: &mut SlowWriter) -> ([Result<(), SinkFault>; 4], bool) {
    let mut sink = RealSink::new(alloc, writer);
    let first = sink.put(b"first and second");
    let second = sink.finish();
    let third = sink.put(b"third");
    let fourth = sink.finish();
    ([first, second, third, fourth], sink.is_pipe_closed())
}

#[test]
fn a_sink_breaks_at_its_first_fault(rt: HostRuntime) -> Result<(), Fail> {
    let fault = Err(SinkFault);
    for (kind, is_pipe_closed) in [(None, false), (Some(ErrorKind::BrokenPipe), true)] {
        let mut writer = SlowWriter {
            held: Vec::new(rt.alloc()),
            writes: 0,
            fails_at: 4,
            fault: kind,
        };
        let (given, says_closed) = answers(rt.alloc(), &mut writer);
        assert_eq!(rt; given, [Ok(()), fault, fault, fault]);
        assert_eq!(rt; says_closed, is_pipe_closed);
        assert_eq!(rt; writer.held.as_slice(), b"first ".as_slice());
    }
    Ok(())
}

#[test]
fn the_program_prints_its_version_and_refuses_no_words(rt: HostRuntime) -> Result<(), Fail> {
    let mut words = Vec::new(rt.alloc());
    assert_eq!(rt; run(&rt, &words), 2);
    words.push(String::from_str(rt.alloc(), "--version")?)?;
    assert_eq!(rt; run(&rt, &words), 0);
    Ok(())
}
