//! A sink over a writer. No contract knows its bytes. It gathers pieces before it writes them.

ghost use Rattle.std.specs.Prelude.{◌≡◌, ◌≤◌, ◌↔◌, ◌++◌, [], None, Some, IsSome, OnOk, OnErr, IsTrue, is_some, is_ok, is_err, if◌then◌else◌};
ghost use Rattle.std.specs.Io.KnownBytes.{Appends};
ghost use Rattle.outer_io.specs.Counts.{one_fault_more};
ghost use Rattle.outer_io.specs.Outside.{Puts};
ghost use Rattle.radix.specs.Outgoing.{AppendsFront, CountsFault, put_so_far};

use outer_io::{Sink, SinkFault};
use std::alloc::Global;
use std::io::{ErrorKind, Write};
use std::marker::Model;

/// The most bytes that wait to be written.
const ROOM: usize = 65_536;

/// Writes all bytes, or a front of them where the system fails. A write that a signal interrupted is made
/// again; one that takes nothing is a fault.
fn write_whole<W: Write>(writer: &mut W, bytes: &[u8]) -> Result<(), ErrorKind>
    ensures ok { OnOk result (Appends (W.contents writer.old) (W.contents writer.new) bytes.now) }
    ensures err { OnErr result (AppendsFront (W.contents writer.old) (W.contents writer.new) bytes.now) }
{
    let mut done = 0;
    for _ in 0..u64::MAX {
        if done >= bytes.len() {
            return Ok(());
        }
        match writer.write(&bytes[done..]) {
            Ok(0) => return Err(ErrorKind::WriteZero),
            Ok(count) => done += count,
            Err(error) => {
                let kind = error.kind();
                if kind != ErrorKind::Interrupted {
                    return Err(kind);
                }
            }
        }
    }
    Err(ErrorKind::Interrupted)
}

/// A sink that gathers what is put, up to 64 KiB, and writes it to a writer. Once a write has failed, each put fails.
#[derive(Drop)]
pub struct RealSink<W: Write + Drop> {
    writer: W,
    waiting: Vec<u8>,
    faults: u64,
    broken: Option<ErrorKind>,
}

impl<W: Write + Drop> Model for RealSink<W> {
    ghost use Rattle.radix.specs.Outgoing.{Outgoing};

    ghost Value = { Outgoing };

    ghost view = { λ s. record { written = W.contents s.writer; waiting = s.waiting.items; faults = s.faults; broken = s.broken } };
}

impl<W: Write + Drop> RealSink<W> {
    /// A sink over a writer, which is to hold nothing back itself. Where memory runs out, each piece is
    /// written as it comes.
    pub fn new(alloc: Global, writer: W) -> Self
        ensures { result ≡ record { written = W.contents writer; waiting = []; faults = 0; broken = None } }
    {
        let waiting = match Vec::with_capacity(alloc, ROOM) {
            Ok(waiting) => waiting,
            Err(_) => Vec::new(alloc),
        };
        RealSink {
            writer,
            waiting,
            faults: 0,
            broken: None,
        }
    }

    /// Whether the last fault was that nobody reads what is written.
    pub fn is_pipe_closed(&self) -> bool
        ensures { IsTrue result ↔ (self.now.broken ≡ Some ErrorKind.BrokenPipe) }
    {
        self.broken == Some(ErrorKind::BrokenPipe)
    }

    /// Counts a fault, after which each put fails.
    fn break_off(&mut self, kind: ErrorKind) -> SinkFault
        ensures after { self.new ≡ record self.old { faults = one_fault_more self.old.faults; broken = Some kind } }
        ensures counts { self.old.faults ≤ self.new.faults }
    {
        self.faults = self.faults.saturating_add(1);
        self.broken = Some(kind);
        SinkFault
    }

    /// Appends a piece to what waits, if there is room, and says whether there was.
    fn try_gather(&mut self, bytes: &[u8]) -> bool
        ensures { self.new ≡ (if result then record self.old { waiting = self.old.waiting ++ bytes.now } else self.old) }
    {
        if self.waiting.capacity() - self.waiting.len() < bytes.len() {
            return false;
        }
        self.waiting.extend_from_slice(bytes).is_ok()
    }

    /// Writes what waits. Where the system fails, it still waits.
    fn write_waiting(&mut self) -> Result<(), SinkFault>
        ensures ok { OnOk result (Appends self.old.written self.new.written self.old.waiting) }
        ensures err { OnErr result (AppendsFront self.old.written self.new.written self.old.waiting) }
        ensures waiting { self.new.waiting ≡ (if is_ok result then [] else self.old.waiting) }
        ensures faults { CountsFault self.old.faults self.new.faults result }
        ensures same { OnOk result (self.new.broken ≡ self.old.broken) }
        ensures broken { OnErr result (IsSome self.new.broken) }
    {
        match write_whole(&mut self.writer, &self.waiting) {
            Ok(()) => {
                self.waiting.clear();
                Ok(())
            }
            Err(kind) => Err(self.break_off(kind)),
        }
    }

    /// Writes a piece after what was written.
    fn write_piece(&mut self, bytes: &[u8]) -> Result<(), SinkFault>
        ensures ok { OnOk result (Appends self.old.written self.new.written bytes.now) }
        ensures err { OnErr result (AppendsFront self.old.written self.new.written bytes.now) }
        ensures waiting { self.new.waiting ≡ self.old.waiting }
        ensures faults { CountsFault self.old.faults self.new.faults result }
        ensures same { OnOk result (self.new.broken ≡ self.old.broken) }
        ensures broken { OnErr result (IsSome self.new.broken) }
    {
        match write_whole(&mut self.writer, bytes) {
            Ok(()) => Ok(()),
            Err(kind) => Err(self.break_off(kind)),
        }
    }

    /// Writes all that waits. It fails where the system fails, and once a write has failed.
    pub fn finish(&mut self) -> Result<(), SinkFault>
        ensures ok { OnOk result (Appends self.old.written self.new.written self.old.waiting × (self.new.waiting ≡ [])) }
        ensures err { OnErr result (AppendsFront self.old.written self.new.written self.old.waiting) }
        ensures broken { is_some self.new.broken ≡ is_err result }
        ensures fails_on { IsSome self.old.broken → self.new ≡ record self.old { faults = one_fault_more self.old.faults } }
        ensures faults { CountsFault self.old.faults self.new.faults result }
    {
        if let Some(kind) = self.broken {
            return Err(self.break_off(kind));
        }
        self.write_waiting()
    }
}

impl<W: Write + Drop> Sink for RealSink<W> {
    ghost told = { λ _. None };

    ghost faults = { λ s. s.faults };

    /// Writes what waits before a piece that has no room after it. It fails where the system fails, and once a
    /// write has failed.
    fn put(&mut self, bytes: &[u8]) -> Result<(), SinkFault>
        ensures ok { OnOk result (Appends (put_so_far self.old) (put_so_far self.new) bytes.now) }
        ensures err { OnErr result (AppendsFront self.old.written self.new.written (self.old.waiting ++ bytes.now)) }
        ensures broken { is_some self.new.broken ≡ is_err result }
        ensures fails_on { IsSome self.old.broken → self.new ≡ record self.old { faults = one_fault_more self.old.faults } }
        ensures faults { CountsFault self.old.faults self.new.faults result }
        ensures puts { Puts None None self.old.faults self.new.faults result bytes.now }
    {
        if let Some(kind) = self.broken {
            return Err(self.break_off(kind));
        }
        if self.try_gather(bytes) {
            return Ok(());
        }
        self.write_waiting()?;
        if self.try_gather(bytes) {
            return Ok(());
        }
        self.write_piece(bytes)
    }
}
