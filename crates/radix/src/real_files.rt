//! Real files. No contract knows their bytes; each call in which the system failed is counted.

ghost use Rattle.std.specs.Prelude.{◌≡◌, ◌≤◌, ℕ, None, IfOk};
ghost use Rattle.std.specs.Io.{StartsWith};
ghost use Rattle.outer_io.specs.Outside.{Reads};
ghost use Rattle.radix.specs.Gathering.{Gathers};
ghost use Rattle.radix.specs.Shelf.{faults_after};

use outer_io::{Answer, FileFault, Files, LastCall};
use std::alloc::{AllocError, Global};
use std::io::{ErrorKind, Read};
use std::marker::Model;
use std::{fs, rt};

/// How many bytes the system is asked for at once.
const PIECE: usize = 65_536;

/// Reads to the end, or to one byte more than `max`, and appends what comes. A read that a signal interrupted is
/// made again. Where the system fails, `reason` says why.
pub fn gather<R: Read>(
    reader: &mut R,
    max: usize,
    into: &mut Vec<u8>,
    reason: &mut Option<ErrorKind>,
) -> Result<Answer, AllocError>
    ensures kept { StartsWith into.new.items into.old.items }
    ensures answer { IfOk result (Gathers (R.remaining reader.old) max into.old.items into.new.items) }
{
    let mut room = max;
    let mut piece = [0u8; PIECE];
    for _ in 0..u64::MAX {
        let window = &mut piece[..room.saturating_add(1).min(PIECE)];
        match reader.read(window) {
            Ok(0) => return Ok(Answer::Read),
            Ok(count) => {
                if room < count {
                    return Ok(Answer::TooLong);
                }
                into.extend_from_slice(&window[..count])?;
                room -= count;
            }
            Err(error) => {
                let kind = error.kind();
                if kind != ErrorKind::Interrupted {
                    *reason = Some(kind);
                    return Ok(Answer::Failed);
                }
            }
        }
    }
    Ok(Answer::Failed)
}

/// The files that the runtime reaches.
#[derive(Drop)]
pub struct RealFiles<'a, R> {
    rt: &'a R,
    faults: u64,
    last: Option<LastCall>,
    reason: Option<ErrorKind>,
}

impl<'a, R> Model for RealFiles<'a, R> {
    ghost use Rattle.outer_io.specs.Shelf.{asked};
    ghost use Rattle.radix.specs.Shelf.{RealShelf};

    ghost Value = { RealShelf };

    ghost view = { λ f. record { faults = f.faults; last = asked f.last } };
}

impl<'a, R: rt::Files> RealFiles<'a, R> {
    /// The files that the runtime reaches. None was asked for.
    pub fn new(rt: &'a R) -> Self
        ensures { result ≡ record { faults = 0; last = None } }
    {
        RealFiles {
            rt,
            faults: 0,
            last: None,
            reason: None,
        }
    }

    /// How often the system has failed.
    pub fn faults(&self) -> u64
        ensures { result ≡ self.now.faults }
    {
        self.faults
    }

    /// Why the system failed at last, if it has.
    pub fn reason(&self) -> Option<ErrorKind> {
        self.reason
    }

    /// Opens a file and reads it to its end, or to one byte more than `max`.
    fn gather_file(
        &self,
        name: &str,
        max: usize,
        into: &mut Vec<u8>,
        reason: &mut Option<ErrorKind>,
    ) -> Result<Answer, AllocError>
        ensures kept { StartsWith into.new.items into.old.items }
        ensures answer { IfOk result (Gathers None max into.old.items into.new.items) }
    {
        match fs::open(self.rt, name) {
            Ok(mut file) => gather(&mut file, max, into, reason),
            Err(error) => {
                *reason = Some(error.kind());
                Ok(Answer::Failed)
            }
        }
    }
}

impl<'a, R: rt::Files> Files for RealFiles<'a, R> {
    ghost told = { λ _ _. None };

    ghost faults = { λ f. f.faults };

    ghost last = { λ f. f.last };

    /// Copies the name first: where memory runs out there, nothing changes.
    fn read_file(
        &mut self,
        alloc: Global,
        name: &str,
        max: usize,
        into: &mut Vec<u8>,
    ) -> Result<(), FileFault>
        ensures exact { self.new.faults ≡ faults_after self.old.faults result }
        ensures counts { self.old.faults ≤ self.new.faults }
        ensures reads { Reads self.old.faults self.new.faults self.old.last self.new.last None name.now max into.old.items into.new.items result }
    {
        let kept = String::from_str(alloc, name)?;
        let start = into.len();
        let mut reason = None;
        let gathered = self.gather_file(name, max, into, &mut reason);
        let answer = match gathered {
            Ok(answer) => answer,
            Err(_) => {
                into.truncate(start);
                return Err(FileFault::Memory);
            }
        };
        self.last = Some(LastCall {
            name: kept,
            max,
            answer,
        });
        match answer {
            Answer::Read => Ok(()),
            Answer::Failed => {
                into.truncate(start);
                self.faults = self.faults.saturating_add(1);
                self.reason = reason;
                Err(FileFault::Failed)
            }
            Answer::TooLong => {
                into.truncate(start);
                Err(FileFault::TooLong)
            }
        }
    }
}
