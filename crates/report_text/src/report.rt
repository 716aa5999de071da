//! The report of a machine.

ghost use Rattle.std.specs.Prelude.{◌≡◌};
ghost use Rattle.outer_io.specs.Outside.{Puts};
ghost use Rattle.line_text.specs.Text.{text_of};
ghost use Rattle.thread_regs.specs.Soundness.{AreWithinWidths};
ghost use Rattle.report_text.specs.ThreadText.{thread_texts};
ghost use Rattle.report_text.specs.Report.{time_base, lines_if, report};

use crate::access_lines::{DeviceLines, WriteLines};
use crate::consoles::put_consoles;
use crate::head::HeadLines;
use crate::step_lines::StepLines;
use crate::thread_lines::ThreadLines;
use crate::walk_lines::{FillLines, ReadLines};
use journal_core::{Ended, Journal};
use line_text::{Lines, print_lines};
use outer_io::{Sink, SinkFault};
use thread_regs::{Thread, Threads};

/// What a report shows of a machine.
#[derive(Drop)]
pub struct ReportParts<'a> {
    /// The registers of the threads.
    pub threads: &'a Threads,
    /// The rows of the run.
    pub journal: &'a Journal,
    /// How the run ended.
    pub end: Ended,
}

/// The time base, which all threads share; there is always a thread 0.
fn time_base(threads: &[Thread]) -> u64
    ensures { result ≡ time_base threads.now }
{
    match threads {
        [] => 0,
        [first, ..] => first.tb,
    }
}

/// Puts the lines of each thread.
fn put_threads<K: Sink>(threads: &[Thread], out: &mut K) -> Result<(), SinkFault>
    requires { AreWithinWidths threads.now }
    ensures { Puts (K.told out.old) (K.told out.new) (K.faults out.old) (K.faults out.new) result (text_of (thread_texts 0 threads.now)) }
{
    for (number, thread) in threads.iter().enumerate() {
        print_lines(&ThreadLines { number, thread }, out)?;
    }
    Ok(())
}

/// Puts lines, where they are asked for.
fn put_lines_if<L: Lines, K: Sink>(asked: bool, lines: &L, out: &mut K) -> Result<(), SinkFault>
    ensures { Puts (K.told out.old) (K.told out.new) (K.faults out.old) (K.faults out.new) result (lines_if asked (L.lines lines.now)) }
{
    if asked {
        return print_lines(lines, out);
    }
    Ok(())
}

/// Puts the report of a machine, whose LPIDR and PIDR keep to their widths; with `trace` also its step rows, write rows and
/// device rows, and with `walks` its read rows and fill rows. Each line is one piece but those of consoles, which are more; no piece holds bytes of two lines. Stops at the
/// first fault of the sink, which then has a front of the report. Takes no memory.
pub fn print_report<K: Sink>(
    parts: &ReportParts,
    trace: bool,
    walks: bool,
    out: &mut K,
) -> Result<(), SinkFault>
    requires { AreWithinWidths parts.now.threads.now }
    ensures { Puts (K.told out.old) (K.told out.new) (K.faults out.old) (K.faults out.new) result
        (report parts.now.end parts.now.threads.now parts.now.journal.now.rows (record { trace = trace; walks = walks })) }
{
    let threads = parts.threads.as_slice();
    let journal = parts.journal;
    let head = HeadLines {
        end: parts.end,
        steps: journal.counts().steps,
        tb: time_base(threads),
    };
    print_lines(&head, out)?;
    put_threads(threads, out)?;
    put_consoles(journal, out)?;
    put_lines_if(trace, &StepLines { journal }, out)?;
    put_lines_if(trace, &WriteLines { journal }, out)?;
    put_lines_if(trace, &DeviceLines { journal }, out)?;
    put_lines_if(walks, &ReadLines { journal }, out)?;
    put_lines_if(walks, &FillLines { journal }, out)?;
    out.put(b".\n")
}
