//! One call of the program over real files and the standard output.

ghost use Rattle.std.specs.Prelude.{◌≡◌, ◌≢◌, ◌⊎◌, [], IfOk};
ghost use Rattle.radix_top.specs.declared.status.Refusal.TheVariants.{Memory, Usage};
ghost use Rattle.radix_top.specs.declared.status.Status.TheVariants.{WriteFault};
ghost use Rattle.radix_top.specs.Statuses.{refused_status};
ghost use Rattle.radix.specs.Answering.{Answers, Exits, first_wrong};
ghost use Rattle.radix.specs.Exits.{exit_of};
ghost use Rattle.radix.specs.Informing.{information_of};

use crate::exit::exit_code;
use crate::information::{Information, information_asked, text_of};
use crate::last_step::last_step;
use crate::message::{Message, Story};
use crate::real_files::RealFiles;
use crate::real_sink::RealSink;
use crate::standard::bench_of;
use crate::usage::WrongWord;
use bench_devices::{Console, Control, Tape};
use outer_io::{Sink, SinkFault};
use ppc_bus::Device;
use radix_top::{Refusal, Status, fault_line, radix_call, read_command, refused_status};
use std::alloc::AllocError;
use std::io::Write;
use std::{io, rt};

/// Prints a text, and writes all of it.
fn print_text<W: Write + Drop>(text: &[u8], out: &mut RealSink<W>) -> Result<(), SinkFault> {
    out.put(text)?;
    out.finish()
}

/// Does what the words ask for, with the program's devices. What the messages tell beside the status goes into `story`.
fn call_with_devices<R: rt::Files + AllocGlobal, W: Write + Drop>(
    rt: &R,
    words: &[String],
    out: &mut RealSink<W>,
    story: &mut Story,
) -> Result<Status, AllocError>
    ensures { IfOk result (Answers words.now) }
{
    let alloc = rt.alloc();
    let console: Box<dyn Device> = Box::new(alloc, Console::new())?;
    let control: Box<dyn Device> = Box::new(alloc, Control::new())?;
    let tape: Box<dyn Device> = Box::new(alloc, Tape::new(Vec::new(alloc)))?;
    let mut bench = bench_of(alloc, console, control, tape)?;
    let mut files = RealFiles::new(rt);
    let status = radix_call(alloc, words, &mut files, out, &mut bench);
    story.reason = files.reason();
    story.last = last_step(&bench);
    Ok(status)
}

/// Does what the words ask for, and writes all that is printed. What the messages tell beside the status goes into
/// `story`.
fn call<R: rt::Files + AllocGlobal, W: Write + Drop>(
    rt: &R,
    words: &[String],
    out: &mut RealSink<W>,
    story: &mut Story,
) -> Status
    ensures answer { Answers words.now result }
    ensures written { result ≢ WriteFault → out.new.waiting ≡ [] }
{
    let status = match call_with_devices(rt, words, out, story) {
        Ok(status) => status,
        Err(_) => match out.put(fault_line(Refusal::Memory).as_slice()) {
            Ok(()) => Status::Memory,
            Err(SinkFault) => Status::WriteFault,
        },
    };
    match out.finish() {
        Ok(()) => status,
        Err(_) => Status::WriteFault,
    }
}

/// Says on standard error what was wrong. Where nobody reads the output, it says nothing.
fn complain(rt: &impl Eprint, message: Message, is_pipe_closed: bool) {
    let _ = if message.status == Status::WriteFault && !is_pipe_closed {
        rt.eprintln("radix: the output could not be written")
    } else {
        rt.eprint(message)
    };
}

/// Runs the program with the words after its name, and returns its exit status.
pub fn run<R: rt::Files + Print + Eprint + AllocGlobal>(rt: &R, words: &[String]) -> u8
    ensures { Exits (information_of words.now) words.now result }
{
    let mut out = RealSink::new(rt.alloc(), io::writer(rt));
    let mut story = Story {
        reason: None,
        last: None,
    };
    let status = match information_asked(words) {
        None => call(rt, words, &mut out, &mut story),
        Some(information) => match print_text(text_of(information).as_bytes(), &mut out) {
            Ok(()) => return 0,
            Err(SinkFault) => Status::WriteFault,
        },
    };
    let message = Message {
        words,
        status,
        story,
    };
    complain(rt, message, out.is_pipe_closed());
    exit_code(status)
}

/// Prints the line of a refusal that comes before any call, and returns the status.
fn refuse<W: Write + Drop>(refusal: Refusal, out: &mut RealSink<W>) -> Status
    ensures { (result ≡ refused_status refusal) ⊎ (result ≡ WriteFault) }
{
    match print_text(fault_line(refusal).as_slice(), out) {
        Ok(()) => refused_status(refusal),
        Err(SinkFault) => Status::WriteFault,
    }
}

/// The number of the first wrong word of a line whose words up to one that is not UTF-8 text are these.
fn first_wrong(words: &[String]) -> usize
    ensures { result ≡ first_wrong words.now }
{
    match read_command(words) {
        Err(place) => place,
        Ok(_) => words.len(),
    }
}

/// Refuses a line whose words up to one that is not UTF-8 text are these, and returns the exit status.
pub fn refuse_cut_words(rt: &(impl Print + Eprint + AllocGlobal), words: &[String]) -> u8
    ensures { (result ≡ exit_of (refused_status (Usage (first_wrong words.now)))) ⊎ (result ≡ exit_of WriteFault) }
{
    let mut out = RealSink::new(rt.alloc(), io::writer(rt));
    let place = first_wrong(words);
    let status = refuse(Refusal::Usage(place), &mut out);
    if status != Status::WriteFault {
        let _ = rt.eprint(WrongWord {
            words,
            place,
            is_cut: true,
        });
    } else if !out.is_pipe_closed() {
        let _ = rt.eprintln("radix: the output could not be written");
    }
    exit_code(status)
}

/// Refuses a line for whose words there was no memory, and returns the exit status.
pub fn refuse_for_memory(rt: &(impl Print + Eprint + AllocGlobal)) -> u8
    ensures { (result ≡ exit_of (refused_status Memory)) ⊎ (result ≡ exit_of WriteFault) }
{
    let mut out = RealSink::new(rt.alloc(), io::writer(rt));
    let status = refuse(Refusal::Memory, &mut out);
    let message = Message {
        words: &[],
        status,
        story: Story {
            reason: None,
            last: None,
        },
    };
    complain(rt, message, out.is_pipe_closed());
    exit_code(status)
}
