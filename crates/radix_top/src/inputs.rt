//! The files of a command, read and checked one after the other.

ghost use Rattle.std.specs.Prelude.{◌≡◌, ◌≤◌, ◌<◌, ℕ, List, IfOk, IfErr, IfSome, Ok, length};
ghost use Rattle.elf_image.specs.IsImage.{IsImage};
ghost use Rattle.elf_image.specs.Written.{written};
ghost use Rattle.sched_text.specs.Reading.{plan_of};
ghost use Rattle.ppc_bus.specs.Windows.{Window};
ghost use Rattle.radix_top.specs.declared.command.Command.TheVariants.{Run};
ghost use Rattle.radix_top.specs.declared.status.Refusal.TheVariants.{Memory};
ghost use Rattle.radix_top.specs.Words.{word_at, command_of, AreCut};
ghost use Rattle.radix_top.specs.Inputs.{met, image_word, schedule_word, source_word, files_of, WasReadAs, FileFails, FailsAmong};
ghost use Rattle.radix_top.specs.Calls.{IsAssembled};
ghost use Rattle.radix_top.specs.Causes.{HasCause};
ghost use Rattle.radix_top.specs.Prepared.{IsReady, IsPrepared};

use crate::command::{Command, Options, read_command};
use crate::guests::{read_guests, read_word};
use crate::status::Refusal;
use asm_places::AsmFault;
use elf_image::{Bytes, ElfFault, Guests, Image, WriteElfFault, read_elf, write_elf};
use outer_io::Files;
use ppc_asm::{a_source_has_1_to_64_segments, assemble};
use sched_text::{SchedFault, Schedule, read_schedule};
use std::alloc::Global;

/// What a run needs.
#[derive(Drop)]
pub struct RunInputs {
    /// How many steps are asked for.
    pub count: u32,
    /// What is to be loaded and shown.
    pub options: Options,
    /// The image.
    pub image: Image,
    /// The schedule.
    pub schedule: Schedule,
    /// The guests.
    pub guests: Guests,
}

/// What a command needs.
#[derive(Drop)]
pub enum Prepared {
    /// What a run needs.
    Run(RunInputs),
    /// The file that is to be written.
    File(Bytes),
    /// The image that is to be listed.
    Listing(Image),
}

/// Reads the image, which word 1 names.
fn read_image<F: Files>(alloc: Global, words: &[String], files: &mut F) -> Result<Image, Refusal>
    requires { 1 < length words.now }
    ensures same { (n : List ℕ) → F.told files.new n ≡ F.told files.old n }
    ensures counts { F.faults files.old ≤ F.faults files.new }
    ensures ok { IfOk result (λ i. WasReadAs (met (F.told files.old) (F.faults files.old) (F.faults files.new) (F.last files.new)) (word_at words.now 1) (λ bytes. IsImage bytes i)) }
    ensures err { IfErr result (FileFails (met (F.told files.old) (F.faults files.old) (F.faults files.new) (F.last files.new)) (image_word words.now)) }
{
    let bytes = read_word(alloc, words, 1, files)?;
    match read_elf(alloc, &bytes) {
        Ok(image) => Ok(image),
        Err(ElfFault::Memory) => Err(Refusal::Memory),
        Err(fault) => Err(Refusal::BadImage(fault)),
    }
}

/// Reads the schedule, which word 2 names.
fn read_plan<F: Files>(alloc: Global, words: &[String], files: &mut F) -> Result<Schedule, Refusal>
    requires { 2 < length words.now }
    ensures same { (n : List ℕ) → F.told files.new n ≡ F.told files.old n }
    ensures counts { F.faults files.old ≤ F.faults files.new }
    ensures ok { IfOk result (λ s. WasReadAs (met (F.told files.old) (F.faults files.old) (F.faults files.new) (F.last files.new)) (word_at words.now 2) (λ bytes. plan_of bytes ≡ Ok s)) }
    ensures one { IfOk result (λ s. s.threads ≡ 1) }
    ensures err { IfErr result (FileFails (met (F.told files.old) (F.faults files.old) (F.faults files.new) (F.last files.new)) (schedule_word words.now)) }
{
    let bytes = read_word(alloc, words, 2, files)?;
    match read_schedule(alloc, &bytes) {
        Ok(schedule) => Ok(schedule),
        Err(SchedFault::Place(place)) => Err(Refusal::BadSchedule(place)),
        Err(SchedFault::Memory) => Err(Refusal::Memory),
    }
}

/// The file of an image, which has 1 to 64 segments.
fn file_of(alloc: Global, image: &Image) -> Result<Bytes, Refusal>
    requires some { 1 ≤ length image.now.segments }
    requires most { length image.now.segments ≤ 64 }
    ensures ok { IfOk result (λ bytes. bytes ≡ written image.now) }
    ensures err { IfErr result (λ r. r ≡ Memory) }
{
    match write_elf(alloc, image) {
        Ok(bytes) => Ok(bytes),
        Err(WriteElfFault::Memory) => Err(Refusal::Memory),
        Err(WriteElfFault::NoSegments | WriteElfFault::TooMany) => unreachable!(),
    }
}

/// Reads the source, which word 1 names, and makes the file of the image that it is.
fn assemble_file<F: Files>(alloc: Global, words: &[String], files: &mut F) -> Result<Bytes, Refusal>
    requires { 1 < length words.now }
    ensures same { (n : List ℕ) → F.told files.new n ≡ F.told files.old n }
    ensures counts { F.faults files.old ≤ F.faults files.new }
    ensures ok { IfOk result (IsAssembled (met (F.told files.old) (F.faults files.old) (F.faults files.new) (F.last files.new)) words.now) }
    ensures err { IfErr result (FileFails (met (F.told files.old) (F.faults files.old) (F.faults files.new) (F.last files.new)) (source_word words.now)) }
{
    let bytes = read_word(alloc, words, 1, files)?;
    match assemble(alloc, &bytes) {
        Ok(image) => {
            a_source_has_1_to_64_segments();
            file_of(alloc, &image)
        }
        Err(AsmFault::Memory) => Err(Refusal::Memory),
        Err(AsmFault::At { line, kind }) => Err(Refusal::BadAsm(line, kind)),
    }
}

/// Reads the files of a run. The first refusal decides.
fn prepare_run<F: Files>(
    alloc: Global,
    words: &[String],
    count: u32,
    options: Options,
    files: &mut F,
) -> Result<RunInputs, Refusal>
    requires command { command_of words.now ≡ Ok (Run count options) }
    requires few { count ≤ 1048576 }
    requires long { 3 < length words.now }
    requires cut { AreCut words.now options.guests }
    ensures same { (n : List ℕ) → F.told files.new n ≡ F.told files.old n }
    ensures counts { F.faults files.old ≤ F.faults files.new }
    ensures ok { IfOk result (IsReady (met (F.told files.old) (F.faults files.old) (F.faults files.new) (F.last files.new)) words.now) }
    ensures err { IfErr result (FailsAmong (met (F.told files.old) (F.faults files.old) (F.faults files.new) (F.last files.new)) (files_of words.now (Run count options))) }
{
    let image = read_image(alloc, words, files)?;
    let schedule = read_plan(alloc, words, files)?;
    let mut guests = Guests::new(alloc);
    read_guests(alloc, words, options.guests.as_slice(), files, &mut guests)?;
    Ok(RunInputs {
        count,
        options,
        image,
        schedule,
        guests,
    })
}

/// Reads the words and then the files. The first refusal decides.
pub(crate) fn prepare<F: Files>(
    alloc: Global,
    words: &[String],
    files: &mut F,
) -> Result<Prepared, Refusal>
    ensures same { (n : List ℕ) → F.told files.new n ≡ F.told files.old n }
    ensures counts { F.faults files.old ≤ F.faults files.new }
    ensures ok { IfOk result (IsPrepared (met (F.told files.old) (F.faults files.old) (F.faults files.new) (F.last files.new)) words.now) }
    ensures err { IfErr result (λ r. (windows : List Window) → HasCause (met (F.told files.old) (F.faults files.old) (F.faults files.new) (F.last files.new)) words.now windows r) }
{
    match read_command(words) {
        Err(place) => Err(Refusal::Usage(place)),
        Ok(Command::Run { count, options }) => {
            let ready = prepare_run(alloc, words, count, options, files)?;
            Ok(Prepared::Run(ready))
        }
        Ok(Command::Asm) => {
            let bytes = assemble_file(alloc, words, files)?;
            Ok(Prepared::File(bytes))
        }
        Ok(Command::Dis) => {
            let image = read_image(alloc, words, files)?;
            Ok(Prepared::Listing(image))
        }
    }
}
