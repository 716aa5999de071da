//! The words of a command.

ghost use Rattle.std.specs.Prelude.{◌≡◌, ◌+◌, ◌<◌, ◌^◌, length, IfOk};
ghost use Rattle.radix_top.specs.Words as said;
ghost use Rattle.radix_top.specs.Words.{command_of, options_of, run_of, IsWellNamed};

use crate::cutting::read_guest;
use crate::guest_words::{GuestWord, GuestWords};
use number_text::read_number;

/// The most steps of a run.
const MOST_STEPS: u64 = 1_048_576;

/// The most guests of a run.
const MOST_GUESTS: usize = 4;

/// What a run loads besides its image, and what it shows besides its threads and its consoles.
#[derive(Drop)]
pub struct Options {
    /// `--trace`: its steps, writes and device accesses.
    pub trace: bool,
    /// `--walks`: the words of tables that its walks read, and the entries that they left.
    pub walks: bool,
    /// `--guest FILE@HEX`, at most four times: files that are loaded as they are.
    pub guests: GuestWords,
}

/// What the words ask for.
#[derive(Drop)]
pub enum Command {
    /// `run IMAGE SCHEDULE N OPTIONS`: runs the image that word 1 names for `count` steps by the schedule that word
    /// 2 names.
    Run { count: u32, options: Options },
    /// `asm SOURCE`: writes the image that the source is which word 1 names.
    Asm,
    /// `dis IMAGE`: lists the image that word 1 names.
    Dis,
}

/// What the words ask for, or the number of the first wrong or missing one, from 0.
pub fn read_command(words: &[String]) -> Result<Command, usize>
    ensures command { result ≡ command_of words.now }
    ensures named { IfOk result (IsWellNamed words.now) }
{
    match words {
        [] => Err(0),
        [name, rest @ ..] => match name.as_str() {
            "run" => read_run(rest),
            "asm" => read_one_file(Command::Asm, rest),
            "dis" => read_one_file(Command::Dis, rest),
            _ => Err(0),
        },
    }
}

/// The run that the words behind the first ask for.
fn read_run(words: &[String]) -> Result<Command, usize>
    ensures { result ≡ run_of words.now }
{
    match words {
        [] => Err(1),
        [_] => Err(2),
        [_, _] => Err(3),
        [_, _, count, more @ ..] => {
            let Some(count) = read_number(count.as_bytes(), MOST_STEPS) else {
                return Err(3);
            };
            let none = Options {
                trace: false,
                walks: false,
                guests: GuestWords::new(),
            };
            let options = read_options(4, none, more)?;
            Ok(Command::Run {
                count: count as u32,
                options,
            })
        }
    }
}

/// A command of one file that the words behind the first name.
fn read_one_file(command: Command, words: &[String]) -> Result<Command, usize>
    ensures { result ≡ said.one_file command words.now }
{
    match words {
        [] => Err(1),
        [_] => Ok(command),
        [_, _, ..] => Err(2),
    }
}

/// Whether a word asks for a trace, which no word before it did.
fn asks_for_trace(before: &Options, word: &String) -> bool
    ensures { result ≡ said.asks_for_trace before.now word.now }
{
    word.as_str() == "--trace" && !before.trace
}

/// Whether a word asks for the walks, which no word before it did.
fn asks_for_walks(before: &Options, word: &String) -> bool
    ensures { result ≡ said.asks_for_walks before.now word.now }
{
    word.as_str() == "--walks" && !before.walks
}

/// Whether a word announces a guest, and at most three are there.
fn announces_guest(before: &Options, word: &String) -> bool
    ensures { result ≡ said.announces_guest before.now word.now }
{
    word.as_str() == "--guest" && before.guests.as_slice().len() < MOST_GUESTS
}

/// The options with a trace.
fn with_trace(before: Options) -> Options
    ensures { result ≡ said.with_trace before }
{
    Options {
        trace: true,
        walks: before.walks,
        guests: before.guests,
    }
}

/// The options with the walks.
fn with_walks(before: Options) -> Options
    ensures { result ≡ said.with_walks before }
{
    Options {
        trace: before.trace,
        walks: true,
        guests: before.guests,
    }
}

/// The options with one guest more.
fn with_guest(before: Options, guest: GuestWord) -> Options
    requires { length before.guests < 4 }
    ensures { result ≡ said.with_guest before guest }
{
    let mut options = before;
    options.guests.push(guest);
    options
}

/// The options that words are, the first of which has the number `place`, behind those that were there before.
#[tactic(auto, using(crate::proofs::CutWords::options_other))]
fn read_options(place: usize, before: Options, words: &[String]) -> Result<Options, usize>
    requires { place + length words.now < 2 ^ 63 }
    ensures { result ≡ options_of place before words.now }
{
    match words {
        [] => Ok(before),
        [word, rest @ ..] => {
            if asks_for_trace(&before, word) {
                return read_options(place + 1, with_trace(before), rest);
            }
            if asks_for_walks(&before, word) {
                return read_options(place + 1, with_walks(before), rest);
            }
            if announces_guest(&before, word) {
                return match rest {
                    [] => Err(place + 1),
                    [value, more @ ..] => match read_guest(place + 1, value) {
                        None => Err(place + 1),
                        Some(guest) => read_options(place + 2, with_guest(before, guest), more),
                    },
                };
            }
            Err(place)
        }
    }
}
