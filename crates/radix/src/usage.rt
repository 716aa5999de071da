//! What is wrong with the words of a command line.

use crate::information::HELP;
use crate::quoted::Quoted;
use std::fmt;

/// The line that points to the help.
const HINT: &str = "Try 'radix --help' for what can be asked.\n";

/// What standard error says of words that are not a command: which word is wrong or missing, and what would be right.
/// Words that ask for help get the help.
#[derive(Drop)]
pub struct WrongWord<'a> {
    /// The words after the program's name, up to the first that is not UTF-8 text.
    pub words: &'a [String],
    /// The number of the first wrong or missing word, from 0.
    pub place: usize,
    /// Whether one more word follows that is not UTF-8 text.
    pub is_cut: bool,
}

/// Whether the words ask for help in a way that is not a command: `-h`, `run -h` or `run --help`.
fn asks_for_help(words: &[String]) -> bool {
    match words {
        [word] => word.as_str() == "-h",
        [command, word] => {
            command.as_str() == "run" && (word.as_str() == "--help" || word.as_str() == "-h")
        }
        _ => false,
    }
}

/// What the word N of a run should have been.
fn rule_of_count(word: &str) -> &'static str {
    let bytes = word.as_bytes();
    match bytes {
        [b'-', b'-', ..] => "must be 0 to 1048576 in decimal, before all options",
        [b'+' | b'-', ..] => "must be 0 to 1048576 in decimal, without a sign",
        [b'0', b'0'..=b'9', ..] => "must be 0 to 1048576 in decimal, without a leading zero",
        _ => "must be 0 to 1048576 in decimal",
    }
}

/// Whether the words begin with this command.
fn begins_with(words: &[String], command: &str) -> bool {
    words.first().is_some_and(|word| word.as_str() == command)
}

/// Whether a guest should stand at this place.
fn wants_guest(words: &[String], place: usize) -> bool {
    place > 4
        && begins_with(words, "run")
        && words
            .get(place - 1)
            .is_some_and(|word| word.as_str() == "--guest")
}

/// Says what is wrong with a word that is there.
fn write_wrong<W: fmt::Write>(
    f: &mut fmt::Formatter<W>,
    words: &[String],
    place: usize,
    word: &str,
) -> fmt::Result {
    let name = Quoted { text: word };
    if place == 0 && (word == "--help" || word == "--version") {
        writeln!(f, "radix: {name} takes no further word")
    } else if place == 0 {
        writeln!(f, "radix: {name} is no command of this version")
    } else if place == 3 && begins_with(words, "run") {
        writeln!(f, "radix: N is {name}, and {}", rule_of_count(word))
    } else if wants_guest(words, place) {
        writeln!(
            f,
            "radix: the guest is {name}, and must be FILE@HEX: a name, '@', and an address of 1 to 16 hexadecimal digits"
        )
    } else {
        writeln!(f, "radix: unexpected {name}")
    }
}

/// Says what is missing from this place on.
fn missing(words: &[String], place: usize) -> &'static str {
    if begins_with(words, "asm") {
        return "radix: the source is missing\n";
    }
    if begins_with(words, "dis") {
        return "radix: the image is missing\n";
    }
    match place {
        0 => "radix: a command is missing\n",
        1 => "radix: the image, the schedule and N are missing\n",
        2 => "radix: the schedule and N are missing\n",
        3 => "radix: N is missing\n",
        _ => "radix: FILE@HEX is missing behind --guest\n",
    }
}

impl<'a> fmt::Display for WrongWord<'a> {
    fn fmt<W: fmt::Write>(&self, f: &mut fmt::Formatter<W>) -> fmt::Result {
        if !self.is_cut && asks_for_help(self.words) {
            return f.write_str(HELP);
        }
        match self.words.get(self.place) {
            Some(word) => write_wrong(f, self.words, self.place, word.as_str())?,
            None if self.is_cut => {
                writeln!(f, "radix: word {} is not UTF-8 text", self.place)?;
            }
            None => f.write_str(missing(self.words, self.place))?,
        }
        f.write_str(HINT)
    }
}
