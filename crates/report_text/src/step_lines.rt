//! The lines of step rows.

ghost use Rattle.std.specs.Prelude.{◌≡◌, ◌+◌, ◌≤◌, ◌++◌, [], ◌∷◌, length, codes, map};
ghost use Rattle.std.specs.Fmt.{decimal};
ghost use Rattle.line_text.specs.Text.{hex};
ghost use Rattle.report_text.specs.Words.{with_words};
ghost use Rattle.report_text.specs.StepText.{end_name, end_words, word_text, use_text, step_line, step_lines};

use crate::head::stop_name;
use crate::step_ends::{LineEnd, line_end};
use crate::words::{push_decimal, push_hex, push_word};
use journal_core::{Journal, StepRow, Use};
use line_text::{Line, Lines};

/// The name of an end.
fn end_name(end: LineEnd) -> &'static [u8]
    ensures name { result.now ≡ end_name end }
    ensures most { length result.now ≤ 4 }
{
    match end {
        LineEnd::Ran => b"ran",
        LineEnd::Took(_) => b"took",
        LineEnd::Stop(_, _) => b"stop",
    }
}

/// Adds the word of an instruction, where it was fetched.
fn push_instruction(line: &mut Line, word: Option<u32>)
    requires { length line.old + 9 ≤ 512 }
    ensures text { line.new ≡ line.old ++ codes " " ++ word_text word }
    ensures len { length line.new ≤ length line.old + 9 }
{
    match word {
        None => push_word(line, b"-"),
        Some(word) => push_hex(line, 8, u64::from(word)),
    }
}

/// Adds what more an end tells.
fn push_end(line: &mut Line, end: LineEnd)
    requires { length line.old + 33 ≤ 512 }
    ensures text { line.new ≡ with_words line.old (end_words end) }
    ensures len { length line.new ≤ length line.old + 33 }
{
    match end {
        LineEnd::Ran => {}
        LineEnd::Took(offset) => push_hex(line, 3, offset),
        LineEnd::Stop(name, value) => {
            push_word(line, stop_name(name));
            push_hex(line, 16, value);
        }
    }
}

/// Adds a letter, the number of a fill and its real address, behind a space.
fn push_fill(line: &mut Line, letter: u8, fill: u32, at: u64)
    requires { length line.old + 39 ≤ 512 }
    ensures text { line.new ≡ line.old ++ codes " " ++ (letter ∷ [] ++ decimal fill ++ codes ":" ++ hex 16 at) }
    ensures len { length line.new ≤ length line.old + 39 }
{
    line.push(b' ');
    line.push(letter);
    line.push_number(u64::from(fill));
    line.push(b':');
    line.push_hex(16, at);
}

/// Adds what answered an ask.
fn push_use(line: &mut Line, used: Use)
    requires { length line.old + 43 ≤ 512 }
    ensures text { line.new ≡ line.old ++ codes " " ++ use_text used }
    ensures len { length line.new ≤ length line.old + 43 }
{
    match used {
        Use::Unused => push_word(line, b"-"),
        Use::Real(at) => {
            line.push_bytes(b" R");
            line.push_hex(16, at);
        }
        Use::Hit(fill, at) => push_fill(line, b'H', fill, at),
        Use::Walked(fill, at) => push_fill(line, b'W', fill, at),
        Use::Faulted(first, count) => {
            line.push_bytes(b" F");
            line.push_number(u64::from(first));
            line.push(b'+');
            line.push_number(u64::from(count));
        }
    }
}

/// Adds what answered the asks of a step.
fn push_uses(line: &mut Line, uses: &[Use; 3])
    requires { length line.old + 129 ≤ 512 }
    ensures text { line.new ≡ with_words line.old (map use_text uses.now) }
    ensures len { length line.new ≤ length line.old + 129 }
{
    for used in uses {
        push_use(line, *used);
    }
}

/// Makes a line that of a step row with its number.
fn fill_step_line(line: &mut Line, number: u32, row: &StepRow)
    ensures { line.new ≡ step_line number row.now }
{
    let end = line_end(row.end);
    line.clear();
    line.push(b's');
    push_decimal(line, u64::from(number));
    push_decimal(line, u64::from(row.thread));
    push_word(line, end_name(end));
    push_hex(line, 16, row.cia);
    push_instruction(line, row.word);
    push_end(line, end);
    push_uses(line, &row.uses);
    line.push(b'\n');
}

/// The lines of the step rows of a journal.
#[derive(Drop)]
pub(crate) struct StepLines<'a> {
    /// The journal.
    pub(crate) journal: &'a Journal,
}

impl Lines for StepLines<'_> {
    ghost lines = { λ l. step_lines l.journal.now.rows.steps };

    fn count(&self) -> u32 {
        self.journal.counts().steps
    }

    fn line(&self, k: u32, line: &mut Line) {
        if let Some(row) = self.journal.step(k) {
            fill_step_line(line, k, row);
        }
    }
}
