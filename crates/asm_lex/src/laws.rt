//! Laws of tokens. Each function does nothing: its contract is the law.

ghost use Rattle.asm_lex.specs.Laws.{TokensByLines};

/// The tokens of a text are those of its lines one after another, each with its newline, or the first fault of the first
/// line that has one. So a text may be read line by line.
pub fn tokens_are_those_of_the_lines()
    ensures { TokensByLines }
{}
