//! Laws of lines. Each function does nothing: its contract is the law.

ghost use Rattle.asm_statements.specs.Laws.{TextsAreShort};

/// A text has no more bytes than its line.
pub fn a_text_is_no_longer_than_its_line()
    ensures { TextsAreShort }
{}
