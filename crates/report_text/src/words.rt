//! The words of a line.

ghost use Rattle.std.specs.Prelude.{◌≡◌, ◌+◌, ◌≤◌, ◌<◌, ◌^◌, ◌++◌, length, codes};
ghost use Rattle.std.specs.Fmt.{decimal};
ghost use Rattle.line_text.specs.Text.{hex};

use line_text::Line;

/// Adds a word behind a space.
pub(crate) fn push_word(line: &mut Line, word: &[u8])
    requires { length line.old + length word.now + 1 ≤ 512 }
    ensures text { line.new ≡ line.old ++ codes " " ++ word.now }
    ensures len { length line.new ≡ length line.old + length word.now + 1 }
{
    line.push(b' ');
    line.push_bytes(word);
}

/// Adds a number in decimal behind a space.
pub(crate) fn push_decimal(line: &mut Line, value: u64)
    requires { length line.old + 21 ≤ 512 }
    ensures text { line.new ≡ line.old ++ codes " " ++ decimal value }
    ensures len { length line.new ≤ length line.old + 21 }
{
    line.push(b' ');
    line.push_number(value);
}

/// Adds a number that has at most ten digits in decimal behind a space.
pub(crate) fn push_short(line: &mut Line, value: u32)
    requires { length line.old + 21 ≤ 512 }
    ensures text { line.new ≡ line.old ++ codes " " ++ decimal value }
    ensures len { length line.new ≤ length line.old + 11 }
{
    push_decimal(line, u64::from(value));
}

/// Adds a number that has at most three digits in decimal behind a space.
pub(crate) fn push_byte(line: &mut Line, value: u8)
    requires { length line.old + 21 ≤ 512 }
    ensures text { line.new ≡ line.old ++ codes " " ++ decimal value }
    ensures len { length line.new ≤ length line.old + 4 }
{
    push_decimal(line, u64::from(value));
}

/// Adds the lowest `width` digits of a number in base 16 behind a space.
pub(crate) fn push_hex(line: &mut Line, width: u8, value: u64)
    requires { length line.old + width + 1 ≤ 512 }
    ensures text { line.new ≡ line.old ++ codes " " ++ hex width value }
    ensures len { length line.new ≡ length line.old + width + 1 }
{
    line.push(b' ');
    line.push_low_hex(width, value);
}
