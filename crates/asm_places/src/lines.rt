//! The lines of a source.

ghost use Rattle.std.specs.Prelude.{◌≡◌, ◌<◌, ◌≤◌, ◌+◌, ◌∷◌, length, take, drop};
ghost use Rattle.asm_places.specs.Lines.{lines_of};

/// How many bytes the first line has: those before the first newline, or all where there is none.
pub fn line_length(rest: &[u8]) -> usize
    requires some { 0 < length rest.now }
    ensures line { lines_of rest.now ≡ take result rest.now ∷ lines_of (drop (result + 1) rest.now) }
    ensures within { result ≤ length rest.now }
{
    for (i, byte) in rest.iter().enumerate() {
        if *byte == b'\n' {
            return i;
        }
    }
    rest.len()
}

/// What stands behind a line of so many bytes, and behind its newline where there is one.
pub fn behind_line(rest: &[u8], count: usize) -> &[u8]
    requires { count ≤ length rest.now }
    ensures { result.now ≡ drop (count + 1) rest.now }
{
    if count < rest.len() {
        &rest[count + 1..]
    } else {
        &[]
    }
}
