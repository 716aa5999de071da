//! A list of lines that are made one at a time.

ghost use Rattle.std.specs.Prelude.{◌≡◌, ◌<◌, Some, List, ℕ, length, slice_get};
ghost use Rattle.outer_io.specs.Outside.{Puts};
ghost use Rattle.line_text.specs.Text.{text_of};

use crate::Line;
use outer_io::{Sink, SinkFault};

/// A list of lines that are made one at a time.
pub trait Lines {
    /// The lines, each with what ends it.
    ghost lines: { Self → List (List ℕ) };

    /// How many lines there are.
    fn count(&self) -> u32
        ensures { result ≡ length (lines self.now) };

    /// Makes `line` the line `k`, which is below the count, whatever it was.
    fn line(&self, k: u32, line: &mut Line)
        requires { k < length (lines self.now) }
        ensures { slice_get (lines self.now) k ≡ Some line.new };
}

/// Puts the lines one after another, each as one piece. Stops at the first fault of the sink.
pub fn print_lines<L: Lines, K: Sink>(lines: &L, out: &mut K) -> Result<(), SinkFault>
    ensures { Puts (K.told out.old) (K.told out.new) (K.faults out.old) (K.faults out.new) result (text_of (L.lines lines.now)) }
{
    let mut line = Line::new();
    for k in 0..lines.count() {
        lines.line(k, &mut line);
        out.put(line.as_slice())?;
    }
    Ok(())
}
