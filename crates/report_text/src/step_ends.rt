//! How the line of a step tells its end.

ghost use Rattle.std.specs.Prelude.{◌≡◌};
ghost use Rattle.report_text.specs.StepText.{line_end};

use interrupts::offset;
use journal_core::{StepEnd, StopName};

/// How a step ended, as far as its line tells.
#[derive(Clone, Copy, Debug, PartialEq, Eq)]
pub enum LineEnd {
    /// The instruction was executed.
    Ran,
    /// An interrupt was taken, whose handler begins at this address.
    Took(u64),
    /// The machine stopped, for this reason and with this value.
    Stop(StopName, u64),
}

/// How the line of a step tells that it ended so.
pub fn line_end(end: StepEnd) -> LineEnd
    ensures { result ≡ line_end end }
{
    match end {
        StepEnd::Ran => LineEnd::Ran,
        StepEnd::Took(cause) => LineEnd::Took(offset(&cause)),
        StepEnd::Stopped(name, value) => LineEnd::Stop(name, value),
    }
}
