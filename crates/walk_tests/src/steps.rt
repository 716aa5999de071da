//! The journal beside the walks.

ghost use Rattle.std.specs.Prelude.{◌≡◌, length, IfOk};
ghost use Rattle.journal_core.specs.Translating.{IsQuiet};

use journal_core::{Journal, StepEnd, StepRow, StopName, Use};
use std::alloc::{AllocError, Global};

/// A step that stopped.
const STEP: StepRow = StepRow {
    thread: 0,
    cia: 0,
    word: None,
    end: StepEnd::Stopped(StopName::HashedPartition, 0),
    uses: [Use::Unused; 3],
};

/// A journal with three step rows, so that the moment of a walk is 3.
pub fn journal_of_three_steps(alloc: Global) -> Result<Journal, AllocError>
    ensures moment { IfOk result (λ journal. length journal.rows.steps ≡ 3) }
    ensures quiet { IfOk result (λ journal. IsQuiet journal.rows) }
{
    let mut journal = Journal::open(alloc, 3)?;
    journal.push_step(STEP);
    journal.push_step(STEP);
    journal.push_step(STEP);
    Ok(journal)
}
