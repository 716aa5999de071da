//! Schedules as text.

ghost use Rattle.sched_text.specs.Reading.{Gives};

use crate::fault::SchedFault;
use crate::item::Item;
use crate::schedule::Schedule;
use std::alloc::Global;

/// The only schedule that is read so far: one thread, whose turn it always is.
const ONE_THREAD: &[u8] = b"threads 1\n0\nrepeat\n";

/// The schedule of a file's bytes. So far these have to be `threads 1`, `0` and `repeat`, a line each.
pub fn read_schedule(alloc: Global, bytes: &[u8]) -> Result<Schedule, SchedFault>
    ensures { Gives bytes.now result }
{
    if bytes != ONE_THREAD {
        return Err(SchedFault::Place(0));
    }
    let mut items = Vec::new(alloc);
    items.push(Item {
        thread: 0,
        count: 1,
    })?;
    Ok(Schedule::new(alloc, 1, items, true)?)
}
