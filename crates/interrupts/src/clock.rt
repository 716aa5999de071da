//! The clock.

ghost use Rattle.std.specs.Prelude.{◌≡◌};
ghost use Rattle.interrupts.specs.Clock.{ticked, all_ticked};

use thread_regs::{Thread, Threads};

/// Lets one thread's clock tick.
fn tick_one(thread: &mut Thread)
    ensures { thread.new ≡ ticked thread.old }
{
    thread.tb = thread.tb.wrapping_add(1);
    thread.dec = thread.dec.wrapping_sub(1);
    thread.hdec = thread.hdec.wrapping_sub(1);
}

/// Lets every thread's clock tick: the time base rises by 1 and both decrementers fall by 1 (Power ISA, Book III, 7.2, 7.4,
/// 7.5).
pub fn tick(threads: &mut Threads)
    ensures { threads.new ≡ all_ticked threads.old }
{
    for number in 0..threads.count() {
        tick_one(threads.get_mut(number));
    }
}
