//! How many rows the steps of a lawful journal have, and what the interrupts of walks leave.

ghost use Rattle.step_laws.specs.Rows.{StepsAddFew, ShortRunsHaveRoom};
ghost use Rattle.step_laws.specs.Status.{WalksSetStatusBits, AReturnAfterAWalkRestoresTheState};

use thread_regs::Thread;

/// A step that keeps the rule has at most 108 read rows, 105 fill rows, 16 write rows, 64 done rows and one device row.
pub fn a_step_adds_few_rows()
    ensures { StepsAddFew }
{}

/// A lawful journal that is made for at most 2,496 steps has room for each of them.
pub fn short_runs_have_room()
    ensures { ShortRunsHaveRoom }
{}

/// The bits that an interrupt of a walk sets in SRR1 or HSRR1 are among 33 to 36 and 42 to 47.
pub fn walks_set_status_bits()
    ensures { WalksSetStatusBits }
{}

/// A return directly after an interrupt of a walk, by `rfid` from SRR1 or by `hrfid` from HSRR1, gives back the machine state in
/// which it came.
pub fn a_return_after_a_walk_restores_the_state(thread: Thread)
    ensures { AReturnAfterAWalkRestoresTheState thread }
{}
