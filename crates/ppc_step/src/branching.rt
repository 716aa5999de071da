//! The execution of branches and traps.

ghost use Rattle.std.specs.Prelude.{◌≡◌};
ghost use Rattle.ppc_ops.specs.Forms.{IsForm};
ghost use Rattle.branch_unit.specs.Branch.{IsBranch};
ghost use Rattle.branch_unit.specs.Trap.{IsTrap, trap_of};
ghost use Rattle.form_outcomes.specs.Outcomes.{ComesTo, Goes};
ghost use Rattle.ppc_step.specs.Branching.{branch_effect};
ghost use Rattle.ppc_step.specs.Effects.{trapped};

use branch_unit::{branch, trap};
use journal_core::StepEnd;
use ppc_ops::Insn;
use thread_regs::Thread;

/// Executes a branch.
pub fn execute_branch(thread: &mut Thread, insn: &Insn) -> StepEnd
    requires form { IsForm insn.now }
    requires branch { IsBranch insn.now }
    ensures { ComesTo (Goes (branch_effect insn.now thread.old)) thread.old thread.new result }
{
    let out = branch(
        insn, thread.nia, thread.cr, thread.lr, thread.ctr, thread.tar,
    );
    thread.nia = out.next;
    thread.lr = out.lr;
    thread.ctr = out.ctr;
    StepEnd::Ran
}

/// Takes a trap of two values, where its condition holds, or goes on.
pub fn execute_trap(thread: &mut Thread, insn: &Insn, a: u64, b: u64) -> StepEnd
    requires form { IsForm insn.now }
    requires trap { IsTrap insn.now }
    ensures { ComesTo (trapped (trap_of insn.now a b) thread.old) thread.old thread.new result }
{
    if trap(insn, a, b) {
        StepEnd::Took(form_outcomes::trap())
    } else {
        thread.advance();
        StepEnd::Ran
    }
}
