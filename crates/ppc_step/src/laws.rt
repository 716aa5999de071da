//! Laws of steps.

ghost use Rattle.ppc_step.specs.Chosen.{StepsAreConfined};
ghost use Rattle.ppc_step.specs.Soundness as soundness;
ghost use Rattle.ppc_step.specs.Truth.{LawfulReadingsAreTrue};

/// A reset state of one to four threads is sound.
pub fn a_reset_state_is_sound()
    ensures { soundness.ResetIsSound }
{}

/// The state after a step that keeps the rule is sound, where the one before it is: MSR, LPCR, AMR and IAMR stay in their
/// profiles, LPIDR and PIDR in their widths, each next address stays a multiple of 4, and all threads have one time base.
pub fn a_step_keeps_states_sound()
    ensures { soundness.StepsStaySound }
{}

/// Each state of a lawful run from a sound state is sound.
pub fn a_run_keeps_states_sound()
    ensures { soundness.RunsStaySound }
{}

/// Of all registers a step changes those of its own thread and the clocks alone.
pub fn a_step_keeps_other_threads()
    ensures { soundness.StepsKeepOtherThreads }
{}

/// What a guest's accesses reach in a step that keeps the rule is given by its partition's tree: each byte lies in a page of a
/// leaf among the readings that the step's use names, which permits the access, and each entry of a process's tables that was
/// read lies in such a page too (Power ISA, Book III, nested radix tree translation).
pub fn a_steps_accesses_are_confined()
    ensures { StepsAreConfined }
{}

/// In a lawful journal each reading is true: its word stood so at its moment. So a step over a lawful journal may rely on the readings
/// of all steps before it.
pub fn the_readings_of_a_lawful_run_are_true()
    ensures { LawfulReadingsAreTrue }
{}
