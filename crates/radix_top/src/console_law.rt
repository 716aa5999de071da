//! What a console shows in a run. The function does nothing: its contract is the law.

ghost use Rattle.radix_top.specs.Showing.{ConsolesShowStores};

/// The line of a slot with a console shows exactly the low bytes of the stores at its offset 0, in the order of the run.
#[tactic(auto, using(crate::proofs::ConsoleLemmas::consoles_show_stores))]
pub fn consoles_show_their_stores()
    ensures { ConsolesShowStores }
{}
