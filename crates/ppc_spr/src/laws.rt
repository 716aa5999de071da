//! Laws of the definitions: what the rules for the machine state register keep.

ghost use Rattle.std.specs.Prelude.{◌≡◌, true, false, ◌||◌};
ghost use Rattle.ppc_spr.specs.Laws.{GainsNoHypervisor, ConfinesProblem, IsProfiled};
ghost use Rattle.ppc_spr.specs.Msrs as msrs;
ghost use Rattle.ppc_spr.specs.Profile.{is_in_profile};

use crate::msr::{Hyper, Msr};

/// A guest stays a guest: neither a move to the machine state register nor `rfid` enters hypervisor state.
pub fn guests_stay_guests(msr: Msr, value: u64, l: bool)
    ensures mtmsrd { GainsNoHypervisor msr (msrs.after_mtmsrd msr value l) }
    ensures mtmsr { GainsNoHypervisor msr (msrs.after_mtmsr msr value l) }
    ensures rfid { GainsNoHypervisor msr (msrs.after_rfid msr value) }
{}

/// Problem state that is entered is interrupted and relocated: it has EE, IR and DR.
pub fn problem_state_is_confined(msr: Msr, value: u64)
    ensures mtmsrd { ConfinesProblem (msrs.after_mtmsrd msr value false) }
    ensures mtmsr { ConfinesProblem (msrs.after_mtmsr msr value false) }
    ensures rfid { ConfinesProblem (msrs.after_rfid msr value) }
    ensures hrfid { ConfinesProblem (msrs.after_hrfid msr value) }
{}

/// What an instruction leaves is in the profile, or refused.
pub fn new_values_are_in_the_profile(msr: Msr, value: u64, l: bool)
    ensures mtmsrd { IsProfiled (msrs.after_mtmsrd msr value l) }
    ensures mtmsr { IsProfiled (msrs.after_mtmsr msr value l) }
    ensures rfid { IsProfiled (msrs.after_rfid msr value) }
    ensures hrfid { IsProfiled (msrs.after_hrfid msr value) }
{}

/// An interrupt keeps the profile, is in privileged state with relocation off, and enters hypervisor state where it
/// says so alone.
pub fn interrupts_keep_the_profile(msr: Msr, hyper: Hyper)
    ensures profile { is_in_profile msr.0 ≡ true → is_in_profile (msrs.after_interrupt msr hyper).0 ≡ true }
    ensures privileged { msrs.pr (msrs.after_interrupt msr hyper) ≡ false }
    ensures fetches { msrs.ir (msrs.after_interrupt msr hyper) ≡ false }
    ensures data { msrs.dr (msrs.after_interrupt msr hyper) ≡ false }
    ensures raised { msrs.hv (msrs.after_interrupt msr hyper) ≡ (msrs.raises hyper || msrs.hv msr) }
{}
