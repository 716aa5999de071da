//! The first right that refuses an access (Power ISA, Book III, 5.7).

ghost use Rattle.std.specs.Prelude.{◌≡◌, MatchResult, Some, None};
ghost use Rattle.journal_core.specs.Rights.{first_denial};
ghost use Rattle.journal_core.specs.declared.asks.AccessKind.TheVariants.{Load};
ghost use Rattle.journal_core.specs.declared.asks.Rights.{Rights};
ghost use Rattle.protect.specs.Tables.{table_ask};

use journal_core::{AccessKind, Ask, Denial, Rights, Scope};
use ppc_bits::{field, is_set};

/// Whether a leaf's rights permit what is asked, or which is the first that refuses it. The order of the tests is this
/// machine's own: `Privilege` in the process scope alone, then `Read`, `Write` or `Execute`, then `Guarded`, `Referenced` and
/// `Changed`.
#[tactic(auto, unfolding(journal_core::specs::Rights::first_denial))]
pub fn permit(rights: &Rights, ask: &Ask) -> Result<(), Denial>
    ensures { let denial = first_denial ask.now rights.now ask.now.access in
        MatchResult result (λ _. denial ≡ None) (λ d. denial ≡ Some d) }
{
    let eaa = u64::from(rights.eaa);
    if rights.scope == Scope::Process && is_set(ask.msr, 64, 49) && is_set(eaa, 64, 60) {
        return Err(Denial::Privilege);
    }
    match ask.access {
        AccessKind::Load if field(eaa, 64, 61, 62) == 0 => return Err(Denial::Read),
        AccessKind::Store if !is_set(eaa, 64, 62) => return Err(Denial::Write),
        AccessKind::Fetch if !is_set(eaa, 64, 63) => return Err(Denial::Execute),
        AccessKind::Fetch if rights.att == 2 => return Err(Denial::Guarded),
        _ => {}
    }
    if !rights.r {
        return Err(Denial::Referenced);
    }
    if ask.access == AccessKind::Store && !rights.c {
        return Err(Denial::Changed);
    }
    Ok(())
}

/// The ask with which an entry of a table is read for an ask: a load. Its rights are those of the ask for a load.
#[tactic(auto, unfolding(journal_core::specs::Rights::first_denial))]
pub fn for_table(ask: &Ask) -> Ask
    ensures value { result ≡ table_ask ask.now }
    ensures rights { (x : Rights) → first_denial result x result.access ≡ first_denial ask.now x Load }
{
    Ask {
        access: AccessKind::Load,
        ..*ask
    }
}
