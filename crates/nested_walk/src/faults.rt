//! Walks that are over with a fault.

ghost use Rattle.std.specs.Prelude.{◌≡◌, ◌+◌, ◌^◌, ◌≤◌};
ghost use Rattle.journal_core.specs.declared.walks.NestResult.TheVariants.{Fault};
ghost use Rattle.journal_core.specs.declared.walks.Stage.TheVariants.{Over};
ghost use Rattle.journal_core.specs.Faults.{process_fault, partition_fault, segment_fault};
ghost use Rattle.journal_core.specs.Walk.{table_bits};
ghost use Rattle.nested_walk.specs.Ranges.{IsInRange};

use journal_core::{Ask, Goal, NestResult, Stage};

/// Bit 46, where the address is one of a table's entry.
pub(crate) fn table_bits(goal: Goal) -> u64
    ensures value { result ≡ table_bits goal }
    ensures small { result ≤ 2 ^ 17 }
{
    match goal {
        Goal::ForEntry | Goal::ForTable(_) => 1 << (63 - 46),
        Goal::ForResult | Goal::ForGuest => 0,
    }
}

/// Over: the process's tables give no page.
pub(crate) fn process_fault(ask: &Ask, why: u64) -> Stage
    requires { why ≤ 2 ^ 30 + 2 ^ 17 }
    ensures stage { result ≡ Over (Fault (process_fault ask.now why)) }
    ensures range { IsInRange result }
{
    Stage::Over(NestResult::Fault(protect::process_fault(ask, why)))
}

/// Over: the partition's tables give no page for a guest real address.
pub(crate) fn partition_fault(ask: &Ask, why: u64, gra: u64) -> Stage
    requires { why ≤ 2 ^ 30 + 2 ^ 17 }
    ensures stage { result ≡ Over (Fault (partition_fault ask.now why gra)) }
    ensures range { IsInRange result }
{
    Stage::Over(NestResult::Fault(protect::partition_fault(ask, why, gra)))
}

/// Over: the address is in no segment.
pub(crate) fn segment_fault(ask: &Ask) -> Stage
    ensures stage { result ≡ Over (Fault (segment_fault ask.now)) }
    ensures range { IsInRange result }
{
    Stage::Over(NestResult::Fault(protect::segment_fault(ask)))
}
