//! Partition's walks inside the walk of an ask (Power ISA, Book III, 5.7).

ghost use Rattle.std.specs.Prelude.{◌≡◌, ◌^◌, ◌<◌, MatchResult, Option};
ghost use Rattle.journal_core.specs.Rights.{first_denial};
ghost use Rattle.journal_core.specs.Walk.{access_for, arrived, granted, inside, enter};
ghost use Rattle.part_walk.specs.Ranges.{IsInRange as IsPartInRange};
ghost use Rattle.nested_walk.specs.Ranges.{IsGoal, IsInRange};
ghost use Rattle.nested_walk.specs.Targets.{task_for};

use crate::faults::{partition_fault, table_bits};
use crate::targets::Target;
use journal_core::{Ask, Denial, Goal, NestResult, PartResult, PartStage, Rights, Scope, Stage};
use part_walk::{begin, real_address};
use protect::{denial_bits, for_table, kind_bits, permit};

/// The first right that refuses the access for a goal: a table's entry is loaded, and a result is used as the ask says.
fn denial_for(ask: &Ask, goal: Goal, rights: &Rights) -> Option<Denial>
    ensures { result ≡ first_denial ask.now rights.now (access_for ask.now goal) }
{
    match goal {
        Goal::ForEntry | Goal::ForTable(_) => permit(rights, &for_table(ask)).err(),
        Goal::ForResult | Goal::ForGuest => permit(rights, ask).err(),
    }
}

/// The partition's page was found, and is permitted.
fn arrived(goal: Goal, at: u64) -> Stage
    requires goal { IsGoal goal }
    requires small { at < 2 ^ 57 }
    ensures stage { result ≡ arrived goal at }
    ensures range { IsInRange result }
{
    match goal {
        Goal::ForEntry => Stage::ProcessEntry(at),
        Goal::ForTable(node) => Stage::ProcessTable(node, at),
        Goal::ForResult | Goal::ForGuest => Stage::Over(NestResult::Page(at)),
    }
}

/// The partition's page was found; its rights decide.
fn granted(ask: &Ask, goal: Goal, gra: u64, at: u64, denial: Option<Denial>) -> Stage
    requires goal { IsGoal goal }
    requires small { at < 2 ^ 57 }
    ensures stage { result ≡ granted ask.now goal gra at denial }
    ensures range { IsInRange result }
{
    match denial {
        None => arrived(goal, at),
        Some(denial) => partition_fault(ask, denial_bits(denial) + table_bits(goal), gra),
    }
}

/// The partition's page was found, with these rights.
fn found(ask: &Ask, goal: Goal, gra: u64, at: u64, rights: &Rights) -> Stage
    requires goal { IsGoal goal }
    requires small { at < 2 ^ 57 }
    ensures stage { result ≡ granted ask.now goal gra at (first_denial ask.now rights.now (access_for ask.now goal)) }
    ensures range { IsInRange result }
{
    granted(ask, goal, gra, at, denial_for(ask, goal, rights))
}

/// Where an ask's walk stands when a walk of the partition's tree, for a goal, stands here: where this one is over, its rights
/// decide, and the ask's walk goes on or ends.
#[tactic(auto, unfolding(journal_core::specs::Walk::inside))]
pub fn inside(target: &Target, goal: Goal, gra: u64, stage: PartStage) -> Stage
    requires goal { IsGoal goal }
    requires range { IsPartInRange stage }
    ensures stage { result ≡ inside (task_for target.now) goal gra stage }
    ensures range { IsInRange result }
{
    match stage {
        PartStage::Entry(at) => Stage::PartEntry(goal, gra, at),
        PartStage::Tree(node) => Stage::PartTable(goal, gra, node),
        PartStage::Ended(
            PartResult::Leaf {
                page,
                bits,
                att,
                eaa,
                r,
                c,
            },
        ) => {
            let rights = Rights {
                scope: Scope::Partition,
                eaa,
                att,
                r,
                c,
            };
            let at = real_address(page, bits, gra);
            found(&target.ask, goal, gra, at, &rights)
        }
        PartStage::Ended(PartResult::Fault(kind)) => {
            partition_fault(&target.ask, kind_bits(kind) + table_bits(goal), gra)
        }
        PartStage::Ended(PartResult::Stop(name, value)) => {
            Stage::Over(NestResult::Stop(name, value))
        }
    }
}

/// The walk of the partition's tree begins, for a goal.
pub fn enter(target: &Target, goal: Goal, gra: u64) -> Stage
    requires { IsGoal goal }
    ensures stage { result ≡ enter (task_for target.now) goal gra }
    ensures range { IsInRange result }
{
    inside(target, goal, gra, begin(target.ask.ptcr, target.lpid))
}
