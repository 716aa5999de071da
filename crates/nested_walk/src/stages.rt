//! Where the walk of an ask stands, step by step.

ghost use Rattle.std.specs.Prelude.{◌≡◌};
ghost use Rattle.journal_core.specs.Walk.{next, process_start, start_at};
ghost use Rattle.nested_walk.specs.Ranges.{IsInRange, IsTranslatedPlace};
ghost use Rattle.nested_walk.specs.Targets.{task_for};

use crate::faults::{partition_fault, segment_fault};
use crate::inner::{enter, inside};
use crate::processes::{after_process_entry, after_second, in_process};
use crate::targets::Target;
use journal_core::{FaultKind, Goal, PartStage, Place, Stage};
use part_walk::{after, after_tree, partition_entry};
use protect::kind_bits;

/// Where a walk stands after a value.
pub fn next(target: &Target, stage: Stage, value: u64) -> Stage
    requires { IsInRange stage }
    ensures stage { result ≡ next (task_for target.now) stage value }
    ensures range { IsInRange result }
{
    match stage {
        Stage::SecondWord(_) => after_second(target, value),
        Stage::PartEntry(goal, gra, at) => {
            let part = after(target.lpid, gra, PartStage::Entry(at), value);
            inside(target, goal, gra, part)
        }
        Stage::PartTable(goal, gra, node) => {
            let part = after(target.lpid, gra, PartStage::Tree(node), value);
            inside(target, goal, gra, part)
        }
        Stage::ProcessEntry(_) => after_process_entry(target, value),
        Stage::ProcessTable(node, _) => {
            in_process(target, after_tree(node.left - node.size, node.level, value))
        }
        Stage::Over(out) => Stage::Over(out),
    }
}

/// Where the walk of a process's address begins: at the second doubleword of the partition's entry, if there is one (Power ISA,
/// Book III, 5.7).
#[tactic(auto, unfolding(journal_core::specs::Walk::process_start))]
fn process_start(target: &Target) -> Stage
    ensures stage { result ≡ process_start (task_for target.now) }
    ensures range { IsInRange result }
{
    match partition_entry(target.ask.ptcr, target.lpid) {
        Some(at) => Stage::SecondWord(at + 8),
        None => partition_fault(&target.ask, kind_bits(FaultKind::Missing), 0),
    }
}

/// Where the walk of an ask at a place begins whose addresses are translated.
pub fn start(target: &Target, place: Place) -> Stage
    requires { IsTranslatedPlace place }
    ensures stage { result ≡ start_at (task_for target.now) place }
    ensures range { IsInRange result }
{
    match place {
        Place::Real(_) => unreachable!(),
        Place::GuestReal(_, address) => enter(target, Goal::ForGuest, address),
        Place::Space(..) => process_start(target),
        Place::Segment => segment_fault(&target.ask),
    }
}
