//! The walk of a process's tree (Power ISA, Book III, 5.7).

ghost use Rattle.std.specs.Prelude.{◌≡◌, ◌^◌, ◌<◌};
ghost use Rattle.journal_core.specs.Rights.{first_denial};
ghost use Rattle.journal_core.specs.Walk.{at_table, at_result, process_granted, in_process, after_second, after_process_entry};
ghost use Rattle.part_walk.specs.Ranges.{IsTable, IsInRangeOfTree};
ghost use Rattle.nested_walk.specs.Ranges.{IsInRange};
ghost use Rattle.nested_walk.specs.Targets.{task_for};

use crate::faults::{process_fault, segment_fault};
use crate::inner::enter;
use crate::targets::Target;
use journal_core::{
    Denial, FaultKind, Goal, NestResult, Node, PartResult, PartStage, Rights, Scope, Stage,
};
use part_walk::{begin_tree, entry_address, real_address};
use protect::{denial_bits, kind_bits, permit};
use table_formats::{Pate, Prte};

/// An entry of a process's table is read next: it stands at a guest real address, and for partition 0 at a real one.
pub fn at_table(target: &Target, node: Node) -> Stage
    requires { IsTable node }
    ensures stage { result ≡ at_table (task_for target.now) node }
    ensures range { IsInRange result }
{
    let at = entry_address(target.address, node);
    if target.lpid == 0 {
        Stage::ProcessTable(node, at)
    } else {
        enter(target, Goal::ForTable(node), at)
    }
}

/// The process's page was found, and is permitted: it is a guest real address, and for partition 0 a real one.
pub fn at_result(target: &Target, gra: u64) -> Stage
    requires { gra < 2 ^ 57 }
    ensures stage { result ≡ at_result (task_for target.now) gra }
    ensures range { IsInRange result }
{
    if target.lpid == 0 {
        Stage::Over(NestResult::Page(gra))
    } else {
        enter(target, Goal::ForResult, gra)
    }
}

/// The process's page was found; its rights decide.
fn process_granted(target: &Target, gra: u64, denial: Option<Denial>) -> Stage
    requires { gra < 2 ^ 57 }
    ensures stage { result ≡ process_granted (task_for target.now) gra denial }
    ensures range { IsInRange result }
{
    match denial {
        None => at_result(target, gra),
        Some(denial) => process_fault(&target.ask, denial_bits(denial)),
    }
}

/// Where an ask's walk stands when the walk of its process's tree stands here.
#[tactic(auto, unfolding(journal_core::specs::Walk::in_process))]
pub fn in_process(target: &Target, stage: PartStage) -> Stage
    requires { IsInRangeOfTree stage }
    ensures stage { result ≡ in_process (task_for target.now) stage }
    ensures range { IsInRange result }
{
    match stage {
        PartStage::Entry(_) => unreachable!(),
        PartStage::Tree(node) => at_table(target, node),
        PartStage::Ended(
            PartResult::Leaf {
                page,
                bits,
                att,
                eaa,
                r,
                c,
            },
        ) => {
            let rights = Rights {
                scope: Scope::Process,
                eaa,
                att,
                r,
                c,
            };
            let denial = permit(&rights, &target.ask).err();
            process_granted(target, real_address(page, bits, target.address), denial)
        }
        PartStage::Ended(PartResult::Fault(kind)) => process_fault(&target.ask, kind_bits(kind)),
        PartStage::Ended(PartResult::Stop(name, value)) => {
            Stage::Over(NestResult::Stop(name, value))
        }
    }
}

/// After the second doubleword of the partition's entry, which has the place and the size of the process table (Power ISA, Book
/// III, 5.7): the process's entry stands at a guest real address, also for partition 0.
#[tactic(auto, unfolding(journal_core::specs::Walk::after_second))]
pub fn after_second(target: &Target, value: u64) -> Stage
    ensures stage { result ≡ after_second (task_for target.now) value }
    ensures range { IsInRange result }
{
    let (base, size) = Pate::process(value);
    let offset = 16 * u64::from(target.pid);
    if offset < (1 << (12 + size)) {
        enter(target, Goal::ForEntry, base + offset)
    } else {
        process_fault(&target.ask, kind_bits(FaultKind::Missing))
    }
}

/// After the process's entry: a tree of more than 52 bits is tested before the address is, which is in no segment beyond it.
#[tactic(auto, unfolding(journal_core::specs::Walk::after_process_entry))]
pub fn after_process_entry(target: &Target, value: u64) -> Stage
    ensures stage { result ≡ after_process_entry (task_for target.now) value }
    ensures range { IsInRange result }
{
    let root = Prte::root(value);
    if root.bits > 52 {
        return process_fault(&target.ask, kind_bits(FaultKind::Unsupported));
    }
    if target.address >= (1 << root.bits) {
        return segment_fault(&target.ask);
    }
    in_process(target, begin_tree(root))
}
