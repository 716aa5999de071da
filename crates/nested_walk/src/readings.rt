//! Which word the walk of an ask reads next, and the reading that it makes there.

ghost use Rattle.std.specs.Prelude.{◌≡◌};
ghost use Rattle.journal_core.specs.WalkPlaces.{row_of, row_at};
ghost use Rattle.walk_laws.specs.KeptBegins.{IsUnderWay};
ghost use Rattle.nested_walk.specs.Ranges.{IsInRange};
ghost use Rattle.nested_walk.specs.Targets.{task_for, nest_word};

use crate::targets::Target;
use journal_core::{PartStage, ReadRow, Role, Stage};
use part_walk::role_in_tree;
use table_formats::Prte;

/// The place of the word that is read next, or `None` where the walk is over.
pub fn next_word(stage: Stage) -> Option<u64>
    requires { IsInRange stage }
    ensures { result ≡ nest_word stage }
{
    match stage {
        Stage::SecondWord(at) => Some(at),
        Stage::PartEntry(_, gra, at) => part_walk::next_word(gra, PartStage::Entry(at)),
        Stage::PartTable(_, gra, node) => part_walk::next_word(gra, PartStage::Tree(node)),
        Stage::ProcessEntry(at) | Stage::ProcessTable(_, at) => Some(at),
        Stage::Over(_) => None,
    }
}

/// A reading of a target's own tables.
fn own_reading(
    target: &Target,
    role: Role,
    level: u8,
    left: u8,
    at: u64,
    moment: u32,
    value: u64,
) -> ReadRow
    ensures { result ≡ row_of role target.now.lpid target.now.pid target.now.address level left at value moment }
{
    ReadRow {
        role,
        lpid: target.lpid,
        pid: target.pid,
        sought: target.address,
        level,
        left,
        at,
        value,
        moment,
    }
}

/// The reading that is made where the walk stands.
pub fn reading(target: &Target, stage: Stage, moment: u32, value: u64) -> ReadRow
    requires range { IsInRange stage }
    requires under_way { IsUnderWay stage }
    ensures { result ≡ row_at (task_for target.now) moment stage value }
{
    match stage {
        Stage::SecondWord(at) => own_reading(target, Role::Pate, 0, 0, at, moment, value),
        Stage::PartEntry(_, gra, at) => {
            part_walk::reading(target.lpid, gra, PartStage::Entry(at), moment, value)
        }
        Stage::PartTable(_, gra, node) => {
            part_walk::reading(target.lpid, gra, PartStage::Tree(node), moment, value)
        }
        Stage::ProcessEntry(at) => {
            own_reading(
                target,
                Role::Prte,
                0,
                Prte::root(value).bits,
                at,
                moment,
                value,
            )
        }
        Stage::ProcessTable(node, at) => {
            let role = role_in_tree(value, Role::ProcessLeaf, Role::ProcessDir);
            own_reading(
                target,
                role,
                node.level,
                node.left - node.size,
                at,
                moment,
                value,
            )
        }
        Stage::Over(_) => unreachable!(),
    }
}
