//! The last step of a run, and what its stop means.

use journal_core::{RowKind, StopName};
use radix_top::Bench;
use std::fmt;

/// The last step of a run.
#[derive(Clone, Copy, Debug, PartialEq, Eq)]
pub struct LastStep {
    /// Its number, from 0.
    pub number: u32,
    /// The address of the instruction.
    pub cia: u64,
    /// The instruction's word, where it was fetched.
    pub word: Option<u32>,
}

/// The last step of the machine in the bench, if there is one.
pub fn last_step(bench: &Bench) -> Option<LastStep> {
    let Some(machine) = &bench.machine else {
        return None;
    };
    let journal = machine.journal();
    let number = journal.counts().steps.checked_sub(1)?;
    let row = journal.step(number)?;
    Some(LastStep {
        number,
        cia: row.cia,
        word: row.word,
    })
}

impl fmt::Display for LastStep {
    fn fmt<W: fmt::Write>(&self, f: &mut fmt::Formatter<W>) -> fmt::Result {
        write!(f, "step {}, at address {:x}", self.number, self.cia)?;
        match self.word {
            Some(word) => write!(f, ", word {word:08x}"),
            None => Ok(()),
        }
    }
}

/// What a stop means.
#[derive(Clone, Copy, Drop)]
pub struct Stop {
    /// Its name.
    pub name: StopName,
    /// Its value.
    pub value: u64,
}

impl fmt::Display for Stop {
    fn fmt<W: fmt::Write>(&self, f: &mut fmt::Formatter<W>) -> fmt::Result {
        let value = self.value;
        match self.name {
            StopName::NoStorage => write!(
                f,
                "NoStorage, there is no RAM at real address {value:x}"
            ),
            StopName::Unsupported => f.write_str(
                "Unsupported, this machine has no such instruction",
            ),
            StopName::InvalidForm => {
                f.write_str("InvalidForm, the operands make an invalid form of the instruction")
            }
            StopName::DeviceAccess => write!(
                f,
                "DeviceAccess, the device at real address {value:x} takes no such access"
            ),
            StopName::ProfileBits => write!(
                f,
                "ProfileBits, a register cannot hold {value:x} in this machine"
            ),
            StopName::UnknownSpr => write!(
                f,
                "UnknownSpr, special purpose register {value} is not there, or not in this direction"
            ),
            StopName::BadInvalidation => {
                f.write_str("BadInvalidation, this machine has no invalidation with such operands")
            }
            StopName::HashedPartition => {
                write!(
                    f,
                    "HashedPartition, partition {value} has hashed page tables"
                )
            }
            StopName::GuestZero => f.write_str("GuestZero, a guest has partition number 0"),
            StopName::DeviceStop => write!(
                f,
                "DeviceStop, the device in slot {value} asked for it"
            ),
        }
    }
}

/// What the rows of a list of the journal are.
pub fn rows_of(kind: RowKind) -> &'static str {
    match kind {
        RowKind::Reads => "reads",
        RowKind::Fills => "fills",
        RowKind::Writes => "writes",
        RowKind::Dones => "dones",
        RowKind::Devices => "devices",
        RowKind::Steps => "steps",
    }
}
