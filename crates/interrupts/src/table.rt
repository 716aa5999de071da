//! The table of interrupts (Power ISA, Book III, chapter 6).

ghost use Rattle.std.specs.Prelude.{◌≡◌};
ghost use Rattle.interrupts.specs.Table as table;

use journal_core::Cause;
use ppc_spr::Hyper;

/// A pair of registers in which an interrupt saves an address and the machine state.
#[derive(Clone, Copy, Debug, PartialEq, Eq)]
pub enum SavedIn {
    /// The save and restore registers.
    Srr,
    /// The hypervisor save and restore registers.
    Hsrr,
}

/// A row of the table of interrupts.
#[derive(Clone, Copy, Debug, PartialEq, Eq)]
pub struct Interrupt {
    /// The address at which the thread goes on.
    pub offset: u64,
    /// Where the address and the machine state are saved.
    pub saved_in: SavedIn,
    /// The bits that are set in the saved machine state.
    pub bits: u64,
    /// What hypervisor state and the recoverable bit become.
    pub hyper: Hyper,
}

/// A row with no bits that are set.
fn plain(offset: u64, saved_in: SavedIn, hyper: Hyper) -> Interrupt
    ensures { result ≡ table.row offset saved_in 0 hyper }
{
    Interrupt {
        offset,
        saved_in,
        bits: 0,
        hyper,
    }
}

/// A row with bits that are set.
fn with_bits(offset: u64, saved_in: SavedIn, bits: u64, hyper: Hyper) -> Interrupt
    ensures { result ≡ table.row offset saved_in bits hyper }
{
    Interrupt {
        offset,
        saved_in,
        bits,
        hyper,
    }
}

/// What a system call of this level does to hypervisor state.
fn called(lev: u8) -> Hyper
    ensures { result ≡ table.called lev }
{
    if lev == 1 { Hyper::Raise } else { Hyper::Keep }
}

/// The row of a cause (Power ISA, Book III, 6.5).
#[tactic(auto, unfolding(crate::specs::Table::interrupt_of))]
pub fn interrupt_of(cause: &Cause) -> Interrupt
    ensures { result ≡ table.interrupt_of cause.now }
{
    match *cause {
        Cause::DataStorage { dar, dsisr } => plain(0x300, SavedIn::Srr, Hyper::Keep),
        Cause::DataSegment { dar } => plain(0x380, SavedIn::Srr, Hyper::Keep),
        Cause::InstStorage { bits } => with_bits(0x400, SavedIn::Srr, bits, Hyper::Keep),
        Cause::InstSegment => plain(0x480, SavedIn::Srr, Hyper::Keep),
        Cause::Alignment { dar } => plain(0x600, SavedIn::Srr, Hyper::Keep),
        Cause::Program { bits } => with_bits(0x700, SavedIn::Srr, bits, Hyper::Keep),
        Cause::Decrementer => plain(0x900, SavedIn::Srr, Hyper::Keep),
        Cause::HypDecrementer => plain(0x980, SavedIn::Hsrr, Hyper::RaiseKeepRi),
        Cause::SystemCall { lev } => plain(0xc00, SavedIn::Srr, called(lev)),
        Cause::HypDataStorage { hdar, hdsisr, asdr } => {
            plain(0xe00, SavedIn::Hsrr, Hyper::RaiseKeepRi)
        }
        Cause::HypInstStorage { bits, asdr } => {
            with_bits(0xe20, SavedIn::Hsrr, bits, Hyper::RaiseKeepRi)
        }
        Cause::HypAssist { heir } => plain(0xe40, SavedIn::Hsrr, Hyper::RaiseKeepRi),
        Cause::HypDoorbell => plain(0xe80, SavedIn::Hsrr, Hyper::RaiseKeepRi),
    }
}

/// The address at which a thread that takes this cause goes on.
pub fn offset(cause: &Cause) -> u64
    ensures { result ≡ table.offset_of cause.now }
{
    interrupt_of(cause).offset
}
