//! What is asked of a translation, and what refuses it.

use crate::causes::Cause;
use crate::rows::{StopName, Use};

/// What an access does.
#[derive(Clone, Copy, Debug, PartialEq, Eq)]
pub enum AccessKind {
    /// An instruction is fetched.
    Fetch,
    /// Data are loaded.
    Load,
    /// Data are stored.
    Store,
}

/// An address that is to be translated, for which access, and the registers of the thread that decide.
#[derive(Clone, Copy, Debug, PartialEq, Eq)]
pub struct Ask {
    /// The effective address.
    pub ea: u64,
    /// The access.
    pub access: AccessKind,
    /// The machine state register.
    pub msr: u64,
    /// The logical partition identification register.
    pub lpid: u16,
    /// The process identification register.
    pub pid: u32,
    /// The partition table control register.
    pub ptcr: u64,
    /// The authority mask register.
    pub amr: u64,
    /// The instruction authority mask register.
    pub iamr: u64,
}

/// Where an ask points.
#[derive(Clone, Copy, Debug, PartialEq, Eq)]
pub enum Place {
    /// At this real address.
    Real(u64),
    /// At this guest real address of a partition.
    GuestReal(u16, u64),
    /// At this address of a process of a partition.
    Space(u16, u32, u64),
    /// In no segment.
    Segment,
}

/// Whose tables a leaf stands in.
#[derive(Clone, Copy, Debug, PartialEq, Eq)]
pub enum Scope {
    /// A process's.
    Process,
    /// A partition's.
    Partition,
}

/// The rights of a leaf.
#[derive(Clone, Copy, Debug, PartialEq, Eq)]
pub struct Rights {
    /// Whose tables the leaf stands in.
    pub scope: Scope,
    /// The encoded access authority, of four bits.
    pub eaa: u8,
    /// The attributes, of two bits.
    pub att: u8,
    /// Whether the page is marked as referenced.
    pub r: bool,
    /// Whether the page is marked as changed.
    pub c: bool,
}

/// Why rights do not permit an access.
#[derive(Clone, Copy, Debug, PartialEq, Eq)]
pub enum Denial {
    /// The page is privileged.
    Privilege,
    /// It may not be read.
    Read,
    /// It may not be written.
    Write,
    /// It may not be executed.
    Execute,
    /// It is guarded, and not fetched from.
    Guarded,
    /// It is not marked as referenced.
    Referenced,
    /// It is not marked as changed.
    Changed,
}

/// The answer of a translation.
#[derive(Clone, Copy, Debug, PartialEq, Eq)]
pub enum Found {
    /// This real address, with what answered.
    Real(u64, Use),
    /// This interrupt, with what answered.
    Fault(Cause, Use),
    /// The machine stops.
    Stop(StopName, u64),
}
