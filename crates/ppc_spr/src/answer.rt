//! The answers to a thread that reads or writes a special purpose register.

use crate::spr::Spr;

/// The answer to a thread that reads or writes a special purpose register.
#[derive(Clone, Copy, Debug, PartialEq, Eq)]
pub enum Access {
    /// A program interrupt: problem state may not use a register of this number, whether there is one or not.
    Program,
    /// There is no register of this number, or it is not written.
    NotInProfile,
    /// A hypervisor emulation assistance interrupt: the register is the hypervisor's.
    Assist,
    /// This register is read or written.
    Allowed(Spr),
}
