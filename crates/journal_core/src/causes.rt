//! Causes of interrupts.

/// Why an interrupt is taken, with what it leaves in registers (Power ISA, Book III, chapter 6).
#[derive(Clone, Copy, Debug, PartialEq, Eq)]
pub enum Cause {
    /// A data access that the process's tables do not permit.
    DataStorage {
        /// The address.
        dar: u64,
        /// Why.
        dsisr: u32,
    },
    /// A data access in no segment.
    DataSegment {
        /// The address.
        dar: u64,
    },
    /// A fetch that the process's tables do not permit.
    InstStorage {
        /// Why, as bits of SRR1.
        bits: u64,
    },
    /// A fetch in no segment.
    InstSegment,
    /// An access whose address its size does not divide.
    Alignment {
        /// The address.
        dar: u64,
    },
    /// A privileged instruction, or a trap.
    Program {
        /// Which, as bits of SRR1.
        bits: u64,
    },
    /// The decrementer is negative.
    Decrementer,
    /// The hypervisor decrementer is negative.
    HypDecrementer,
    /// A system call.
    SystemCall {
        /// The level: 1 calls the hypervisor.
        lev: u8,
    },
    /// A data access that the partition's tables do not permit.
    HypDataStorage {
        /// The address.
        hdar: u64,
        /// Why.
        hdsisr: u32,
        /// The guest real address.
        asdr: u64,
    },
    /// A fetch that the partition's tables do not permit.
    HypInstStorage {
        /// Why, as bits of HSRR1.
        bits: u64,
        /// The guest real address.
        asdr: u64,
    },
    /// An instruction that the hypervisor is to emulate.
    HypAssist {
        /// Its word.
        heir: u32,
    },
    /// A message to the hypervisor.
    HypDoorbell,
}
