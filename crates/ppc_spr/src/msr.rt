//! The machine state register: what each instruction that writes it, and an interrupt, leave (Power ISA, Book III, 3.2.1).

ghost use Rattle.std.specs.Prelude.{◌≡◌, if◌then◌else◌};
ghost use Rattle.ppc_bits.specs.Bits.{bit, word_of, is_set};
ghost use Rattle.ppc_bits.specs.MachineStateBits as at;
ghost use Rattle.ppc_spr.specs.Msrs as msrs;
ghost use Rattle.ppc_spr.specs.Joining.{joined_bit};
ghost use Rattle.ppc_spr.specs.Profile as profile;

/// The machine state register (Power ISA, Book III, 3.2.1). Bit 0 is the highest.
#[derive(Clone, Copy, Debug, Default, PartialEq, Eq)]
pub struct Msr(pub u64);

/// A value of the machine state register that this machine cannot have: it is 64-bit and little-endian, and has no other
/// bits than those that are named.
#[derive(Clone, Copy, Debug, PartialEq, Eq)]
pub struct ProfileBits(pub u64);

/// What an interrupt does to hypervisor state and to the recoverable bit RI.
#[derive(Clone, Copy, Debug, PartialEq, Eq)]
pub enum Hyper {
    /// HV is kept, and RI becomes 0.
    Keep,
    /// HV becomes 1, and RI 0.
    Raise,
    /// HV becomes 1, and RI is kept.
    RaiseKeepRi,
    /// HV and RI are kept.
    KeepRi,
}

/// 64-bit mode.
const SF: u64 = 1 << 63;
/// Hypervisor state.
const HV: u64 = 1 << 60;
/// External interrupts are enabled.
const EE: u64 = 1 << 15;
/// Problem state.
const PR: u64 = 1 << 14;
/// Machine checks are enabled.
const ME: u64 = 1 << 12;
/// Instructions are fetched with relocation.
const IR: u64 = 1 << 5;
/// Data are accessed with relocation.
const DR: u64 = 1 << 4;
/// An interrupt can be recovered from.
const RI: u64 = 1 << 1;
/// Little-endian storage.
const LE: u64 = 1;

/// Bits 0:31.
const HIGH: u64 = 0xffff_ffff_0000_0000;
/// Bits 33:36 and 42:47, in which a saved register has no bits of the machine state.
const NOT_SAVED: u64 = 0x783f_0000;
/// All bits but those that may be 0 and 1.
const FIXED: u64 = !(HV | EE | PR | ME | IR | DR | RI);

/// The value, where it is in the profile.
fn profiled(value: u64) -> Result<Msr, ProfileBits>
    ensures { result ≡ profile.profiled value }
{
    if value & FIXED == SF | LE {
        Ok(Msr(value))
    } else {
        Err(ProfileBits(value))
    }
}

/// EE, IR and DR where the value has PR, else none.
fn forced(new: u64) -> u64
    ensures { result ≡ (if is_set 64 new at.pr then 0x8030 else 0) }
{
    if Msr(new).is_problem() {
        EE | IR | DR
    } else {
        0
    }
}

/// The bits of `old` where `kept` has ones, and elsewhere those of `new`. EE, IR and DR become 1 where `new` has PR.
fn put(old: u64, kept: u64, new: u64) -> u64
    ensures { result ≡ word_of 64 (λ i. joined_bit kept (bit 64 old) (bit 64 new) i) }
{
    (old & kept) | (new & !kept) | forced(new)
}

impl Msr {
    /// HV: the thread is in hypervisor state, if not in problem state.
    pub fn is_hypervisor(self) -> bool
        ensures { result ≡ msrs.hv self }
    {
        self.0 & HV != 0
    }

    /// PR: the thread is in problem state.
    pub fn is_problem(self) -> bool
        ensures { result ≡ msrs.pr self }
    {
        self.0 & PR != 0
    }

    /// EE: external interrupts and the decrementer's are enabled.
    pub fn enables_external(self) -> bool
        ensures { result ≡ msrs.ee self }
    {
        self.0 & EE != 0
    }

    /// IR: instructions are fetched with relocation.
    pub fn relocates_fetches(self) -> bool
        ensures { result ≡ msrs.ir self }
    {
        self.0 & IR != 0
    }

    /// DR: data are accessed with relocation.
    pub fn relocates_data(self) -> bool
        ensures { result ≡ msrs.dr self }
    {
        self.0 & DR != 0
    }

    /// EE and RI of `rs`, all else as it was.
    fn enabled(self, rs: u64) -> Result<Msr, ProfileBits>
        ensures { result ≡ msrs.after_enabling self rs }
    {
        profiled((rs & (EE | RI)) | (self.0 & !(EE | RI)))
    }

    /// The value after `mtmsrd` with RS and L (Power ISA, Book III, Move To/From System Register).
    #[tactic(auto, unfolding(crate::specs::Msrs::after_mtmsrd))]
    pub fn after_mtmsrd(self, rs: u64, l: bool) -> Result<Msr, ProfileBits>
        ensures { result ≡ msrs.after_mtmsrd self rs l }
    {
        if l {
            self.enabled(rs)
        } else {
            profiled(put(self.0, HV | ME | LE, rs))
        }
    }

    /// The value after `mtmsr` with RS and L (Power ISA, Book III, Move To/From System Register).
    #[tactic(auto, unfolding(crate::specs::Msrs::after_mtmsr))]
    pub fn after_mtmsr(self, rs: u64, l: bool) -> Result<Msr, ProfileBits>
        ensures { result ≡ msrs.after_mtmsr self rs l }
    {
        if l {
            self.enabled(rs)
        } else {
            profiled(put(self.0, HIGH | HV | ME | LE, rs))
        }
    }

    /// The bits that `rfid` keeps.
    fn kept_by_rfid(self) -> u64
        ensures { result ≡ (if msrs.hv self then 0 else 0x1000_0000_0000_1000) }
    {
        if self.is_hypervisor() { 0 } else { HV | ME }
    }

    /// The value after `rfid` with SRR1 (Power ISA, Book III, System Linkage).
    pub fn after_rfid(self, srr1: u64) -> Result<Msr, ProfileBits>
        ensures { result ≡ msrs.after_rfid self srr1 }
    {
        profiled(put(self.0, self.kept_by_rfid(), srr1 & !NOT_SAVED))
    }

    /// The value after `hrfid` with HSRR1 (Power ISA, Book III, System Linkage).
    pub fn after_hrfid(self, hsrr1: u64) -> Result<Msr, ProfileBits>
        ensures { result ≡ msrs.after_hrfid self hsrr1 }
    {
        profiled(put(self.0, 0, hsrr1 & !NOT_SAVED))
    }

    /// The value after an interrupt (Power ISA, Book III, chapter 6).
    pub fn after_interrupt(self, hyper: Hyper) -> Msr
        ensures { result ≡ msrs.after_interrupt self hyper }
    {
        Msr((self.0 & !hyper.cleared()) | hyper.raised())
    }
}

impl Hyper {
    /// The bits that the interrupt sets to 0.
    fn cleared(self) -> u64
        ensures { result ≡ (if msrs.keeps_ri self then 0xc030 else 0xc032) }
    {
        match self {
            Hyper::Keep | Hyper::Raise => EE | PR | IR | DR | RI,
            Hyper::RaiseKeepRi | Hyper::KeepRi => EE | PR | IR | DR,
        }
    }

    /// The bits that the interrupt sets to 1.
    fn raised(self) -> u64
        ensures { result ≡ (if msrs.raises self then 0x1000_0000_0000_0000 else 0) }
    {
        match self {
            Hyper::Raise | Hyper::RaiseKeepRi => HV,
            Hyper::Keep | Hyper::KeepRi => 0,
        }
    }
}
