//! The registers of one hardware thread.

ghost use Rattle.std.specs.Prelude.{◌≡◌, ◌<◌};
ghost use Rattle.thread_regs.specs.Registers.{reset, gpr, with_gpr, with_cr, with_msr, with_nia, advanced};

use ppc_bits::{aligned, next_address};
use ppc_ops::Xer;
use ppc_spr::Msr;

/// The registers of one hardware thread (Power ISA, Book I chapters 2 and 3, Book III chapters 2 to 7).
///
/// A register that is narrower than 64 bits stands in its low bits.
#[derive(Clone, Copy, Debug, Default)]
pub struct Thread {
    /// The general purpose registers 0 to 31.
    pub gpr: [u64; 32],
    /// The condition register.
    pub cr: u32,
    /// The fixed-point exception register.
    pub xer: Xer,
    /// The link register.
    pub lr: u64,
    /// The count register.
    pub ctr: u64,
    /// The target address register.
    pub tar: u64,
    /// The machine state register.
    pub msr: Msr,
    /// The address of the next instruction.
    pub nia: u64,
    /// The time base.
    pub tb: u64,
    /// The decrementer.
    pub dec: u32,
    /// The hypervisor decrementer.
    pub hdec: u32,
    /// The save and restore register 0.
    pub srr0: u64,
    /// The save and restore register 1.
    pub srr1: u64,
    /// The hypervisor save and restore register 0.
    pub hsrr0: u64,
    /// The hypervisor save and restore register 1.
    pub hsrr1: u64,
    /// The data address register.
    pub dar: u64,
    /// The data storage interrupt status register.
    pub dsisr: u32,
    /// The hypervisor data address register.
    pub hdar: u64,
    /// The hypervisor data storage interrupt status register.
    pub hdsisr: u32,
    /// The access segment descriptor register.
    pub asdr: u64,
    /// The hypervisor emulation instruction register.
    pub heir: u32,
    /// The software-use register 0.
    pub sprg0: u64,
    /// The software-use register 1.
    pub sprg1: u64,
    /// The software-use register 2.
    pub sprg2: u64,
    /// The software-use register 3, which has two numbers.
    pub sprg3: u64,
    /// The hypervisor software-use register 0.
    pub hsprg0: u64,
    /// The hypervisor software-use register 1.
    pub hsprg1: u64,
    /// The logical partition identification register, of 12 bits.
    pub lpidr: u16,
    /// The process identification register, of 20 bits.
    pub pidr: u32,
    /// The logical partitioning control register.
    pub lpcr: u64,
    /// The partition table control register.
    pub ptcr: u64,
    /// The authority mask register.
    pub amr: u64,
    /// The instruction authority mask register.
    pub iamr: u64,
    /// The processor version register.
    pub pvr: u64,
    /// The processor identification register.
    pub pir: u64,
}

impl Thread {
    /// The reset state of the thread with this number, which begins at this address: 64-bit
    /// little-endian hypervisor state with relocation off. The next address has its two lowest bits
    /// cleared, as instructions lie at multiples of 4.
    #[tactic(auto, unfolding(crate::specs::Registers::reset))]
    pub fn reset(number: u8, entry: u64) -> Thread
        ensures { result ≡ reset number entry }
    {
        let mut gpr = [0; 32];
        gpr[3] = number as u64;
        gpr[12] = entry;
        Thread {
            gpr,
            cr: 0,
            xer: Xer {
                so: false,
                ov: false,
                ca: false,
                ov32: false,
                ca32: false,
            },
            lr: 0,
            ctr: 0,
            tar: 0,
            msr: Msr(0x9000_0000_0000_1001),
            nia: aligned(entry),
            tb: 0,
            dec: 0,
            hdec: 0,
            srr0: 0,
            srr1: 0,
            hsrr0: 0,
            hsrr1: 0,
            dar: 0,
            dsisr: 0,
            hdar: 0,
            hdsisr: 0,
            asdr: 0,
            heir: 0,
            sprg0: 0,
            sprg1: 0,
            sprg2: 0,
            sprg3: 0,
            hsprg0: 0,
            hsprg1: 0,
            lpidr: 0,
            pidr: 0,
            lpcr: 0x0250_0000,
            ptcr: 0,
            amr: 0,
            iamr: 0,
            pvr: 0x004e_0000,
            pir: number as u64,
        }
    }

    /// General purpose register `n`, which is below 32.
    pub fn gpr(&self, n: u8) -> u64
        requires { n < 32 }
        ensures { result ≡ gpr self.now n }
    {
        self.gpr[n as usize]
    }

    /// Sets general purpose register `n`, which is below 32.
    pub fn set_gpr(&mut self, n: u8, value: u64)
        requires { n < 32 }
        ensures { self.new ≡ with_gpr self.old n value }
    {
        self.gpr[n as usize] = value;
    }

    /// The condition register.
    pub fn cr(&self) -> u32
        ensures { result ≡ self.now.cr }
    {
        self.cr
    }

    /// Sets the condition register.
    pub fn set_cr(&mut self, value: u32)
        ensures { self.new ≡ with_cr self.old value }
    {
        self.cr = value;
    }

    /// The machine state register.
    pub fn msr(&self) -> Msr
        ensures { result ≡ self.now.msr }
    {
        self.msr
    }

    /// Sets the machine state register.
    pub fn set_msr(&mut self, value: Msr)
        ensures { self.new ≡ with_msr self.old value }
    {
        self.msr = value;
    }

    /// The address of the next instruction.
    pub fn nia(&self) -> u64
        ensures { result ≡ self.now.nia }
    {
        self.nia
    }

    /// Sets the address of the next instruction.
    pub fn set_nia(&mut self, value: u64)
        ensures { self.new ≡ with_nia self.old value }
    {
        self.nia = value;
    }

    /// Goes on to the next instruction.
    pub fn advance(&mut self)
        ensures { self.new ≡ advanced self.old }
    {
        self.nia = next_address(self.nia);
    }
}
