//! The special purpose registers of one hardware thread.

ghost use Rattle.std.specs.Prelude.{◌≡◌};
ghost use Rattle.thread_regs.specs.Specials as specials;

use crate::registers::Thread;
use ppc_bits::low_word;
use ppc_ops::Xer;
use ppc_spr::Spr;

impl Thread {
    /// The value of a special purpose register, with zeros above its width (Power ISA, Book III, 4.4.4).
    #[tactic(auto, unfolding(crate::specs::Specials::spr))]
    pub fn spr(&self, spr: Spr) -> u64
        ensures { result ≡ specials.spr self.now spr }
    {
        match spr {
            Spr::Xer => self.xer.register(),
            Spr::Lr => self.lr,
            Spr::Ctr => self.ctr,
            Spr::Dsisr => u64::from(self.dsisr),
            Spr::Dar => self.dar,
            Spr::Dec => u64::from(self.dec),
            Spr::Srr0 => self.srr0,
            Spr::Srr1 => self.srr1,
            Spr::Amr => self.amr,
            Spr::Pidr => u64::from(self.pidr),
            Spr::Iamr => self.iamr,
            Spr::UserSprg3 => self.sprg3,
            Spr::Tb => self.tb,
            Spr::Sprg0 => self.sprg0,
            Spr::Sprg1 => self.sprg1,
            Spr::Sprg2 => self.sprg2,
            Spr::Sprg3 => self.sprg3,
            Spr::Pvr => self.pvr,
            Spr::Hsprg0 => self.hsprg0,
            Spr::Hsprg1 => self.hsprg1,
            Spr::Hdsisr => u64::from(self.hdsisr),
            Spr::Hdar => self.hdar,
            Spr::Hdec => u64::from(self.hdec),
            Spr::Hsrr0 => self.hsrr0,
            Spr::Hsrr1 => self.hsrr1,
            Spr::Lpcr => self.lpcr,
            Spr::Lpidr => u64::from(self.lpidr),
            Spr::Heir => u64::from(self.heir),
            Spr::Ptcr => self.ptcr,
            Spr::Tar => self.tar,
            Spr::Asdr => self.asdr,
            Spr::Pir => self.pir,
        }
    }

    /// Sets a special purpose register, which keeps the low bits of the value that it has places for; the exception
    /// register keeps its five bits.
    #[tactic(auto, unfolding(crate::specs::Specials::with_spr))]
    pub fn set_spr(&mut self, spr: Spr, value: u64)
        ensures { self.new ≡ specials.with_spr self.old spr value }
    {
        match spr {
            Spr::Xer => self.xer = Xer::of(value),
            Spr::Lr => self.lr = value,
            Spr::Ctr => self.ctr = value,
            Spr::Dsisr => self.dsisr = low_word(value),
            Spr::Dar => self.dar = value,
            Spr::Dec => self.dec = low_word(value),
            Spr::Srr0 => self.srr0 = value,
            Spr::Srr1 => self.srr1 = value,
            Spr::Amr => self.amr = value,
            Spr::Pidr => self.pidr = (value % (1 << 20)) as u32,
            Spr::Iamr => self.iamr = value,
            Spr::UserSprg3 => self.sprg3 = value,
            Spr::Tb => self.tb = value,
            Spr::Sprg0 => self.sprg0 = value,
            Spr::Sprg1 => self.sprg1 = value,
            Spr::Sprg2 => self.sprg2 = value,
            Spr::Sprg3 => self.sprg3 = value,
            Spr::Pvr => self.pvr = value,
            Spr::Hsprg0 => self.hsprg0 = value,
            Spr::Hsprg1 => self.hsprg1 = value,
            Spr::Hdsisr => self.hdsisr = low_word(value),
            Spr::Hdar => self.hdar = value,
            Spr::Hdec => self.hdec = low_word(value),
            Spr::Hsrr0 => self.hsrr0 = value,
            Spr::Hsrr1 => self.hsrr1 = value,
            Spr::Lpcr => self.lpcr = value,
            Spr::Lpidr => self.lpidr = (value % (1 << 12)) as u16,
            Spr::Heir => self.heir = low_word(value),
            Spr::Ptcr => self.ptcr = value,
            Spr::Tar => self.tar = value,
            Spr::Asdr => self.asdr = value,
            Spr::Pir => self.pir = value,
        }
    }
}
