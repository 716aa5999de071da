//! Special purpose registers: their numbers, widths and who may use them (Power ISA, Book III, Move To/From System Register).

ghost use Rattle.std.specs.Prelude.{◌≡◌, Some};
ghost use Rattle.ppc_spr.specs.Sprs as sprs;

/// A special purpose register that this machine has.
#[derive(Clone, Copy, Debug, PartialEq, Eq)]
pub enum Spr {
    /// The fixed-point exception register.
    Xer,
    /// The link register.
    Lr,
    /// The count register.
    Ctr,
    /// The data storage interrupt status register.
    Dsisr,
    /// The data address register.
    Dar,
    /// The decrementer.
    Dec,
    /// The save and restore register 0.
    Srr0,
    /// The save and restore register 1.
    Srr1,
    /// The authority mask register.
    Amr,
    /// The process identification register.
    Pidr,
    /// The instruction authority mask register.
    Iamr,
    /// The number by which problem state reads the software-use register 3.
    UserSprg3,
    /// The time base.
    Tb,
    /// The software-use register 0.
    Sprg0,
    /// The software-use register 1.
    Sprg1,
    /// The software-use register 2.
    Sprg2,
    /// The software-use register 3.
    Sprg3,
    /// The processor version register.
    Pvr,
    /// The hypervisor software-use register 0.
    Hsprg0,
    /// The hypervisor software-use register 1.
    Hsprg1,
    /// The hypervisor data storage interrupt status register.
    Hdsisr,
    /// The hypervisor data address register.
    Hdar,
    /// The hypervisor decrementer.
    Hdec,
    /// The hypervisor save and restore register 0.
    Hsrr0,
    /// The hypervisor save and restore register 1.
    Hsrr1,
    /// The logical partitioning control register.
    Lpcr,
    /// The logical partition identification register.
    Lpidr,
    /// The hypervisor emulation instruction register.
    Heir,
    /// The partition table control register.
    Ptcr,
    /// The target address register.
    Tar,
    /// The access segment descriptor register.
    Asdr,
    /// The processor identification register.
    Pir,
}

/// The number of a register in the instructions that move it.
#[tactic(auto, unfolding(crate::specs::Sprs::spr_of, crate::specs::Sprs::row_of))]
pub fn number(spr: Spr) -> u16
    ensures number { result ≡ sprs.number_of spr }
    ensures alone { sprs.spr_of result ≡ Some spr }
{
    match spr {
        Spr::Xer => 1,
        Spr::Lr => 8,
        Spr::Ctr => 9,
        Spr::Dsisr => 18,
        Spr::Dar => 19,
        Spr::Dec => 22,
        Spr::Srr0 => 26,
        Spr::Srr1 => 27,
        Spr::Amr => 29,
        Spr::Pidr => 48,
        Spr::Iamr => 61,
        Spr::UserSprg3 => 259,
        Spr::Tb => 268,
        Spr::Sprg0 => 272,
        Spr::Sprg1 => 273,
        Spr::Sprg2 => 274,
        Spr::Sprg3 => 275,
        Spr::Pvr => 287,
        Spr::Hsprg0 => 304,
        Spr::Hsprg1 => 305,
        Spr::Hdsisr => 306,
        Spr::Hdar => 307,
        Spr::Hdec => 310,
        Spr::Hsrr0 => 314,
        Spr::Hsrr1 => 315,
        Spr::Lpcr => 318,
        Spr::Lpidr => 319,
        Spr::Heir => 339,
        Spr::Ptcr => 464,
        Spr::Tar => 815,
        Spr::Asdr => 816,
        Spr::Pir => 1023,
    }
}

/// The register of a number, if there is one.
#[tactic(auto, unfolding(crate::specs::Sprs::spr_of, crate::specs::Sprs::row_of))]
pub fn spr_of(n: u16) -> Option<Spr>
    ensures { result ≡ sprs.spr_of n }
{
    match n {
        1 => Some(Spr::Xer),
        8 => Some(Spr::Lr),
        9 => Some(Spr::Ctr),
        18 => Some(Spr::Dsisr),
        19 => Some(Spr::Dar),
        22 => Some(Spr::Dec),
        26 => Some(Spr::Srr0),
        27 => Some(Spr::Srr1),
        29 => Some(Spr::Amr),
        48 => Some(Spr::Pidr),
        61 => Some(Spr::Iamr),
        259 => Some(Spr::UserSprg3),
        268 => Some(Spr::Tb),
        272 => Some(Spr::Sprg0),
        273 => Some(Spr::Sprg1),
        274 => Some(Spr::Sprg2),
        275 => Some(Spr::Sprg3),
        287 => Some(Spr::Pvr),
        304 => Some(Spr::Hsprg0),
        305 => Some(Spr::Hsprg1),
        306 => Some(Spr::Hdsisr),
        307 => Some(Spr::Hdar),
        310 => Some(Spr::Hdec),
        314 => Some(Spr::Hsrr0),
        315 => Some(Spr::Hsrr1),
        318 => Some(Spr::Lpcr),
        319 => Some(Spr::Lpidr),
        339 => Some(Spr::Heir),
        464 => Some(Spr::Ptcr),
        815 => Some(Spr::Tar),
        816 => Some(Spr::Asdr),
        1023 => Some(Spr::Pir),
        _ => None,
    }
}

/// How many bits the register has.
#[tactic(auto, unfolding(crate::specs::Sprs::row_of))]
pub fn width(spr: Spr) -> u8
    ensures { result ≡ sprs.width_of spr }
{
    match spr {
        Spr::Lpidr => 12,
        Spr::Pidr => 20,
        Spr::Dsisr | Spr::Dec | Spr::Hdsisr | Spr::Hdec | Spr::Heir => 32,
        Spr::Xer | Spr::Lr | Spr::Ctr | Spr::Tar => 64,
        Spr::Dar | Spr::Hdar | Spr::Asdr | Spr::Amr | Spr::Iamr => 64,
        Spr::Srr0 | Spr::Srr1 | Spr::Hsrr0 | Spr::Hsrr1 => 64,
        Spr::Sprg0 | Spr::Sprg1 | Spr::Sprg2 | Spr::Sprg3 | Spr::UserSprg3 => 64,
        Spr::Hsprg0 | Spr::Hsprg1 | Spr::Lpcr | Spr::Ptcr => 64,
        Spr::Tb | Spr::Pvr | Spr::Pir => 64,
    }
}

/// Whether the register is the hypervisor's.
#[tactic(auto, unfolding(crate::specs::Sprs::row_of))]
pub fn is_hypervisor(spr: Spr) -> bool
    ensures { result ≡ sprs.is_hypervisor spr }
{
    match spr {
        Spr::Hsprg0 | Spr::Hsprg1 | Spr::Hdsisr | Spr::Hdar | Spr::Hdec => true,
        Spr::Hsrr0 | Spr::Hsrr1 | Spr::Lpcr | Spr::Lpidr | Spr::Heir | Spr::Ptcr => true,
        Spr::Asdr => true,
        Spr::Xer | Spr::Lr | Spr::Ctr | Spr::Tar | Spr::Dsisr | Spr::Dar | Spr::Dec => false,
        Spr::Srr0 | Spr::Srr1 | Spr::Amr | Spr::Iamr | Spr::Pidr | Spr::Tb => false,
        Spr::Sprg0 | Spr::Sprg1 | Spr::Sprg2 | Spr::Sprg3 | Spr::UserSprg3 => false,
        Spr::Pvr | Spr::Pir => false,
    }
}

/// Whether no instruction writes the register by this number.
#[tactic(auto, unfolding(crate::specs::Sprs::row_of))]
pub fn is_read_only(spr: Spr) -> bool
    ensures { result ≡ sprs.is_read_only spr }
{
    matches!(spr, Spr::UserSprg3 | Spr::Tb | Spr::Pvr | Spr::Pir)
}
