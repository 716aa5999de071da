//! Laws of registers.

ghost use Rattle.thread_regs.specs.Laws.{ASetRegisterIsReadBack};

/// A register that was set has what it keeps of the value, and every other one what it had. The two numbers of the
/// software-use register 3 are one register.
pub fn a_set_register_is_read_back()
    ensures { ASetRegisterIsReadBack }
{}
