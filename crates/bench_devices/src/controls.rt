//! The control.

ghost use Rattle.std.specs.Prelude.{◌≡◌, ℕ, List, []};
ghost use Rattle.ppc_bus.specs.Devices.{Access};
ghost use Rattle.bench_devices.specs.Benches.{control_answers};

use journal_core::Signal;
use ppc_bus::Device;

/// A window of 16 bytes. A store at 0 stops the machine, and a store at 8 ejects the device of the slot that its low 8 bits
/// name. Every load gives 0.
#[derive(Drop)]
pub struct Control {}

impl Control {
    /// A control.
    pub fn new() -> Control
        ensures list { ⟦<Control as Device>⟧.list result ≡ [] }
        ensures answers { (l : List ℕ) (access : Access) → ⟦<Control as Device>⟧.answers result l access ≡ control_answers l access }
        ensures window { ⟦<Control as Device>⟧.window_size result ≡ 16 }
    {
        Control {}
    }
}

impl Device for Control {
    ghost list = { λ c. [] };

    ghost answers = { λ c. control_answers };

    ghost window_size = { λ c. 16 };

    fn window(&self) -> u32 {
        16
    }

    fn load(&mut self, _at: u32, _size: u8) -> u64 {
        0
    }

    fn store(&mut self, at: u32, _size: u8, value: u64) -> Signal {
        if at == 0 {
            return Signal::Stop;
        }
        if at == 8 {
            return Signal::Eject((value % 256) as u8);
        }
        Signal::Quiet
    }
}
