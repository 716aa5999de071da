//! The console.

ghost use Rattle.std.specs.Prelude.{◌≡◌, ℕ, List};
ghost use Rattle.ppc_bus.specs.Devices.{Access};
ghost use Rattle.bench_devices.specs.Benches.{console_list, console_answers};

use journal_core::Signal;
use ppc_bus::Device;

/// A window of 8 bytes. A store at 0, of any size, shows the low 8 bits. Every load gives the number of bytes shown so far,
/// modulo 2^64.
#[derive(Drop)]
pub struct Console {
    count: u64,
}

impl Console {
    /// A console that has shown no byte.
    pub fn new() -> Console
        ensures list { ⟦<Console as Device>⟧.list result ≡ console_list 0 }
        ensures answers { (l : List ℕ) (access : Access) → ⟦<Console as Device>⟧.answers result l access ≡ console_answers l access }
        ensures window { ⟦<Console as Device>⟧.window_size result ≡ 8 }
    {
        Console { count: 0 }
    }
}

impl Device for Console {
    ghost list = { λ c. console_list c.count };

    ghost answers = { λ c. console_answers };

    ghost window_size = { λ c. 8 };

    fn window(&self) -> u32 {
        8
    }

    fn load(&mut self, _at: u32, _size: u8) -> u64 {
        self.count
    }

    fn store(&mut self, at: u32, _size: u8, value: u64) -> Signal {
        if at != 0 {
            return Signal::Quiet;
        }
        self.count = self.count.wrapping_add(1);
        Signal::Byte((value % 256) as u8)
    }
}
