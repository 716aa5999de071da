//! The tape.

ghost use Rattle.std.specs.Prelude.{◌≡◌, ℕ, List, drop};
ghost use Rattle.ppc_bus.specs.Devices.{Access};
ghost use Rattle.bench_devices.specs.Benches.{first_or, tape_answers};

use journal_core::Signal;
use ppc_bus::Device;

/// A window of 16 bytes. A load at 0 takes the next byte and gives it, or gives 256 where none is left; a load at 8 gives
/// how many are left, and other loads give 0. Stores do nothing.
#[derive(Drop)]
pub struct Tape {
    bytes: Vec<u8>,
    taken: usize,
}

impl Tape {
    /// A tape with these bytes.
    pub fn new(bytes: Vec<u8>) -> Tape
        ensures list { ⟦<Tape as Device>⟧.list result ≡ bytes.items }
        ensures answers { (l : List ℕ) (access : Access) → ⟦<Tape as Device>⟧.answers result l access ≡ tape_answers l access }
        ensures window { ⟦<Tape as Device>⟧.window_size result ≡ 16 }
    {
        Tape { bytes, taken: 0 }
    }

    /// The next byte, which is then taken, or 256 where none is left.
    fn next(&mut self) -> u64
        ensures value { result ≡ first_or 256 (drop self.old.taken self.old.bytes.items) }
        ensures rest { drop self.new.taken self.new.bytes.items ≡ drop 1 (drop self.old.taken self.old.bytes.items) }
    {
        match self.bytes.as_slice().get(self.taken) {
            Some(byte) => {
                let byte = *byte;
                self.taken += 1;
                u64::from(byte)
            }
            None => 256,
        }
    }
}

impl Device for Tape {
    ghost list = { λ t. drop t.taken t.bytes.items };

    ghost answers = { λ t. tape_answers };

    ghost window_size = { λ t. 16 };

    fn window(&self) -> u32 {
        16
    }

    fn load(&mut self, at: u32, _size: u8) -> u64 {
        if at == 0 {
            return self.next();
        }
        if at == 8 {
            return self.bytes.len().saturating_sub(self.taken) as u64;
        }
        0
    }

    fn store(&mut self, _at: u32, _size: u8, _value: u64) -> Signal {
        Signal::Quiet
    }
}
