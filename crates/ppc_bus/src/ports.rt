//! What a step asks of its devices.

ghost use Rattle.std.specs.Prelude.{◌≡◌, ℕ, ◌<◌, ◌*◌, ◌^◌, List, Option, Some, IfOk, OnErr};
ghost use Rattle.journal_core.specs.declared.rows.DeviceRow.{DeviceRow};
ghost use Rattle.ppc_bus.specs.Windows.{Window, windows_of};
ghost use Rattle.ppc_bus.specs.Holding.{window_at, is_access};
ghost use Rattle.ppc_bus.specs.Faults.{fault_of, fault_in};
ghost use Rattle.ppc_bus.specs.Devices.{load_row, store_row};
ghost use Rattle.ppc_bus.specs.Slots.{emptied};
ghost use Rattle.ppc_bus.specs.Answers.{DeviceAnswers};
ghost use Rattle.ppc_bus.specs.Remaining.{answers_emptied};

use crate::buses::BusOf;
use crate::devices::Device;
use crate::faults::BusFault;
use journal_core::Signal;

/// What a step uses: devices by their windows.
///
/// `slot_at` and a refused call leave the port as it was. Loads and stores leave every window as it is.
pub trait Port {
    /// The windows of the slots in order, each None where no device is.
    ghost windows: { Self → List (Option Window) };

    /// What the port before an access, the row of this access, and the port after it have to do with each other.
    ghost related: { Self → DeviceRow → Self → Type 0 };

    /// The second port is the first one without the device of this slot.
    ghost empties: { Self → ℕ → Self → Type 0 };

    /// The slot whose window holds an address, and the offset in this window.
    fn slot_at(&self, at: u64) -> Option<(u8, u32)>
        ensures { result ≡ window_at (windows self.now) at };

    /// Loads `size` bytes, the lowest first: the slot, the offset in its window and the value.
    fn load(&mut self, at: u64, size: u8) -> Result<(u8, u32, u64), BusFault>
        ensures fault { fault_in result ≡ fault_of (window_at (windows self.old) at) (is_access at size) }
        ensures place { IfOk result (λ r. window_at (windows self.old) at ≡ Some (r.0, r.1)) }
        ensures below { IfOk result (λ r. r.2 < 2 ^ (8 * size)) }
        ensures row { IfOk result (λ r. (step : ℕ) → related self.old (load_row step r.0 r.1 size r.2) self.new) }
        ensures err { OnErr result (self.new ≡ self.old) }
        ensures windows { windows self.new ≡ windows self.old };

    /// Stores the lowest `size` bytes of a number: the slot, the offset in its window and the signal of its device.
    fn store(&mut self, at: u64, size: u8, value: u64) -> Result<(u8, u32, Signal), BusFault>
        ensures fault { fault_in result ≡ fault_of (window_at (windows self.old) at) (is_access at size) }
        ensures place { IfOk result (λ r. window_at (windows self.old) at ≡ Some (r.0, r.1)) }
        ensures row { IfOk result (λ r. (step : ℕ) → related self.old (store_row step r.0 r.1 size value r.2) self.new) }
        ensures err { OnErr result (self.new ≡ self.old) }
        ensures windows { windows self.new ≡ windows self.old };

    /// Takes the device out of a slot.
    fn empty(&mut self, slot: u8)
        ensures windows { windows self.new ≡ emptied (windows self.old) slot }
        ensures empties { empties self.old slot self.new };

    /// To empty a slot directly after an access keeps what is related.
    ghost related_empty: { (first old new : Self) (row : DeviceRow) (slot : ℕ) → related first row old → empties old slot new → related first row new };
}

impl<D: Device> Port for BusOf<D> {
    ghost windows = { λ bus. windows_of bus };

    ghost related = { λ old row new. DeviceAnswers D.list D.answers old row new };

    ghost empties = { λ old slot new. new ≡ emptied old slot };

    fn slot_at(&self, at: u64) -> Option<(u8, u32)> {
        BusOf::slot_at(self, at)
    }

    fn load(&mut self, at: u64, size: u8) -> Result<(u8, u32, u64), BusFault> {
        BusOf::load(self, at, size)
    }

    fn store(&mut self, at: u64, size: u8, value: u64) -> Result<(u8, u32, Signal), BusFault> {
        BusOf::store(self, at, size, value)
    }

    fn empty(&mut self, slot: u8) {
        let _ = self.eject(slot);
    }

    ghost related_empty = { λ first old new row slot related empties. answers_emptied D.list D.answers first old new row slot related empties };
}
