//! The bus.

ghost use Rattle.std.specs.Prelude.{◌≡◌, ℕ, ◌+◌, ◌≤◌, ◌<◌, ◌%◌, ◌*◌, ◌^◌, [], ◌∷◌, ◌++◌, length, true, None, Some, IfOk, OnOk, IfErr, OnErr, IfSome, IsSome};
ghost use Rattle.ppc_bus.specs.Windows.{windows_of, window_of};
ghost use Rattle.ppc_bus.specs.Holding.{window_at, slot_holds, slot_of, is_access, LiesIn};
ghost use Rattle.ppc_bus.specs.Plugging.{is_window, refusal_of};
ghost use Rattle.ppc_bus.specs.Faults.{reason_in, fault_of, fault_in};
ghost use Rattle.ppc_bus.specs.Devices.{load_row, store_row};
ghost use Rattle.ppc_bus.specs.Slots.{slot_in, device_in, emptied};
ghost use Rattle.ppc_bus.specs.Answers.{DeviceAnswers, SlotAnswers};

use crate::devices::Device;
use crate::faults::{BusFault, PlugFaultOf, PlugReason};
use crate::slots::{Slot, load_slot, met_from, store_slot, take_device, window_from};
use arrayvec::ArrayVec;
use journal_core::Signal;
use std::marker::Model;

/// Where the windows of devices may begin.
const FIRST_PLACE: u64 = 0x1000_0000;

/// Devices in windows of the address space, eight at most.
///
/// Contracts see a list of slots, one for each device that was plugged so far: where its window begins, how many bytes this
/// has, and the device; or `None` where the device was taken out. No two windows share an address.
#[derive(Drop)]
pub struct BusOf<D> {
    slots: ArrayVec<Option<Slot<D>>, 8>,
}

impl<D> Model for BusOf<D> {
    ghost use Rattle.std.specs.Prelude.{List, Option};
    ghost use Rattle.ppc_bus.specs.declared.slots.Slot.{Slot};
    ghost use Rattle.ppc_bus.specs.Windows.{windows_of};
    ghost use Rattle.ppc_bus.specs.Plugging.{ArePlugged};

    ghost Value = { List (Option (Slot D)) };

    ghost view = { λ b. b.slots.items };

    ghost invariant = { λ b. ArePlugged (windows_of b.slots.items) };
}

/// A bus of boxed devices.
pub type Bus = BusOf<Box<dyn Device>>;

/// Whether a device may have such a window.
fn is_good_window(place: u64, size: u32) -> bool
    ensures { result ≡ is_window (record { place = place; size = size }) }
{
    place % 4096 == 0
        && place >= FIRST_PLACE
        && place < 0x2000_0000
        && size > 0
        && size <= 65_536
        && size % 8 == 0
}

/// Whether an access has a size that divides its address.
fn is_good_access(at: u64, size: u8) -> bool
    ensures access { result ≡ is_access at size }
{
    (size == 1 || size == 2 || size == 4 || size == 8) && at % u64::from(size) == 0
}

impl<D: Device> BusOf<D> {
    /// A bus with no device.
    pub fn new() -> BusOf<D>
        ensures { result ≡ [] }
    {
        BusOf {
            slots: ArrayVec::new(),
        }
    }

    /// Why a device with such a window is not plugged, if there is a reason.
    fn refusal(&self, at: u64, size: u32) -> Option<PlugReason>
        ensures reason { result ≡ refusal_of (windows_of self.now) (record { place = at; size = size }) }
        ensures room { result ≡ None → length self.now < 8 }
    {
        let slots = self.slots.as_slice();
        if slots.len() >= 8 {
            return Some(PlugReason::SlotsFull);
        }
        if !is_good_window(at, size) {
            return Some(PlugReason::BadWindow);
        }
        match met_from(slots, 0, at, size) {
            Some(slot) => Some(PlugReason::SlotUsed(slot)),
            None => None,
        }
    }

    /// Puts a device into the next slot, with its window from an address on.
    ///
    /// A refusal gives the device back, as it was.
    pub fn plug(&mut self, at: u64, device: D) -> Result<u8, PlugFaultOf<D>>
        ensures reason { reason_in result ≡ refusal_of (windows_of self.old) (record { place = at; size = D.window_size device }) }
        ensures slot { IfOk result (λ slot. slot ≡ length self.old) }
        ensures plugged { OnOk result (self.new ≡ self.old ++ Some (record { at = at; size = D.window_size device; device = device }) ∷ []) }
        ensures back { IfErr result (λ fault. fault.device ≡ device) }
        ensures err { OnErr result (self.new ≡ self.old) }
    {
        let size = device.window();
        match self.refusal(at, size) {
            Some(reason) => Err(PlugFaultOf { device, reason }),
            None => {
                let slot = self.slots.len();
                self.slots.push(Some(Slot { at, size, device }));
                Ok(slot as u8)
            }
        }
    }

    /// The slot whose window holds an address, and the offset in this window. It asks no device.
    ///
    /// No other window holds the address, and an access whose size divides it lies in the window whole.
    pub fn slot_at(&self, at: u64) -> Option<(u8, u32)>
        ensures place { result ≡ window_at (windows_of self.now) at }
        ensures alone { (k : ℕ) → slot_holds (slot_in (windows_of self.now) k) at ≡ true → slot_of result ≡ Some k }
        ensures whole { IfSome result (λ r. (size : ℕ) → is_access at size ≡ true → LiesIn (slot_in (windows_of self.now) r.0) r.1 size) }
    {
        let slots = self.slots.as_slice();
        if at < FIRST_PLACE {
            return None;
        }
        window_from(slots, 0, at)
    }

    /// The slot and the offset that an access reaches.
    fn reached(&self, at: u64, size: u8) -> Result<(u8, u32), BusFault>
        ensures fault { fault_in result ≡ fault_of (window_at (windows_of self.now) at) (is_access at size) }
        ensures place { IfOk result (λ r. window_at (windows_of self.now) at ≡ Some (r.0, r.1)) }
        ensures there { IfOk result (λ r. IsSome (slot_in self.now r.0)) }
        ensures some { OnOk result (1 ≤ size) }
        ensures most { OnOk result (size ≤ 8) }
    {
        match self.slot_at(at) {
            None => Err(BusFault::NoDevice),
            Some(place) => {
                if is_good_access(at, size) {
                    Ok(place)
                } else {
                    Err(BusFault::DeviceAccess)
                }
            }
        }
    }

    /// Loads from the device of a slot that has one.
    fn load_from(&mut self, slot: u8, offset: u32, size: u8) -> u64
        requires there { IsSome (slot_in self.old slot) }
        requires some { 1 ≤ size }
        requires most { size ≤ 8 }
        ensures row { (step : ℕ) → DeviceAnswers D.list D.answers self.old (load_row step slot offset size result) self.new }
        ensures others { (k : ℕ) → (k ≡ slot → ⊥) → slot_in self.new k ≡ slot_in self.old k }
        ensures windows { windows_of self.new ≡ windows_of self.old }
    {
        match self.slots.get_mut(slot as usize) {
            Some(place) => load_slot(place, offset, size),
            None => unreachable!(),
        }
    }

    /// Stores to the device of a slot that has one.
    fn store_to(&mut self, slot: u8, offset: u32, size: u8, value: u64) -> Signal
        requires there { IsSome (slot_in self.old slot) }
        requires some { 1 ≤ size }
        requires most { size ≤ 8 }
        ensures row { (step : ℕ) → DeviceAnswers D.list D.answers self.old (store_row step slot offset size value result) self.new }
        ensures others { (k : ℕ) → (k ≡ slot → ⊥) → slot_in self.new k ≡ slot_in self.old k }
        ensures windows { windows_of self.new ≡ windows_of self.old }
    {
        match self.slots.get_mut(slot as usize) {
            Some(place) => store_slot(place, offset, size, value),
            None => unreachable!(),
        }
    }

    /// Loads `size` bytes, the lowest first, from the device whose window holds an address: its slot, the offset in its
    /// window and the value, which is taken modulo 2^(8·size).
    pub fn load(&mut self, at: u64, size: u8) -> Result<(u8, u32, u64), BusFault>
        ensures fault { fault_in result ≡ fault_of (window_at (windows_of self.old) at) (is_access at size) }
        ensures place { IfOk result (λ r. window_at (windows_of self.old) at ≡ Some (r.0, r.1)) }
        ensures row { IfOk result (λ r. (step : ℕ) → DeviceAnswers D.list D.answers self.old (load_row step r.0 r.1 size r.2) self.new) }
        ensures others { IfOk result (λ r. (k : ℕ) → (k ≡ r.0 → ⊥) → slot_in self.new k ≡ slot_in self.old k) }
        ensures windows { windows_of self.new ≡ windows_of self.old }
        ensures err { OnErr result (self.new ≡ self.old) }
    {
        match self.reached(at, size) {
            Err(fault) => Err(fault),
            Ok((slot, offset)) => Ok((slot, offset, self.load_from(slot, offset, size))),
        }
    }

    /// Stores the lowest `size` bytes of a number to the device whose window holds an address: its slot, the offset in its
    /// window and its signal. The device gets the number modulo 2^(8·size).
    pub fn store(&mut self, at: u64, size: u8, value: u64) -> Result<(u8, u32, Signal), BusFault>
        ensures fault { fault_in result ≡ fault_of (window_at (windows_of self.old) at) (is_access at size) }
        ensures place { IfOk result (λ r. window_at (windows_of self.old) at ≡ Some (r.0, r.1)) }
        ensures row { IfOk result (λ r. (step : ℕ) → DeviceAnswers D.list D.answers self.old (store_row step r.0 r.1 size value r.2) self.new) }
        ensures others { IfOk result (λ r. (k : ℕ) → (k ≡ r.0 → ⊥) → slot_in self.new k ≡ slot_in self.old k) }
        ensures windows { windows_of self.new ≡ windows_of self.old }
        ensures err { OnErr result (self.new ≡ self.old) }
    {
        match self.reached(at, size) {
            Err(fault) => Err(fault),
            Ok((slot, offset)) => Ok((slot, offset, self.store_to(slot, offset, size, value))),
        }
    }

    /// Takes the device out of a slot, with its window. The slot is not used again.
    pub fn eject(&mut self, slot: u8) -> Option<D>
        ensures taken { result ≡ device_in (slot_in self.old slot) }
        ensures left { self.new ≡ emptied self.old slot }
    {
        match self.slots.get_mut(slot as usize) {
            None => None,
            Some(place) => take_device(place),
        }
    }
}
