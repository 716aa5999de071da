//! The slots of a bus, and their windows.

ghost use Rattle.std.specs.Prelude.{◌≡◌, ◌+◌, ◌≤◌, ◌<◌, ◌%◌, ◌*◌, ◌^◌, nat_lt, length, IsSome, None};
ghost use Rattle.ppc_bus.specs.Windows.{Window, windows_of};
ghost use Rattle.ppc_bus.specs.Holding as holding;
ghost use Rattle.ppc_bus.specs.Meeting as meeting;
ghost use Rattle.ppc_bus.specs.Devices.{load_row, store_row};
ghost use Rattle.ppc_bus.specs.Slots.{device_in};
ghost use Rattle.ppc_bus.specs.Answers.{SlotAnswers};

use crate::devices::Device;
use journal_core::Signal;

/// A device, where its window begins, and how many bytes this has.
#[derive(Drop)]
pub struct Slot<D> {
    /// Where the window begins.
    pub at: u64,
    /// How many bytes the window has.
    pub size: u32,
    /// The device.
    pub device: D,
}

/// Whether a window holds an address.
fn holds(place: u64, size: u32, at: u64) -> bool
    ensures { result ≡ holding.holds (record { place = place; size = size }) at }
{
    place <= at && at - place < u64::from(size)
}

/// Whether an address lies before the end of a window.
fn is_before_end(place: u64, size: u32, at: u64) -> bool
    ensures { result ≡ nat_lt at (place + size) }
{
    at < place || at - place < u64::from(size)
}

/// The first slot on whose window holds an address, and the offset in this window; the first one here has the number `first`.
#[tactic(auto, unfolding(crate::specs::Holding::window_from))]
pub(crate) fn window_from<D>(slots: &[Option<Slot<D>>], first: u8, at: u64) -> Option<(u8, u32)>
    requires { first + length slots.now ≤ 8 }
    ensures { result ≡ holding.window_from first (windows_of slots.now) at }
{
    match slots {
        [] => None,
        [slot, rest @ ..] => {
            if let Some(slot) = slot {
                if holds(slot.at, slot.size, at) {
                    return Some((first, (at - slot.at) as u32));
                }
            }
            window_from(rest, first + 1, at)
        }
    }
}

/// The first slot whose window another window meets; the first one here has the number `first`.
#[tactic(auto, unfolding(crate::specs::Meeting::met_from))]
pub(crate) fn met_from<D>(slots: &[Option<Slot<D>>], first: u8, place: u64, size: u32) -> Option<u8>
    requires { first + length slots.now ≤ 8 }
    ensures { result ≡ meeting.met_from first (windows_of slots.now) (record { place = place; size = size }) }
{
    match slots {
        [] => None,
        [slot, rest @ ..] => {
            if let Some(slot) = slot {
                if is_before_end(place, size, slot.at) && is_before_end(slot.at, slot.size, place) {
                    return Some(first);
                }
            }
            met_from(rest, first + 1, place, size)
        }
    }
}

/// A number modulo 2^(8·size).
pub(crate) fn cut(value: u64, size: u8) -> u64
    requires some { 1 ≤ size }
    requires most { size ≤ 8 }
    ensures { result ≡ value % 2 ^ (8 * size) }
{
    if size == 8 {
        value
    } else {
        value % (1 << (8 * size))
    }
}

/// Loads from the device of a slot that has one.
pub(crate) fn load_slot<D: Device>(slot: &mut Option<Slot<D>>, offset: u32, size: u8) -> u64
    requires there { IsSome slot.old }
    requires some { 1 ≤ size }
    requires most { size ≤ 8 }
    ensures { SlotAnswers D.list D.answers (load_row 0 0 offset size result) slot.old slot.new }
{
    match slot {
        Some(slot) => cut(slot.device.load(offset, size), size),
        None => unreachable!(),
    }
}

/// Stores to the device of a slot that has one.
pub(crate) fn store_slot<D: Device>(
    slot: &mut Option<Slot<D>>,
    offset: u32,
    size: u8,
    value: u64,
) -> Signal
    requires there { IsSome slot.old }
    requires some { 1 ≤ size }
    requires most { size ≤ 8 }
    ensures { SlotAnswers D.list D.answers (store_row 0 0 offset size value result) slot.old slot.new }
{
    match slot {
        Some(slot) => slot.device.store(offset, size, cut(value, size)),
        None => unreachable!(),
    }
}

/// Takes the device out of a slot.
pub(crate) fn take_device<D>(slot: &mut Option<Slot<D>>) -> Option<D>
    ensures taken { result ≡ device_in slot.old }
    ensures left { slot.new ≡ None }
{
    match slot.take() {
        None => None,
        Some(slot) => Some(slot.device),
    }
}
