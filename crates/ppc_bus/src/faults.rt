//! Why the bus refuses.

use crate::devices::Device;

/// Why a device is not reached.
#[derive(Clone, Copy, Debug, PartialEq, Eq)]
pub enum BusFault {
    /// No window holds the address.
    NoDevice,
    /// The size is not 1, 2, 4 or 8, or does not divide the address.
    DeviceAccess,
}

/// Why a device is not plugged.
#[derive(Clone, Copy, Debug, PartialEq, Eq)]
pub enum PlugReason {
    /// Eight devices were plugged so far.
    SlotsFull,
    /// No window may begin there, or have so many bytes.
    BadWindow,
    /// The window meets that of this slot, the least such one.
    SlotUsed(u8),
}

/// A device that was not plugged, and why.
#[derive(Drop)]
pub struct PlugFaultOf<D> {
    /// The device, as it was.
    pub device: D,
    /// Why it was not plugged.
    pub reason: PlugReason,
}

/// A boxed device that was not plugged, and why.
pub type PlugFault = PlugFaultOf<Box<dyn Device>>;
