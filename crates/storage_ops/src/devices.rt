//! Accesses of devices, each with its row.

ghost use Rattle.std.specs.Prelude.{◌≡◌, ◌<◌, ◌*◌, ◌^◌, length, true, Some};
ghost use Rattle.journal_core.specs.Room.{device_places};
ghost use Rattle.journal_core.specs.Steps.{add_device};
ghost use Rattle.ppc_bus.specs.Devices.{load_row, store_row};
ghost use Rattle.ppc_bus.specs.Holding.{window_at, is_access};
ghost use Rattle.storage_ops.specs.Parts.{listed};
ghost use Rattle.storage_ops.specs.Checks as checks;
ghost use Rattle.storage_ops.specs.Effects.{windows_by};

use crate::parts::{Part, Parts};
use journal_core::{DeviceRow, Journal, Signal};
use ppc_bus::Port;

/// The slot and the offset of the window that holds an access of one part.
pub fn device_of<B: Port>(bus: &B, parts: &Parts) -> Option<(u8, u32)>
    ensures { result ≡ checks.device_of (B.windows bus.now) (listed parts.now) }
{
    match parts.second {
        None => bus.slot_at(parts.first.at),
        Some(_) => None,
    }
}

/// Loads from the device whose window holds a part, and adds the row.
pub fn device_load<B: Port>(
    bus: &mut B,
    journal: &mut Journal,
    moment: u32,
    part: Part,
    place: (u8, u32),
) -> u64
    requires place { window_at (B.windows bus.old) part.at ≡ Some place }
    requires access { is_access part.at part.size ≡ true }
    requires room { length journal.old.rows.devices < device_places journal.old.reserved }
    requires moment { moment ≡ length journal.old.rows.steps }
    ensures below { result < 2 ^ (8 * part.size) }
    ensures row { journal.new ≡ record journal.old { rows = add_device journal.old.rows (load_row moment place.0 place.1 part.size result) } }
    ensures related { B.related bus.old (load_row moment place.0 place.1 part.size result) bus.new }
    ensures windows { B.windows bus.new ≡ B.windows bus.old }
{
    let (slot, offset, value) = match bus.load(part.at, part.size) {
        Ok(answer) => answer,
        Err(_) => unreachable!(),
    };
    journal.push_device(DeviceRow {
        step: moment,
        slot,
        offset,
        size: part.size,
        store: false,
        value,
        signal: Signal::Quiet,
    });
    value
}

/// Takes a device out of its slot where a signal says so.
fn eject_by<B: Port>(bus: &mut B, signal: Signal)
    ensures windows { B.windows bus.new ≡ windows_by signal (B.windows bus.old) }
    ensures empties { checks.Ejects B.empties signal bus.old bus.new }
{
    match signal {
        Signal::Eject(slot) => bus.empty(slot),
        Signal::Quiet | Signal::Byte(_) | Signal::Stop => {}
    }
}

/// Stores a number in the device whose window holds a part, and adds the row. A device that is ejected is taken out at once.
pub fn device_store<B: Port>(
    bus: &mut B,
    journal: &mut Journal,
    moment: u32,
    part: Part,
    place: (u8, u32),
    value: u64,
) -> Signal
    requires place { window_at (B.windows bus.old) part.at ≡ Some place }
    requires access { is_access part.at part.size ≡ true }
    requires value { value < 2 ^ (8 * part.size) }
    requires room { length journal.old.rows.devices < device_places journal.old.reserved }
    requires moment { moment ≡ length journal.old.rows.steps }
    ensures row { journal.new ≡ record journal.old { rows = add_device journal.old.rows (store_row moment place.0 place.1 part.size value result) } }
    ensures related { B.related bus.old (store_row moment place.0 place.1 part.size value result) bus.new }
    ensures windows { B.windows bus.new ≡ windows_by result (B.windows bus.old) }
{
    let (slot, offset, signal) = match bus.store(part.at, part.size, value) {
        Ok(answer) => answer,
        Err(_) => unreachable!(),
    };
    eject_by(bus, signal);
    journal.push_device(DeviceRow {
        step: moment,
        slot,
        offset,
        size: part.size,
        store: true,
        value,
        signal,
    });
    signal
}
