//! The devices that a machine is opened with.

ghost use Rattle.std.specs.Prelude.{◌≡◌, ◌<◌, ◌+◌, ◌^◌, ◌++◌, [], None, length, map};
ghost use Rattle.journal_core.specs.declared.rows.Signal.TheVariants.{Quiet};
ghost use Rattle.ppc_bus.specs.Windows.{windows_of};
ghost use Rattle.ppc_machine.specs.Plugging as plugging;

use journal_core::Signal;
use ppc_bus::{BusOf, Device, PlugReason};

/// A device that is to be plugged, and where its window begins.
#[derive(Drop)]
pub struct PluggedOf<D> {
    /// Where its window begins.
    pub at: u64,
    /// The device.
    pub device: D,
}

/// A boxed device that is to be plugged, and where its window begins.
pub type Plugged = PluggedOf<Box<dyn Device>>;

/// What stands for a device while windows are measured: it has the device's window, and is asked nothing.
#[derive(Drop)]
pub struct Measure {
    size: u32,
}

impl Device for Measure {
    ghost list = { λ m. [] };

    ghost answers = { λ m l access. record { value = 0; signal = Quiet; list = l } };

    ghost window_size = { λ m. m.size };

    fn window(&self) -> u32 {
        self.size
    }

    fn load(&mut self, _at: u32, _size: u8) -> u64 {
        0
    }

    fn store(&mut self, _at: u32, _size: u8, _value: u64) -> Signal {
        Signal::Quiet
    }
}

/// Plugs what stands for some devices, the first of which has this number, up to the first that is refused: its number, and why.
#[tactic(auto, unfolding(crate::specs::Plugging::first_refused))]
pub fn measure_windows<D: Device>(
    devices: &[PluggedOf<D>],
    number: usize,
    bus: &mut BusOf<Measure>,
) -> Option<(usize, PlugReason)>
    requires { number + length devices.now < 2 ^ 63 }
    ensures refused { result ≡ plugging.first_refused number (windows_of bus.old) (plugging.windows_for D.window_size devices.now) }
    ensures plugged { result ≡ None → windows_of bus.new ≡ windows_of bus.old ++ plugging.plugged_windows (plugging.windows_for D.window_size devices.now) }
{
    match devices {
        [] => None,
        [plugged, rest @ ..] => {
            let size = plugged.device.window();
            match bus.plug(plugged.at, Measure { size }) {
                Err(fault) => Some((number, fault.reason)),
                Ok(_) => measure_windows(rest, number + 1, bus),
            }
        }
    }
}

/// A bus with some devices, none of which is refused.
pub fn plug_all<D: Device>(devices: Vec<PluggedOf<D>>) -> BusOf<D>
    requires { plugging.first_refused 0 [] (plugging.windows_for D.window_size devices.items) ≡ None }
    ensures { result ≡ plugging.slots_for D.window_size devices.items }
{
    let mut bus = BusOf::new();
    for plugged in devices {
        match bus.plug(plugged.at, plugged.device) {
            Ok(_) => {}
            Err(_) => unreachable!(),
        }
    }
    bus
}
