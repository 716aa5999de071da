//! The devices of the program.

ghost use Rattle.std.specs.Prelude.{◌≡◌, ◌∷◌, [], None, IfOk};

use ppc_bus::Device;
use ppc_machine::Plugged;
use radix_top::Bench;
use std::alloc::{AllocError, Global};

/// A bench with these devices: a console at 0x10000000, a control at 0x10001000 and a tape at 0x10002000.
pub fn bench_of(
    alloc: Global,
    console: Box<dyn Device>,
    control: Box<dyn Device>,
    tape: Box<dyn Device>,
) -> Result<Bench, AllocError>
    ensures devices { IfOk result (λ b. b.devices.items ≡ record { at = 268435456; device = console } ∷ record { at = 268439552; device = control } ∷ record { at = 268443648; device = tape } ∷ []) }
    ensures machine { IfOk result (λ b. b.machine ≡ None) }
{
    let mut devices = Vec::new(alloc);
    devices.push(Plugged {
        at: 0x1000_0000,
        device: console,
    })?;
    devices.push(Plugged {
        at: 0x1000_1000,
        device: control,
    })?;
    devices.push(Plugged {
        at: 0x1000_2000,
        device: tape,
    })?;
    Ok(Bench {
        devices,
        machine: None,
    })
}
