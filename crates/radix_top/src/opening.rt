//! The machine of a prepared command, opened with the devices of a bench.

ghost use Rattle.std.specs.Prelude.{◌≡◌, ◌≤◌, [], IfOk, IfErr, OnOk, OnErr};
ghost use Rattle.ppc_machine.specs.Plugging.{windows_for};
ghost use Rattle.ppc_machine.specs.Opening.{opened};
ghost use Rattle.radix_top.specs.Causes.{ram_mib};
ghost use Rattle.radix_top.specs.Printed.{CanCome, RefusesAs, FailsToOpen};

use crate::inputs::RunInputs;
use crate::status::Refusal;
use ppc_bus::Device;
use ppc_machine::{MachineOf, OpenFaultOf, OpenReason, PluggedOf};
use std::alloc::Global;
use std::mem;

/// Why a call is refused whose machine is not opened for this reason.
fn refusal_for(reason: OpenReason) -> Refusal
    requires { CanCome reason }
    ensures { RefusesAs reason result }
{
    match reason {
        OpenReason::BadPlace(range, other) => Refusal::BadPlace(range, other),
        OpenReason::Device(number, reason) => Refusal::BadDevice(number, reason),
        OpenReason::Memory => Refusal::Memory,
        OpenReason::BadThreads | OpenReason::BadRam | OpenReason::BadSteps => unreachable!(),
    }
}

/// Opens the machine that a prepared command asks for, with all devices. A refusal leaves them as they were.
pub fn open_machine<D: Device>(
    alloc: Global,
    ready: &RunInputs,
    devices: &mut Vec<PluggedOf<D>>,
) -> Result<MachineOf<D>, Refusal>
    requires { ready.now.count ≤ 1048576 }
    ensures ok { IfOk result (λ m. m ≡ opened D.window_size ready.now.image ready.now.guests ram_mib 1 devices.old.items ready.now.count) }
    ensures moved { OnOk result (devices.new.items ≡ []) }
    ensures err { IfErr result (FailsToOpen ready.now.image ready.now.guests (windows_for D.window_size devices.old.items)) }
    ensures back { OnErr result (devices.new.items ≡ devices.old.items) }
{
    let handed = mem::replace(devices, Vec::new(alloc));
    let count = ready.count;
    match MachineOf::open(alloc, &ready.image, &ready.guests, 16, 1, handed, count) {
        Ok(machine) => Ok(machine),
        Err(fault) => {
            let OpenFaultOf {
                devices: given_back,
                reason,
            } = fault;
            *devices = given_back;
            Err(refusal_for(reason))
        }
    }
}
