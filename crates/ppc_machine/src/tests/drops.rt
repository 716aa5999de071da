//! When a device is let go.

ghost use Rattle.std.specs.Prelude.{[]};
ghost use Rattle.journal_core.specs.declared.rows.Signal.TheVariants.{Quiet};

use super::bench::{image_at, next_step};
use crate::{Machine, OpenFault, PluggedOf};
use bench_devices::Control;
use elf_image::Guests;
use journal_core::{Signal, StepEnd};
use ppc_bus::Device;
use std::alloc::Global;
use std::cell::Cell;
use std::rc::Rc;
use std::test::Fail;

/// Gives 0 and wants nothing. It counts how often one was dropped.
struct Counted {
    drops: Rc<Cell<u32>>,
}

impl Drop for Counted {
    fn drop(self) {
        let Counted { drops } = self;
        drops.set(drops.get().wrapping_add(1));
        drop(drops);
    }
}

impl Device for Counted {
    ghost list = { λ c. [] };

    ghost answers = { λ c l access. record { value = 0; signal = Quiet; list = l } };

    ghost window_size = { λ c. 8 };

    fn window(&self) -> u32 {
        8
    }

    fn load(&mut self, _at: u32, _size: u8) -> u64 {
        0
    }

    fn store(&mut self, _at: u32, _size: u8, _value: u64) -> Signal {
        Signal::Quiet
    }
}

/// Opens a machine of so many MiB with a device that counts and a control, whose fourth step ejects the first.
fn open(
    alloc: Global,
    ram_mib: u16,
    drops: &Rc<Cell<u32>>,
) -> Result<Result<Machine, OpenFault>, Fail> {
    // lis r4,0x1000; ori r5,r4,0x1000; li r6,0; std r6,8(r5)
    let words = [0x3c80_1000, 0x6085_1000, 0x38c0_0000, 0xf8c5_0008];
    let image = image_at(alloc, 0x1_0000, &words)?;
    let guests = Guests::new(alloc);
    let counted = Counted {
        drops: drops.clone()?,
    };
    let counted: Box<dyn Device> = Box::new(alloc, counted)?;
    let control: Box<dyn Device> = Box::new(alloc, Control::new())?;
    let mut devices = Vec::new(alloc);
    devices.push(PluggedOf {
        at: 0x1000_0000,
        device: counted,
    })?;
    devices.push(PluggedOf {
        at: 0x1000_1000,
        device: control,
    })?;
    Ok(Machine::open(alloc, &image, &guests, ram_mib, 1, devices, 9))
}

#[test]
fn a_device_is_dropped_once_by_who_holds_it(rt: HostRuntime) -> Result<(), Fail> {
    // It is ejected.
    let drops = Rc::new(rt.alloc(), Cell::new(0u32))?;
    let mut machine = open(rt.alloc(), 16, &drops)?.map_err(|_| "open")?;
    for _ in 0..3u8 {
        assert_eq!(rt; next_step(&mut machine)?, StepEnd::Ran);
    }
    assert_eq!(rt; drops.get(), 0);
    assert_eq!(rt; machine.bus().slot_at(0x1000_0007), Some((0, 7)));
    assert_eq!(rt; next_step(&mut machine)?, StepEnd::Ran);
    assert_eq!(rt; drops.get(), 1);
    assert_eq!(rt; machine.bus().slot_at(0x1000_0007), None);
    drop(machine);
    assert_eq!(rt; drops.get(), 1);

    // Its machine is dropped.
    let drops = Rc::new(rt.alloc(), Cell::new(0u32))?;
    let machine = open(rt.alloc(), 16, &drops)?.map_err(|_| "open")?;
    assert_eq!(rt; drops.get(), 0);
    drop(machine);
    assert_eq!(rt; drops.get(), 1);

    // No machine is opened, and what was handed back is dropped.
    let drops = Rc::new(rt.alloc(), Cell::new(0u32))?;
    let refused = open(rt.alloc(), 0, &drops)?;
    assert!(rt; refused.is_err());
    assert_eq!(rt; drops.get(), 0);
    drop(refused);
    assert_eq!(rt; drops.get(), 1);
    Ok(())
}
