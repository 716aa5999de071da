//! Why a machine is not opened, and what is loaded into its RAM.

ghost use Rattle.std.specs.Prelude.{◌≡◌, ◌<◌, ◌≤◌, ◌*◌, ◌^◌, [], None, length, IfOk};
ghost use Rattle.journal_core.specs.Bytes.{IsBytes};
ghost use Rattle.journal_core.specs.Rows.{no_rows};
ghost use Rattle.elf_image.specs.Places.{bad_place_of};
ghost use Rattle.elf_image.specs.Start as starts;
ghost use Rattle.ppc_bus.specs.Windows.{windows_of};
ghost use Rattle.ppc_machine.specs.Plugging.{windows_for, plugged_windows};
ghost use Rattle.ppc_machine.specs.Opening as opening;

use crate::plugging::{Measure, PluggedOf, measure_windows};
use elf_image::{Guests, Image, Span, bad_place};
use journal_core::{Journal, MOST_STEPS};
use ppc_bus::{BusOf, Device, PlugReason};
use real_store::Store;
use std::alloc::{AllocError, Global};

/// Why a machine is not opened.
#[derive(Clone, Copy, Debug, PartialEq, Eq)]
pub enum OpenReason {
    /// It cannot have so many threads.
    BadThreads,
    /// RAM has 1 to 256 MiB.
    BadRam,
    /// The journal has at most 1,048,576 steps.
    BadSteps,
    /// The first range leaves RAM, or meets the second, which comes before it.
    BadPlace(Span, Span),
    /// The device with this number is not plugged.
    Device(usize, PlugReason),
    /// There is no memory.
    Memory,
}

/// Devices that are handed back, in their order and each as it was, and why no machine was opened with them.
#[derive(Drop)]
pub struct OpenFaultOf<D> {
    /// The devices.
    pub devices: Vec<PluggedOf<D>>,
    /// Why.
    pub reason: OpenReason,
}

/// Boxed devices that are handed back, and why no machine was opened with them.
pub type OpenFault = OpenFaultOf<Box<dyn Device>>;

/// Why a machine is not opened with these, if there is a reason other than want of memory. Windows are measured on an empty bus.
pub fn refusal_for<D: Device>(
    image: &Image,
    guests: &Guests,
    ram_mib: u16,
    threads: u8,
    devices: &[PluggedOf<D>],
    steps: u32,
    bus: &mut BusOf<Measure>,
) -> Option<OpenReason>
    requires count { length devices.now < 2 ^ 63 }
    requires empty { bus.old ≡ [] }
    ensures refusal { result ≡ opening.refusal_for image.now guests.now ram_mib threads (windows_for D.window_size devices.now) steps }
    ensures plugged { result ≡ None → windows_of bus.new ≡ plugged_windows (windows_for D.window_size devices.now) }
{
    if threads != 1 {
        return Some(OpenReason::BadThreads);
    }
    if ram_mib < 1 || ram_mib > 256 {
        return Some(OpenReason::BadRam);
    }
    if steps > MOST_STEPS {
        return Some(OpenReason::BadSteps);
    }
    if let Some((range, other)) = bad_place(image, guests, ram_mib) {
        return Some(OpenReason::BadPlace(range, other));
    }
    match measure_windows(devices, 0, bus) {
        Some((number, reason)) => Some(OpenReason::Device(number, reason)),
        None => None,
    }
}

/// Places the segments of an image in RAM.
fn load_image(store: &mut Store, image: &Image, ram_mib: u16, guests: &Guests)
    requires size { length store.old.ram ≡ ram_mib * 1048576 }
    requires place { bad_place_of image.now guests.now ram_mib ≡ None }
    ensures ram { store.new.ram ≡ starts.loaded store.old.ram image.now.segments }
    ensures size { length store.new.ram ≡ length store.old.ram }
{
    for segment in image.segments.as_slice() {
        let _ = store.place(segment.at, segment.bytes.as_slice());
    }
}

/// Places guests in RAM.
fn load_guests(store: &mut Store, image: &Image, ram_mib: u16, guests: &Guests)
    requires size { length store.old.ram ≡ ram_mib * 1048576 }
    requires place { bad_place_of image.now guests.now ram_mib ≡ None }
    ensures ram { store.new.ram ≡ starts.with_guests store.old.ram guests.now }
{
    for guest in guests.as_slice() {
        let _ = store.place(guest.at, guest.bytes.as_slice());
    }
}

/// RAM with an image and guests, and an empty journal: all memory that a machine ever needs.
#[tactic(auto, unfolding(elf_image::specs::Start::start_ram))]
pub fn take_memory(
    alloc: Global,
    image: &Image,
    guests: &Guests,
    ram_mib: u16,
    steps: u32,
) -> Result<(Store, Journal), AllocError>
    requires most { ram_mib ≤ 256 }
    requires steps { steps ≤ 1048576 }
    requires place { bad_place_of image.now guests.now ram_mib ≡ None }
    ensures ram { IfOk result (λ memory. memory.0.ram ≡ starts.start_ram image.now guests.now ram_mib) }
    ensures bytes { IfOk result (λ memory. IsBytes memory.0.ram) }
    ensures journal { IfOk result (λ memory. memory.1 ≡ record { reserved = steps; floor = 0; rows = no_rows }) }
{
    let mut store = Store::open(alloc, 1_048_576 * u64::from(ram_mib))?;
    load_image(&mut store, image, ram_mib, guests);
    load_guests(&mut store, image, ram_mib, guests);
    store.holds_bytes();
    let journal = Journal::open(alloc, steps)?;
    Ok((store, journal))
}
