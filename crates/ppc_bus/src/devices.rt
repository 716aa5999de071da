//! What a device is.

ghost use Rattle.std.specs.Prelude.{◌≡◌, ℕ, List};
ghost use Rattle.ppc_bus.specs.Devices.{Access, Reply, Load, Store};

use journal_core::Signal;

/// A device in a window of the address space.
///
/// It means a list of numbers, and it answers by a function: what a load gives, which signal a store gives, and which list
/// the device then means, all by the list before and by the access (`answers`). This function and the size of the window
/// never change. A bus hands over offsets in the window, sizes of 1, 2, 4 or 8 bytes that divide the address, and values
/// that fit the size; it takes a loaded value modulo 2^(8·size).
///
/// A device of your own gives its three ghost members beside the three methods:
///
/// ```text
/// /// Adds up what is stored.
/// #[derive(Drop)]
/// struct Adder {
///     total: u64,
/// }
///
/// impl Device for Adder {
///     ghost list = { λ a. a.total ∷ [] };
///
///     ghost answers = { λ a. adder_answers };
///
///     ghost window_size = { λ a. 8 };
///
///     fn window(&self) -> u32 {
///         8
///     }
///
///     fn load(&mut self, _at: u32, _size: u8) -> u64 {
///         self.total
///     }
///
///     fn store(&mut self, _at: u32, _size: u8, value: u64) -> Signal {
///         self.total = self.total.wrapping_add(value);
///         Signal::Quiet
///     }
/// }
/// ```
///
/// where `adder_answers` is a definition by the two accesses:
///
/// ```text
/// adder_answers list (Load at size) = record { value = first_or 0 list; signal = Quiet; list = list }
/// adder_answers list (Store at size value) = record { value = 0; signal = Quiet; list = (first_or 0 list + value) % 2 ^ 64 ∷ [] }
/// ```
pub trait Device: Drop {
    /// The list that it means.
    ghost list: { Self → List ℕ };

    /// Its function: what it replies to an access from a list, and the list that it then means.
    ghost answers: { Self → List ℕ → Access → Reply };

    /// How many bytes its window has.
    ghost window_size: { Self → ℕ };

    /// How many bytes its window has.
    fn window(&self) -> u32
        ensures { result ≡ window_size self.now };

    /// Loads `size` bytes at an offset in its window.
    fn load(&mut self, at: u32, size: u8) -> u64
        ensures value { result ≡ (answers self.old (list self.old) (Load at size)).value }
        ensures list { list self.new ≡ (answers self.old (list self.old) (Load at size)).list }
        ensures same { (l : List ℕ) (access : Access) → answers self.new l access ≡ answers self.old l access }
        ensures window { window_size self.new ≡ window_size self.old };

    /// Stores a number of `size` bytes at an offset in its window.
    fn store(&mut self, at: u32, size: u8, value: u64) -> Signal
        ensures signal { result ≡ (answers self.old (list self.old) (Store at size value)).signal }
        ensures list { list self.new ≡ (answers self.old (list self.old) (Store at size value)).list }
        ensures same { (l : List ℕ) (access : Access) → answers self.new l access ≡ answers self.old l access }
        ensures window { window_size self.new ≡ window_size self.old };
}

impl Device for Box<dyn Device> {
    ghost list = { λ b. (Device-box b).list b.value };

    ghost answers = { λ b. (Device-box b).answers b.value };

    ghost window_size = { λ b. (Device-box b).window_size b.value };

    fn window(&self) -> u32 {
        (**self).window()
    }

    fn load(&mut self, at: u32, size: u8) -> u64 {
        (**self).load(at, size)
    }

    fn store(&mut self, at: u32, size: u8, value: u64) -> Signal {
        (**self).store(at, size, value)
    }
}
