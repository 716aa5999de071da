//! The hardware threads of a machine.

ghost use Rattle.std.specs.Prelude.{◌≡◌, ◌<◌, ◌≤◌, length, slice_set};
ghost use Rattle.std.specs.Borrow.{sem};
ghost use Rattle.thread_regs.specs.Registers.{all_reset, thread_at};
ghost use Rattle.thread_regs.specs.Lending.{LendsThread};

use crate::registers::Thread;
use arrayvec::ArrayVec;
use std::marker::Model;

/// The hardware threads of a machine, one to four. Contracts see the list of their registers.
#[derive(Drop)]
pub struct Threads {
    items: ArrayVec<Thread, 4>,
}

impl Model for Threads {
    ghost use Rattle.std.specs.Prelude.{List, length, ◌≤◌};
    ghost use Rattle.thread_regs.specs.declared.registers.Thread.{Thread};

    ghost Value = { List Thread };

    ghost view = { λ t. t.items.items };

    ghost invariant = { λ t. (1 ≤ length t.items.items) × (length t.items.items ≤ 4) };
}

impl Threads {
    /// So many threads in their reset state, one to four, numbered from 0 and all at this entry.
    #[tactic(auto, unfolding(crate::specs::Registers::reset_from))]
    pub fn reset(count: u8, entry: u64) -> Threads
        requires some { 1 ≤ count }
        requires most { count ≤ 4 }
        ensures reset { result ≡ all_reset count entry }
        ensures count { length result ≡ count }
    {
        let mut items = ArrayVec::new();
        for number in 0..count {
            items.push(Thread::reset(number, entry));
        }
        Threads { items }
    }

    /// How many threads there are.
    pub fn count(&self) -> u8
        ensures count { result ≡ length self.now }
        ensures some { 1 ≤ result }
        ensures most { result ≤ 4 }
    {
        self.items.len() as u8
    }

    /// The registers of thread `i`, which is below the count.
    pub fn get(&self, i: u8) -> &Thread
        requires { i < length self.now }
        ensures { result.now ≡ thread_at self.now i }
    {
        match self.items.get(i as usize) {
            Some(thread) => thread,
            None => unreachable!(),
        }
    }

    /// The registers of thread `i`, which is below the count, to be changed.
    pub fn get_mut(&mut self, i: u8) -> &mut Thread
        requires { i < length self.old }
        ensures* writes_back { sem 𝓛 (LendsThread self.entry i result) }
        ensures value { result.now ≡ thread_at self.old i }
    {
        match self.items.get_mut(i as usize) {
            Some(thread) => thread,
            None => unreachable!(),
        }
    }

    /// The registers of all threads, in the order of their numbers.
    pub fn as_slice(&self) -> &[Thread]
        ensures { result.now ≡ self.now }
    {
        self.items.as_slice()
    }
}
