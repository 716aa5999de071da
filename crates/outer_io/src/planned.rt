//! Puts that are to fail.

ghost use Rattle.std.specs.Prelude.{◌≡◌};
ghost use Rattle.outer_io.specs.MemorySink.{plan_for};

/// A put that is to fail once this many bytes of its piece are added.
#[derive(Clone, Copy, Debug)]
pub struct PlannedFault {
    /// The number of the put, counted from 1.
    pub call: u32,
    /// How many bytes it adds.
    pub added: usize,
}

/// How many bytes of its piece the put of this number adds before it fails. The last plan holds.
pub fn planned_for(planned: &[PlannedFault], call: u32) -> Option<usize>
    ensures { result ≡ plan_for planned.now call }
{
    let mut found = None;
    for fault in planned {
        if fault.call == call {
            found = Some(fault.added);
        }
    }
    found
}
