//! Laws of the definitions of a bus. Each function does nothing: its contract is the law.

ghost use Rattle.ppc_bus.specs.Laws.{AccessLiesInWindow, ChainAnswers};

use crate::buses::BusOf;
use crate::devices::Device;
use crate::ports::Port;

/// An access whose size divides its address, and that begins in a window, lies in this window whole.
pub fn aligned_access_lies_in_its_window()
    ensures { AccessLiesInWindow }
{}

/// In a chain of rows over the relation of a bus, the rows of each slot are what the function of its device replies, row
/// after row, from the list that the device means where the chain begins.
pub fn chain_gives_answers<D: Device>()
    ensures { ChainAnswers D.list D.answers (⟦<BusOf<D> as Port>⟧.related) }
{}
