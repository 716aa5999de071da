//! Laws of walks of asks. Each function does nothing: its contract is the law.

ghost use Rattle.nested_walk.specs.Causes.{WalksRaiseSixCauses};

/// The walk of an ask raises only six interrupts, and sets bits only among 33, 35, 36, 38, 44, 45 and 46: for each of them just
/// those that its cause may have.
pub fn walks_raise_six_causes()
    ensures { WalksRaiseSixCauses }
{}
