//! The values that a special purpose register may have.

ghost use Rattle.std.specs.Prelude.{◌≡◌};
ghost use Rattle.ppc_spr.specs.Values as values;

use crate::lpcr::is_in_profile;
use crate::spr::Spr;

/// Whether a register may have this value: the authority masks 0 alone, LPCR a value of its profile, all others any.
pub fn may_have(spr: Spr, value: u64) -> bool
    ensures { result ≡ values.may_have spr value }
{
    match spr {
        Spr::Amr | Spr::Iamr => value == 0,
        Spr::Lpcr => is_in_profile(value),
        _ => true,
    }
}
