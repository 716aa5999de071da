//! Where the parts of an access lie in real storage, and which of them are refused.

ghost use Rattle.std.specs.Prelude.{◌≡◌, ℕ, None, IfOk, IfErr, length};
ghost use Rattle.ppc_bus.specs.Holding.{is_access};
ghost use Rattle.form_outcomes.specs.Outcomes.{Goes};
ghost use Rattle.storage_ops.specs.Parts.{listed, AreParts};
ghost use Rattle.storage_ops.specs.Reaching as reaching;
ghost use Rattle.storage_ops.specs.Checks as checks;

use crate::answering::Answers;
use crate::parts::{Part, Parts};
use journal_core::{Found, StepEnd, StopName};
use ppc_bus::Port;

/// The part at the real address of an answer, or how the step ends.
fn place_part(part: Part, found: Found) -> Result<Part, StepEnd>
    ensures { reaching.PlacesPart part found result }
{
    match found {
        Found::Real(at, _) => Ok(Part {
            at,
            size: part.size,
        }),
        Found::Fault(cause, _) => Err(StepEnd::Took(cause)),
        Found::Stop(name, value) => Err(StepEnd::Stopped(name, value)),
    }
}

/// The parts at the real addresses of the answers, or how the step ends at the first answer that has none.
pub fn place_parts(parts: &Parts, answers: &Answers) -> Result<Parts, StepEnd>
    ensures ok { IfOk result (λ real. reaching.laid (listed parts.now) (reaching.founds_in answers.now) ≡ Goes (listed real)) }
    ensures err { IfErr result (λ end. reaching.EndsAs (reaching.laid (listed parts.now) (reaching.founds_in answers.now)) end) }
    ensures sizes { IfOk result (λ real. (size : ℕ) → reaching.IsAllAnswered parts.now answers.now → AreParts size parts.now → AreParts size real) }
    ensures whole { IfOk result (λ real. parts.now.second ≡ None → real.second ≡ None) }
{
    let first = place_part(parts.first, answers.first)?;
    let (part, found) = match (parts.second, answers.second) {
        (Some(part), Some(found)) => (part, found),
        _ => {
            return Ok(Parts {
                first,
                second: None,
            });
        }
    };
    let second = place_part(part, found)?;
    Ok(Parts {
        first,
        second: Some(second),
    })
}

/// Whether an access of this size may be asked of a device at an address.
fn is_device_access(at: u64, size: u8) -> bool
    ensures { result ≡ is_access at size }
{
    matches!(size, 1 | 2 | 4 | 8) && at % u64::from(size) == 0
}

/// Why a part is refused, over RAM of so many bytes, where `whole` says that it is the access.
fn refusal_of<B: Port>(bus: &B, whole: bool, bytes: u64, part: Part) -> Option<(StopName, u64)>
    ensures { result ≡ checks.refusal_of (B.windows bus.now) whole bytes part }
{
    if bus.slot_at(part.at).is_some() {
        if whole && is_device_access(part.at, part.size) {
            None
        } else {
            Some((StopName::DeviceAccess, part.at))
        }
    } else if u64::from(part.size) <= bytes && part.at <= bytes - u64::from(part.size) {
        None
    } else {
        Some((StopName::NoStorage, part.at))
    }
}

/// Why the first part is refused that is, over RAM of so many bytes, where `whole` says that the access may be one of a device.
pub fn first_refusal<B: Port>(
    bus: &B,
    whole: bool,
    bytes: u64,
    parts: &Parts,
) -> Option<(StopName, u64)>
    ensures { result ≡ checks.first_refusal (B.windows bus.now) whole bytes (listed parts.now) }
{
    if let Some(stop) = refusal_of(bus, whole, bytes, parts.first) {
        return Some(stop);
    }
    match parts.second {
        None => None,
        Some(second) => refusal_of(bus, whole, bytes, second),
    }
}
