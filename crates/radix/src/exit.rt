//! The exit status.

ghost use Rattle.std.specs.Prelude.{◌≡◌};
ghost use Rattle.radix.specs.Exits.{exit_of};

use radix_top::Status;

/// The exit status of a call with this status.
pub fn exit_code(status: Status) -> u8
    ensures { result ≡ exit_of status }
{
    match status {
        Status::Done(_) => 0,
        Status::Usage(_) => 2,
        Status::ReadFault(_) => 3,
        Status::TooLong(_) => 4,
        Status::BadImage(_) => 5,
        Status::BadSchedule(_) => 6,
        Status::BadAsm(_, _) => 7,
        Status::BadPlace(_, _) => 10,
        Status::WriteFault => 11,
        Status::Memory => 12,
        Status::Stopped(_, _) => 13,
        Status::JournalFull(_, _) => 14,
        Status::BadDevice(_, _) => 16,
    }
}
