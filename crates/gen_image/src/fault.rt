//! Why no image is generated.

ghost use Rattle.std.specs.Prelude.{◌≡◌};
ghost use Rattle.gen_image.specs.declared.fault.GenFault.TheVariants as faults;

use std::alloc::{AllocError, AllocFailed};
use thiserror::Error;

/// Why no image is generated.
#[derive(Debug, Drop, Error, PartialEq, Eq)]
pub enum GenFault {
    /// The size is 0, or above 64.
    #[error("the size is not from 1 to 64")]
    SizeLimit,
    /// There is no memory for the image.
    #[error("there is not enough memory")]
    Memory,
}

impl From<AllocError> for GenFault {
    ghost from_gives = { λ _ e. e ≡ faults.Memory };

    fn from(_e: AllocError) -> GenFault {
        GenFault::Memory
    }
}
