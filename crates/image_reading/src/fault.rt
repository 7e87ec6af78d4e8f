//! Why an image file was not read.
ghost use Rattle.std.specs.Prelude.{◌≡◌};
ghost use Rattle.geometry.specs.declared.error.Error.TheVariants.{NoMemory};
ghost use Rattle.image_reading.specs.declared.fault.ReadFault.TheVariants.{Io, Refused};

use geometry::Error;
use std::alloc::{AllocError, AllocFailed};
use std::io;

/// Why an image file was not read.
#[derive(Debug, Drop)]
pub enum ReadFault {
    /// It could not be read.
    Io(io::Error),
    /// The writer that was handed its bytes failed.
    Out(io::Error),
    /// NoMemory, or what is wrong with the image.
    Refused(Error),
}

impl From<io::Error> for ReadFault {
    ghost from_gives = { λ error fault. fault ≡ Io error };

    fn from(error: io::Error) -> ReadFault {
        ReadFault::Io(error)
    }
}

impl From<Error> for ReadFault {
    ghost from_gives = { λ error fault. fault ≡ Refused error };

    fn from(error: Error) -> ReadFault {
        ReadFault::Refused(error)
    }
}

impl From<AllocError> for ReadFault {
    ghost from_gives = { λ _ fault. fault ≡ Refused NoMemory };

    fn from(_error: AllocError) -> ReadFault {
        ReadFault::Refused(Error::NoMemory)
    }
}

impl<T: Drop> From<AllocFailed<T>> for ReadFault {
    ghost from_gives = { λ _ fault. fault ≡ Refused NoMemory };

    fn from(_failed: AllocFailed<T>) -> ReadFault {
        ReadFault::Refused(Error::NoMemory)
    }
}
