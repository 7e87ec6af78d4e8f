//! Why an image file was not made or opened.
use geometry::Error;
use std::alloc::{AllocError, AllocFailed};
use std::io;

/// Why an image file was not made or opened.
#[derive(Debug, Drop)]
pub enum FileFault {
    /// The file could not be made, opened, locked, read or settled.
    Io(io::Error),
    /// Somebody else has it open.
    Busy,
    /// It is no ordinary file, but a folder, a pipe or a device.
    NoFile,
    /// NoMemory; or BadGeometry, where the file begins with no superblock; or BadImage(1), where it has another size than its
    /// superblock tells.
    Refused(Error),
}

impl From<io::Error> for FileFault {
    fn from(error: io::Error) -> FileFault {
        match error.kind() {
            io::ErrorKind::OutOfMemory => FileFault::Refused(Error::NoMemory),
            _ => FileFault::Io(error),
        }
    }
}

impl From<Error> for FileFault {
    fn from(error: Error) -> FileFault {
        FileFault::Refused(error)
    }
}

impl From<AllocError> for FileFault {
    fn from(_error: AllocError) -> FileFault {
        FileFault::Refused(Error::NoMemory)
    }
}

impl<T: Drop> From<AllocFailed<T>> for FileFault {
    fn from(_error: AllocFailed<T>) -> FileFault {
        FileFault::Refused(Error::NoMemory)
    }
}
