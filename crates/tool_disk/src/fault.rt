//! Why a disk is not served.
use flash_volume::{Error, LeaveFault as VolumeFault, Stage};
use named_reading::NameRefusal;
use std::alloc::{AllocError, AllocFailed};
use std::io;

/// Why a disk is not served, or not to the end.
#[derive(Drop)]
pub enum DiskFault {
    /// The volume has no disk of the name, and no size was told for a new one.
    NoDisk,
    /// The disk has so many bytes, and others were told.
    OtherSize(u64),
    /// A disk's bytes are a number of whole blocks, of so many bytes each, and not none.
    OddSize(u32),
    /// A file that has the name of a part of the disk is none: it has another length than the others tell.
    Broken,
    /// A work on the folder, or on the disk's files, was refused.
    Files(NameRefusal),
    /// The volume was refused, or a call on it, at this stage.
    Volume(Stage, Error),
    /// What the client sends could not be read, or what it is sent not be written, before it was served.
    Stream(io::Error),
}

impl<M: Drop, B: Drop> From<VolumeFault<M, B>> for DiskFault {
    fn from(fault: VolumeFault<M, B>) -> DiskFault {
        DiskFault::Volume(fault.stage, fault.error)
    }
}

impl From<NameRefusal> for DiskFault {
    fn from(refusal: NameRefusal) -> DiskFault {
        DiskFault::Files(refusal)
    }
}

impl From<io::Error> for DiskFault {
    fn from(error: io::Error) -> DiskFault {
        DiskFault::Stream(error)
    }
}

impl From<AllocError> for DiskFault {
    fn from(_error: AllocError) -> DiskFault {
        DiskFault::Volume(Stage::Work, Error::NoMemory)
    }
}

impl<T: Drop> From<AllocFailed<T>> for DiskFault {
    fn from(_error: AllocFailed<T>) -> DiskFault {
        DiskFault::Volume(Stage::Work, Error::NoMemory)
    }
}
