//! Why a call was refused.
ghost use Rattle.std.specs.Prelude.{◌≡◌, ℕ};
ghost use Rattle.geometry.specs.declared.error.Error.TheVariants.{NoMemory};

use std::alloc::{AllocError, AllocFailed};
use thiserror::Error;

/// Why a call was refused. Each refusal has a number of its own, from 1 to 14 in this order.
#[derive(Clone, Copy, Debug, PartialEq, Eq, Error)]
pub enum Error {
    /// A growth was refused.
    #[error("no memory")]
    NoMemory,
    /// The device failed during the call, and counted it.
    #[error("the device failed")]
    Device,
    /// Each queue of free segments that the call may draw on was empty.
    #[error("no free segment")]
    NoSpace,
    /// Every inode number is taken.
    #[error("no free inode number")]
    NoFile,
    /// Every other node number is taken.
    #[error("no free node number")]
    NoNode,
    /// The index is at or past the largest length of a file.
    #[error("the index is too far")]
    TooFar,
    /// The bytes are not those of one block.
    #[error("the bytes are not one block")]
    BadLength,
    /// A pack write failed since the volume was opened.
    #[error("a checkpoint failed before")]
    Wounded,
    /// A number is beyond its limits, or the superblock is not of its grammar.
    #[error("the geometry is bad")]
    BadGeometry,
    /// Neither checkpoint pack is sound.
    #[error("no checkpoint pack is sound")]
    NoPack,
    /// The image has this fault, the least that is there.
    #[error("the image has fault {0}")]
    BadImage(u8),
    /// So many passes of files were not handed in.
    #[error("{0} passes are out")]
    PassesOut(u32),
    /// So many seats of readers were not handed in.
    #[error("{0} seats are out")]
    SeatsOut(u32),
    /// The version is the largest that there is.
    #[error("no version is left")]
    Exhausted,
}

impl Error {
    ghost use Rattle.geometry.specs.Refusal.{number_of};

    /// The refusal's number, from 1 to 14.
    pub fn number(self) -> u8
        ensures { result ≡ number_of self }
    {
        match self {
            Error::NoMemory => 1,
            Error::Device => 2,
            Error::NoSpace => 3,
            Error::NoFile => 4,
            Error::NoNode => 5,
            Error::TooFar => 6,
            Error::BadLength => 7,
            Error::Wounded => 8,
            Error::BadGeometry => 9,
            Error::NoPack => 10,
            Error::BadImage(_) => 11,
            Error::PassesOut(_) => 12,
            Error::SeatsOut(_) => 13,
            Error::Exhausted => 14,
        }
    }
}

impl From<AllocError> for Error {
    ghost from_gives = { λ _ e. e ≡ NoMemory };

    fn from(_error: AllocError) -> Error {
        Error::NoMemory
    }
}

impl<T: Drop> From<AllocFailed<T>> for Error {
    ghost from_gives = { λ _ e. e ≡ NoMemory };

    fn from(_error: AllocFailed<T>) -> Error {
        Error::NoMemory
    }
}
