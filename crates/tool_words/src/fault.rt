//! Why the program stops.
use crate::limits::Beyond;
use file_device::FileFault;
use flash_volume::{Error, LeaveFault as VolumeFault, Stage};
use image_reading::ReadFault;
use named_reading::NameRefusal;
use std::alloc::{AllocError, AllocFailed, Global};
use std::io;
use tool_disk::DiskFault;

/// Why the program stops.
#[derive(Drop)]
pub enum Fault {
    /// A word of the call is no text.
    NoWords,
    /// Standard output failed.
    Output(io::Error),
    /// Standard output failed when this was done.
    Untold(&'static str, io::Error),
    /// Standard input failed.
    Input(io::Error),
    /// A file or a folder of the system's, of this path, failed.
    File(String, io::Error),
    /// A file of this path is there that would be written over.
    FileThere(String),
    /// There is no ordinary file in the folder of this path.
    NoFiles(String),
    /// The image file could not be read, written or made.
    Image(io::Error),
    /// Another program has the image file open.
    Busy,
    /// The image is no ordinary file.
    NotAFile,
    /// A number of the volume that is to be made is beyond its limits.
    Beyond(Beyond),
    /// The volume was not made, and no image file is left.
    Unmade(Error),
    /// What is to be put is longer than the image.
    TooLong,
    /// The volume, or its image, was refused.
    Volume(Error),
    /// The device failed when the last checkpoint was written.
    Unsettled,
    /// A command on names was refused.
    Name(NameRefusal),
    /// A command on this name was refused.
    Named(String, NameRefusal),
    /// A file was deleted, and then its name could not be removed.
    NameStays(Error),
    /// The client's bytes could not be read, or it not be answered, before it was served.
    Client(io::Error),
    /// The disk of a name was not served.
    Disk(String, DiskFault),
}

impl From<FileFault> for Fault {
    fn from(fault: FileFault) -> Fault {
        match fault {
            FileFault::Io(error) => Fault::Image(error),
            FileFault::Busy => Fault::Busy,
            FileFault::NoFile => Fault::NotAFile,
            FileFault::Refused(error) => Fault::Volume(error),
        }
    }
}

impl From<ReadFault> for Fault {
    fn from(fault: ReadFault) -> Fault {
        match fault {
            ReadFault::Io(error) => Fault::Image(error),
            ReadFault::Out(error) => Fault::Output(error),
            ReadFault::Refused(error) => Fault::Volume(error),
        }
    }
}

impl<M: Drop, B: Drop> From<VolumeFault<M, B>> for Fault {
    fn from(fault: VolumeFault<M, B>) -> Fault {
        Fault::of_volume(fault.stage, fault.error)
    }
}

impl From<Error> for Fault {
    fn from(error: Error) -> Fault {
        Fault::Volume(error)
    }
}

impl From<NameRefusal> for Fault {
    fn from(refusal: NameRefusal) -> Fault {
        Fault::Name(refusal)
    }
}

// What a command writes without a name is standard output.
impl From<io::Error> for Fault {
    fn from(error: io::Error) -> Fault {
        Fault::Output(error)
    }
}

impl From<AllocError> for Fault {
    fn from(_error: AllocError) -> Fault {
        Fault::Volume(Error::NoMemory)
    }
}

impl<T: Drop> From<AllocFailed<T>> for Fault {
    fn from(_error: AllocFailed<T>) -> Fault {
        Fault::Volume(Error::NoMemory)
    }
}

impl Fault {
    /// Why work on a volume was refused, at this stage.
    pub fn of_volume(stage: Stage, error: Error) -> Fault {
        if stage == Stage::Close && error == Error::Device {
            Fault::Unsettled
        } else {
            Fault::Volume(error)
        }
    }

    /// What became of writing to standard output. That nobody reads it any more is no failure: then a status stays what it is.
    pub fn of_output(told: io::Result<()>) -> Result<(), Fault> {
        match told {
            Err(error) if error.kind() != io::ErrorKind::BrokenPipe => Err(Fault::Output(error)),
            _ => Ok(()),
        }
    }

    /// Why a file or a folder of the system's, of this path, was not read, made or written.
    pub fn of_file(alloc: Global, path: &str, error: io::Error) -> Fault {
        let Ok(path) = String::from_str(alloc, path) else {
            return Fault::Volume(Error::NoMemory);
        };
        match error.kind() {
            io::ErrorKind::AlreadyExists => Fault::FileThere(path),
            _ => Fault::File(path, error),
        }
    }

    /// Why a command on this name was refused.
    pub fn of_name(alloc: Global, name: &str, refusal: NameRefusal) -> Fault {
        match String::from_str(alloc, name) {
            Ok(name) => Fault::Named(name, refusal),
            Err(_) => Fault::Volume(Error::NoMemory),
        }
    }

    /// Why the disk of a name was not served.
    pub fn of_disk(alloc: Global, disk: &str, fault: DiskFault) -> Fault {
        match fault {
            DiskFault::Volume(stage, error) => Fault::of_volume(stage, error),
            DiskFault::Stream(error) => Fault::Client(error),
            fault => match String::from_str(alloc, disk) {
                Ok(disk) => Fault::Disk(disk, fault),
                Err(_) => Fault::Volume(Error::NoMemory),
            },
        }
    }

    /// The same, where this was done before standard output failed.
    pub fn after(self, done: Option<&'static str>) -> Fault {
        match (self, done) {
            (Fault::Output(error), Some(done)) => Fault::Untold(done, error),
            (fault, _) => fault,
        }
    }

    /// Whether nobody reads standard output any more, which is no fault of the program's.
    pub fn is_closed_pipe(&self) -> bool {
        match self {
            Fault::Output(error) | Fault::Untold(_, error) => {
                error.kind() == io::ErrorKind::BrokenPipe
            }
            _ => false,
        }
    }
}
