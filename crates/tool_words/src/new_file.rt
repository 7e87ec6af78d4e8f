//! New files of the system, which are whole or are not there.
use crate::fault::Fault;
use crate::sparse::Sparse;
use file_device::settle_folder;
use std::fs::{File, Files};
use std::{fs, io};

// How many names are tried for a file beside another.
const NAMES: u32 = 100;

/// Makes a file where none is.
pub fn make_new<R: AllocGlobal + Files<File = File>>(rt: &R, path: &str) -> Result<File, Fault> {
    match File::create_new(rt, path) {
        Ok(file) => Ok(file),
        Err(error) => Err(Fault::of_file(rt.alloc(), path, error)),
    }
}

/// Hands on what became of a file that was made. Where writing it failed it is removed, so that no part of it is taken for the whole,
/// and its path is named.
pub fn keep_whole<R: AllocGlobal + Files<File = File>>(
    rt: &R,
    path: &str,
    written: Result<(), Fault>,
) -> Result<(), Fault> {
    match written {
        Ok(()) => Ok(()),
        Err(fault) => {
            // What can't be removed either stays.
            let _ = fs::remove_file(rt, path);
            match fault {
                Fault::Output(error) => Err(Fault::of_file(rt.alloc(), path, error)),
                other => Err(other),
            }
        }
    }
}

/// A new file that has no name of its own yet, but one beside it.
#[derive(Drop)]
pub struct UnnamedFile {
    /// What is written to it.
    pub bytes: Sparse,
    beside: String,
}

impl UnnamedFile {
    /// Makes a file beside the one of a path. Where there is a file of that path, that is FileThere, and none is made.
    pub fn beside<R: AllocGlobal + Files<File = File>>(
        rt: &R,
        path: &str,
    ) -> Result<UnnamedFile, Fault> {
        refuse_there(rt, path)?;
        for number in 0..NAMES {
            let beside = format!(in rt.alloc(); "{path}.{number}.new")?;
            match File::create_new(rt, beside.as_str()) {
                Ok(file) => {
                    let bytes = Sparse::of(file);
                    return Ok(UnnamedFile { bytes, beside });
                }
                Err(error) if error.kind() == io::ErrorKind::AlreadyExists => {}
                Err(error) => return Err(Fault::of_file(rt.alloc(), path, error)),
            }
        }
        let error = io::Error::from(io::ErrorKind::AlreadyExists);
        Err(Fault::of_file(rt.alloc(), path, error))
    }

    /// Settles the bytes, and then gives the file the name of a path, which no file has. Where that fails no file is left.
    pub fn settle_as<R: AllocGlobal + Files<File = File>>(
        self,
        rt: &R,
        path: &str,
    ) -> Result<(), Fault> {
        let settled = self.bytes.settle();
        if let Err(error) = settled.and_then(|()| name_new(rt, self.beside.as_str(), path)) {
            let fault = Fault::of_file(rt.alloc(), path, error);
            return Err(self.drop_for(rt, path, fault));
        }
        if let Err(error) = settle_folder(rt, path) {
            // What can't be removed either stays.
            let _ = fs::remove_file(rt, path);
            return Err(Fault::of_file(rt.alloc(), path, error));
        }
        Ok(())
    }

    /// Removes the file, since writing it failed so. Where it was the file that failed its path is named.
    pub fn drop_for<R: AllocGlobal + Files<File = File>>(
        self,
        rt: &R,
        path: &str,
        fault: Fault,
    ) -> Fault {
        // What can't be removed either stays.
        let _ = fs::remove_file(rt, self.beside.as_str());
        match fault {
            Fault::Output(error) => Fault::of_file(rt.alloc(), path, error),
            other => other,
        }
    }
}

// Refuses a path that a file has.
fn refuse_there<R: AllocGlobal + Files<File = File>>(rt: &R, path: &str) -> Result<(), Fault> {
    if fs::symlink_metadata(rt, path).is_err() {
        return Ok(());
    }
    let error = io::Error::from(io::ErrorKind::AlreadyExists);
    Err(Fault::of_file(rt.alloc(), path, error))
}

// Gives a file another name, which no file has. A link is refused where one has it. Where the system knows no links, the file is renamed.
fn name_new<R: Files<File = File>>(rt: &R, old: &str, new: &str) -> io::Result<()> {
    match fs::hard_link(rt, old, new) {
        Ok(()) => {
            // A name that can't be removed stays beside the new one.
            let _ = fs::remove_file(rt, old);
            Ok(())
        }
        Err(error) if error.kind() == io::ErrorKind::AlreadyExists => Err(error),
        Err(_) if fs::symlink_metadata(rt, new).is_ok() => {
            Err(io::Error::from(io::ErrorKind::AlreadyExists))
        }
        Err(_) => fs::rename(rt, old, new),
    }
}
