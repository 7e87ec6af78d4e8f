//! Bytes that become those of a file, all of them or none.
use std::alloc::Global;
use std::fs::{File, Files, OpenFile, OpenOptions};
use std::io::Write;
use std::{fs, io};

// How many names are tried for a file beside another.
const NAMES: u32 = 100;

/// The bytes become those of the file at the path. They are written to a new file beside it and settled, and that file takes its
/// place: so the old bytes stay where a write fails, and no other file is left behind. What is no ordinary file, as a pipe, a
/// device or a link, is written to as it stands.
pub fn save<R: Files>(rt: &R, alloc: Global, path: &str, bytes: &[u8]) -> io::Result<()> {
    let found = fs::symlink_metadata(rt, path).ok();
    if let Some(found) = &found
        && !found.is_file()
    {
        return File::create(rt, path)?.write_all(bytes);
    }
    let (mut file, beside) = new_file(rt, alloc, path)?;
    let written = match found {
        Some(found) => file.set_permissions(found.permissions()),
        None => Ok(()),
    };
    let written = written
        .and_then(|()| file.write_all(bytes))
        .and_then(|()| file.sync_all())
        .and_then(|()| fs::rename(rt, beside.as_str(), path));
    if written.is_err() {
        // What can't be removed either stays.
        let _ = fs::remove_file(rt, beside.as_str());
    }
    written
}

// A new file beside the one at the path, and its name.
fn new_file<R: Files>(rt: &R, alloc: Global, path: &str) -> io::Result<(R::File, String)> {
    for number in 0..NAMES {
        let name = format!(in alloc; "{path}.{number}.new")?;
        let made = OpenOptions::new()
            .write(true)
            .create_new(true)
            .open(rt, name.as_str());
        match made {
            Ok(file) => return Ok((file, name)),
            Err(error) if error.kind() == io::ErrorKind::AlreadyExists => {}
            Err(error) => return Err(error),
        }
    }
    Err(io::Error::from(io::ErrorKind::AlreadyExists))
}
