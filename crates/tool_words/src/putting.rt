//! A file is put, copied, or made longer.
use crate::asking::{ask_for_room, ask_to_append, ask_to_put};
use crate::fault::Fault;
use crate::image_run::{image_length, now, open_parts, open_volume};
use crate::making_room::{append_making_room, put_making_room};
use crate::opener::Opener;
use flash_volume::Error;
use image_reading::ReadFault;
use named_files::{Append, Put};
use named_folder::is_name;
use named_reading::NameRefusal;
use std::fs::{File, Files};
use std::io::Read;
use std::rt::Runtime;
use std::sync::Wait;
use std::time::Clock;
use tool_syntax::ImageFile;

/// A file that was put: its number, and how many bytes it has.
#[derive(Clone, Copy)]
pub struct PutFile {
    pub number: u32,
    pub bytes: usize,
}

/// Makes what a file of the system's has, or where none is named what standard input has, the file of a name. Unless it replaces, a name
/// that is there is refused.
pub fn put<P: Opener, R: Runtime + AllocGlobal + Wait + Files<File = File>, I: Read>(
    rt: &R,
    opener: &P,
    image: ImageFile<'_>,
    name: &str,
    file: Option<&str>,
    replaces: bool,
    input: &mut I,
) -> Result<PutFile, Fault> {
    if !is_name(name) {
        return Err(Fault::of_name(rt.alloc(), name, NameRefusal::BadName));
    }
    let bytes = read_bytes(rt, image, file, input)?;
    ask_to_put(rt, image, if replaces { None } else { Some(name) })?;
    put_bytes(rt, opener, image, name, bytes.as_slice(), replaces)
}

/// Puts what a file of the system's has, or where none is named what standard input has, behind what the file of a name has. Answers how
/// many bytes that is.
pub fn append<P: Opener, R: Runtime + AllocGlobal + Wait + Files<File = File>, I: Read>(
    rt: &R,
    opener: &P,
    image: ImageFile<'_>,
    name: &str,
    file: Option<&str>,
    input: &mut I,
) -> Result<PutFile, Fault> {
    let bytes = read_bytes(rt, image, file, input)?;
    ask_to_put(rt, image, None)?;
    ask_to_append(rt, image, name, bytes.len() as u64)?;
    let parts = open_parts(rt, opener, image)?;
    let work = Append {
        name,
        bytes: bytes.as_slice(),
        now: now(rt),
    };
    let answer = append_making_room(rt, parts, work)?;
    put_file(rt, name, bytes.len(), answer)
}

/// Makes what a file has the file of another name too. Unless it replaces, a name that is there is refused.
pub fn copy<P: Opener, R: Runtime + AllocGlobal + Wait + Files<File = File>>(
    rt: &R,
    opener: &P,
    image: ImageFile<'_>,
    name: &str,
    to: &str,
    replaces: bool,
) -> Result<PutFile, Fault> {
    if !is_name(to) {
        return Err(Fault::of_name(rt.alloc(), to, NameRefusal::BadName));
    }
    let bytes = bytes_of(rt, image, name)?;
    ask_to_put(rt, image, if replaces { None } else { Some(to) })?;
    put_bytes(rt, opener, image, to, bytes.as_slice(), replaces)
}

// Makes bytes the file of a name.
fn put_bytes<P: Opener, R: Runtime + AllocGlobal + Wait + Files<File = File>>(
    rt: &R,
    opener: &P,
    image: ImageFile<'_>,
    name: &str,
    bytes: &[u8],
    replaces: bool,
) -> Result<PutFile, Fault> {
    ask_for_room(rt, image, name, bytes.len() as u64)?;
    let parts = open_parts(rt, opener, image)?;
    let work = Put {
        name,
        bytes,
        replaces,
        now: now(rt),
    };
    let (_parts, answer) = put_making_room(rt, parts, work)?;
    put_file(rt, name, bytes.len(), answer)
}

// The file of a name that got so many bytes, or why it was refused.
fn put_file<R: AllocGlobal>(
    rt: &R,
    name: &str,
    bytes: usize,
    answer: Result<u32, NameRefusal>,
) -> Result<PutFile, Fault> {
    match answer {
        Ok(number) => Ok(PutFile { number, bytes }),
        Err(refusal) => Err(Fault::of_name(rt.alloc(), name, refusal)),
    }
}

// All bytes of a file. The image is let go.
fn bytes_of<R: AllocGlobal + Clock + Files<File = File>>(
    rt: &R,
    image: ImageFile<'_>,
    name: &str,
) -> Result<Vec<u8>, Fault> {
    let mut bytes = Vec::new(rt.alloc());
    match open_volume(rt, image)?.get(rt.alloc(), name, &mut bytes) {
        Ok(Ok(())) => Ok(bytes),
        Ok(Err(refusal)) => Err(Fault::of_name(rt.alloc(), name, refusal)),
        // What is in memory fails for want of it alone.
        Err(ReadFault::Out(_)) => Err(Fault::Volume(Error::NoMemory)),
        Err(fault) => Err(Fault::from(fault)),
    }
}

// What a file of the system's has, or where none is named standard input. Refuses as many bytes as the image has: no file of it is as
// long.
fn read_bytes<R: AllocGlobal + Files<File = File>, I: Read>(
    rt: &R,
    image: ImageFile<'_>,
    file: Option<&str>,
    input: &mut I,
) -> Result<Vec<u8>, Fault> {
    let most = image_length(rt, image.path)?;
    let bytes = match file {
        Some(path) => read_file(rt, path, most)?,
        None => read_input(rt, input, most)?,
    };
    if bytes.len() as u64 >= most {
        return Err(Fault::TooLong);
    }
    Ok(bytes)
}

// What standard input has, so many bytes at most.
fn read_input<R: AllocGlobal, I: Read>(rt: &R, input: &mut I, most: u64) -> Result<Vec<u8>, Fault> {
    let mut bytes = Vec::new(rt.alloc());
    match input.by_ref().take(most).read_to_end(&mut bytes) {
        Ok(_) => Ok(bytes),
        Err(error) => Err(Fault::Input(error)),
    }
}

/// What a file of the system's has, so many bytes at most.
pub fn read_file<R: AllocGlobal + Files<File = File>>(
    rt: &R,
    path: &str,
    most: u64,
) -> Result<Vec<u8>, Fault> {
    let mut bytes = Vec::new(rt.alloc());
    let read = match File::open(rt, path) {
        Ok(mut file) => file.by_ref().take(most).read_to_end(&mut bytes),
        Err(error) => Err(error),
    };
    match read {
        Ok(_) => Ok(bytes),
        Err(error) => Err(Fault::of_file(rt.alloc(), path, error)),
    }
}
