//! The bytes of files, to standard output or to a new file.
use crate::fault::Fault;
use crate::image_run::open_volume;
use crate::new_file::{keep_whole, make_new};
use crate::window::Window;
use image_reading::{FileSource, ReadFault};
use named_reading::{NameRefusal, OpenVolume};
use std::alloc::Global;
use std::fs::{File, Files};
use std::io::Write;
use std::time::Clock;
use tool_syntax::{ImageFile, Portion};

/// Which file is got: by name, or where there is none by number.
#[derive(Clone, Copy)]
pub struct Wanted<'a> {
    pub name: Option<&'a str>,
    pub number: u32,
    pub part: Portion,
}

/// Writes the bytes of a file, or a part of them, to `out`; or to a new file of the system's, where one is named.
pub fn get<R: AllocGlobal + Clock + Files<File = File>, O: Write>(
    rt: &R,
    image: ImageFile<'_>,
    wanted: Wanted<'_>,
    to: Option<&str>,
    out: &mut O,
) -> Result<(), Fault> {
    let mut volume = open_volume(rt, image)?;
    match to {
        Some(path) => {
            let mut file = make_new(rt, path)?;
            let written = hand_out(rt.alloc(), &mut volume, wanted, &mut file);
            keep_whole(rt, path, written)
        }
        None => hand_out(rt.alloc(), &mut volume, wanted, out),
    }
}

/// Writes the bytes of files to `out`, one after the other.
pub fn concatenate<R: AllocGlobal + Clock + Files<File = File>, O: Write>(
    rt: &R,
    image: ImageFile<'_>,
    names: &[&str],
    out: &mut O,
) -> Result<(), Fault> {
    let mut volume = open_volume(rt, image)?;
    for name in names {
        let wanted = Wanted {
            name: Some(*name),
            number: 0,
            part: Portion::ALL,
        };
        hand_out(rt.alloc(), &mut volume, wanted, out)?;
    }
    Ok(())
}

// Writes what is wanted of a file.
fn hand_out<O: Write>(
    alloc: Global,
    volume: &mut OpenVolume<FileSource>,
    wanted: Wanted<'_>,
    out: &mut O,
) -> Result<(), Fault> {
    let Portion { offset, length } = wanted.part;
    let mut window = Window {
        out,
        skip: offset,
        left: length,
    };
    let told = match wanted.name {
        Some(name) => volume.get(alloc, name, &mut window),
        None => volume.get_number(alloc, wanted.number, &mut window),
    };
    match told {
        Ok(Ok(())) => Ok(()),
        Ok(Err(refusal)) => Err(refused(alloc, wanted, refusal)),
        // The window is done, and takes no more.
        Err(ReadFault::Out(_)) if window.left == 0 => Ok(()),
        Err(fault) => Err(Fault::from(fault)),
    }
}

// Why a file was not got, with its name or number.
fn refused(alloc: Global, wanted: Wanted<'_>, refusal: NameRefusal) -> Fault {
    match wanted.name {
        Some(name) => Fault::of_name(alloc, name, refusal),
        None => match format!(in alloc; "file {}", wanted.number) {
            Ok(name) => Fault::of_name(alloc, name.as_str(), refusal),
            Err(error) => Fault::from(error),
        },
    }
}
