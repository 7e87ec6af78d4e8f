//! Many files at once, into a folder of the system.
use crate::asking::has_file;
use crate::fault::Fault;
use crate::image_run::open_volume;
use crate::new_file::{keep_whole, make_new};
use crate::screen::Screen;
use crate::shown::EscapedText;
use image_reading::FileSource;
use named_folder::{FOLDER, FolderRow, is_name};
use named_reading::{Listing, OpenVolume};
use std::fs;
use std::fs::{File, Files};
use std::io::Write;
use std::rt::Runtime;
use tool_syntax::ImageFile;

/// Writes each file of a volume into a folder, which is made where there is none: under its name, or as `file-N` where the folder
/// of the volume has no name for it that a system takes. Where a file of such a name is there nothing is written. Where one can't be
/// written it stops: that file is not there, and those before it are.
///
/// A name whose file is gone is told on `errors`, and then the status that is answered is 1 in place of 0.
pub fn dump<R: Runtime + AllocGlobal + Files<File = File>, E: Write>(
    rt: &R,
    screen: Screen,
    image: ImageFile<'_>,
    folder: &str,
    errors: &mut E,
) -> Result<u8, Fault> {
    let mut volume = open_volume(rt, image)?;
    let listing = volume.list(rt.alloc())?;
    let plan = plan_of(rt, &listing, folder)?;
    if let Err(error) = fs::create_dir_all(rt, folder) {
        return Err(Fault::of_file(rt.alloc(), folder, error));
    }
    for planned in &plan {
        screen.tell(errors, "dump", planned.path.as_str());
        let written = dump_file(rt, &mut volume, planned);
        if written.is_err() {
            screen.clear(errors);
        }
        written?;
    }
    screen.clear(errors);
    Ok(tell_gone(&listing, errors))
}

// A file of the volume, and the path that it is to have.
#[derive(Drop)]
struct Planned<'a> {
    name: Option<&'a str>,
    number: u32,
    path: String,
}

// All files with their paths. Refuses a path where a file is.
fn plan_of<'a, R: AllocGlobal + Files<File = File>>(
    rt: &R,
    listing: &'a Listing,
    folder: &str,
) -> Result<Vec<Planned<'a>>, Fault> {
    let mut plan = Vec::new(rt.alloc());
    for entry in named(listing) {
        let name = entry.name.as_str();
        if is_name(name) && has_file(listing, entry.number) {
            plan.push(Planned {
                name: Some(name),
                number: entry.number,
                path: format!(in rt.alloc(); "{folder}/{name}")?,
            })?;
        }
    }
    for file in &listing.files {
        let number = file.number;
        if is_unnamed(listing, number) {
            plan.push(Planned {
                name: None,
                number,
                path: format!(in rt.alloc(); "{folder}/file-{number}")?,
            })?;
        }
    }
    for planned in &plan {
        refuse_there(rt, planned.path.as_str())?;
    }
    Ok(plan)
}

// Refuses a path where a file is, or a link that leads nowhere.
fn refuse_there<R: AllocGlobal + Files<File = File>>(rt: &R, path: &str) -> Result<(), Fault> {
    if fs::symlink_metadata(rt, path).is_err() {
        return Ok(());
    }
    match String::from_str(rt.alloc(), path) {
        Ok(path) => Err(Fault::FileThere(path)),
        Err(error) => Err(Fault::from(error)),
    }
}

fn dump_file<R: Runtime + AllocGlobal + Files<File = File>>(
    rt: &R,
    volume: &mut OpenVolume<FileSource>,
    planned: &Planned<'_>,
) -> Result<(), Fault> {
    let path = planned.path.as_str();
    let mut file = make_new(rt, path)?;
    let written = match planned.name {
        Some(name) => volume.get(rt.alloc(), name, &mut file),
        None => volume.get_number(rt.alloc(), planned.number, &mut file),
    };
    let written = match written {
        Ok(Ok(())) => Ok(()),
        Ok(Err(refusal)) => Err(Fault::from(refusal)),
        Err(fault) => Err(Fault::from(fault)),
    };
    keep_whole(rt, path, written)
}

// Tells the names whose files are gone. Answers the status: 1 where there is one.
fn tell_gone<E: Write>(listing: &Listing, errors: &mut E) -> u8 {
    let mut status = 0;
    for entry in named(listing) {
        if !has_file(listing, entry.number) {
            let name = EscapedText(entry.name.as_str());
            let _ = writeln!(errors, "rusziveg: {name} is skipped: its file is gone");
            status = 1;
        }
    }
    status
}

fn named(listing: &Listing) -> &[FolderRow] {
    match &listing.named {
        Some(entries) => entries.as_slice(),
        None => &[],
    }
}

// Whether a file is to be written under its number.
fn is_unnamed(listing: &Listing, number: u32) -> bool {
    if number == FOLDER && listing.named.is_some() {
        return false;
    }
    !named(listing).iter().any(|entry| entry.number == number && is_name(entry.name.as_str()))
}
