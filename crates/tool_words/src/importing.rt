//! The files of a folder of the system are put.
ghost use Rattle.std.specs.Prelude.{ℕ, ◌<◌, IfOk, IfSome};
ghost use Rattle.device.specs.Parts.{IsBlockRun};

use crate::asking::ask_to_put;
use crate::fault::Fault;
use crate::image_run::{image_length, now, open_parts};
use crate::making_room::put_making_room;
use crate::opener::Opener;
use crate::putting::read_file;
use crate::screen::Screen;
use crate::shown::EscapedText;
use crate::window::Patient;
use flash_volume::{Block, Error, Leave, Meta, Parts, Stage, work_on};
use named_files::{NewFile, Put, PutAll};
use named_folder::is_name;
use named_reading::NameRefusal;
use std::alloc::{AllocError, Global};
use std::cell::Cell;
use std::fs::{File, FileType, Files};
use std::io::Write;
use std::rt::Runtime;
use std::sync::Wait;
use std::{fs, io};
use tool_syntax::ImageFile;

/// Puts each ordinary file of a folder of the system under its name, in the order of the names, and tells on `out` which were put.
/// Each is put whole or not at all. Where one is refused it stops, names it on `errors`, and those before it are there.
///
/// What is no ordinary file is left out and named on `errors`, and then the status that is answered is 1 in place of 0.
///
/// The volume is mounted, and its folder written, once for all of them, where they have no more bytes than the image and none is refused.
/// Where `out` fails the files are put nevertheless, and then that is answered.
pub fn import<P: Opener, R: Runtime + AllocGlobal + Wait + Files<File = File>, O: Write, E: Write>(
    rt: &R,
    opener: &P,
    screen: Screen,
    image: ImageFile<'_>,
    folder: &str,
    out: &mut O,
    errors: &mut E,
) -> Result<u8, Fault> {
    let mut names = Vec::new(rt.alloc());
    let status = find_names(rt, folder, &mut names, errors)?;
    names.sort()?;
    let names = names.as_slice();
    import_names(rt, opener, screen, image, folder, names, out, errors)?;
    Ok(status)
}

// Puts the files of these names.
fn import_names<
    P: Opener,
    R: Runtime + AllocGlobal + Wait + Files<File = File>,
    O: Write,
    E: Write,
>(
    rt: &R,
    opener: &P,
    screen: Screen,
    image: ImageFile<'_>,
    folder: &str,
    names: &[String],
    out: &mut O,
    errors: &mut E,
) -> Result<(), Fault> {
    let most = image_length(rt, image.path)?;
    ask_to_put(rt, image, None)?;
    let parts = open_parts(rt, opener, image)?;
    screen.tell(errors, "import", folder);
    let mut told = Patient { out, failed: None };
    let done = import_all(rt, parts, folder, names, most, screen, &mut told, errors);
    screen.clear(errors);
    done?;
    Fault::of_output(told.outcome())
}

// Puts files, as many at once as have no more than so many bytes.
fn import_all<
    M: Meta + Drop,
    B: Block + Drop,
    R: Runtime + AllocGlobal + Wait + Files<File = File>,
    O: Write,
    E: Write,
>(
    rt: &R,
    parts: Parts<M, B>,
    folder: &str,
    names: &[String],
    most: u64,
    screen: Screen,
    out: &mut O,
    errors: &mut E,
) -> Result<(), Fault>
    requires run { (bytes : ℕ) × IsBlockRun B.address_of B.content_of bytes 1 parts.blocks.items }
{
    let mut parts = parts;
    let mut done = 0;
    while done < names.len() {
        let (_front, rest) = names.split_at(done);
        let contents = read_front(rt, folder, rest, most)?;
        let files = files_of(rt.alloc(), rest, contents.as_slice())?;
        parts = put_files(rt, parts, files.as_slice(), screen, out, errors)?;
        done += contents.len().max(1).min(rest.len());
    }
    Ok(())
}

// The bytes of the files in front: of the first, and of those behind it until there are so many bytes.
fn read_front<R: Runtime + AllocGlobal + Files<File = File>>(
    rt: &R,
    folder: &str,
    names: &[String],
    most: u64,
) -> Result<Vec<Vec<u8>>, Fault> {
    let mut contents = Vec::new(rt.alloc());
    let mut left = most;
    for name in names {
        let path = format!(in rt.alloc(); "{folder}/{name}")?;
        let bytes = read_file(rt, path.as_str(), u64::MAX)?;
        left = left.saturating_sub(bytes.len() as u64);
        contents.push(bytes)?;
        if left == 0 {
            break;
        }
    }
    Ok(contents)
}

// The files in front, whose bytes are there.
fn files_of<'a>(
    alloc: Global,
    names: &'a [String],
    contents: &'a [Vec<u8>],
) -> Result<Vec<NewFile<'a>>, AllocError> {
    let mut files = Vec::new(alloc);
    for (name, bytes) in names.iter().zip(contents) {
        files.push(NewFile {
            name: name.as_str(),
            bytes: bytes.as_slice(),
        })?;
    }
    Ok(files)
}

// Puts files, and tells each that was put.
fn put_files<M: Meta + Drop, B: Block + Drop, R: Runtime + AllocGlobal + Wait, O: Write, E: Write>(
    rt: &R,
    parts: Parts<M, B>,
    files: &[NewFile<'_>],
    screen: Screen,
    out: &mut O,
    errors: &mut E,
) -> Result<Parts<M, B>, Fault>
    requires run { (bytes : ℕ) × IsBlockRun B.address_of B.content_of bytes 1 parts.blocks.items }
    ensures run { IfOk result (λ left. (bytes : ℕ) × IsBlockRun B.address_of B.content_of bytes 1 left.blocks.items) }
{
    let mut parts = parts;
    let mut done = 0;
    while done < files.len() {
        let (_front, rest) = files.split_at(done);
        let (left, count) = put_front(rt, parts, rest, screen, out, errors)?;
        parts = left;
        done += count.max(1).min(rest.len());
    }
    Ok(parts)
}

// Puts the files in front, as many as can be put at once, and the next alone, where cleaning may make room. Answers how many.
fn put_front<M: Meta + Drop, B: Block + Drop, R: Runtime + AllocGlobal + Wait, O: Write, E: Write>(
    rt: &R,
    parts: Parts<M, B>,
    files: &[NewFile<'_>],
    screen: Screen,
    out: &mut O,
    errors: &mut E,
) -> Result<(Parts<M, B>, usize), Fault>
    requires run { (bytes : ℕ) × IsBlockRun B.address_of B.content_of bytes 1 parts.blocks.items }
    ensures run { IfOk result (λ done. (bytes : ℕ) × IsBlockRun B.address_of B.content_of bytes 1 done.0.blocks.items) }
{
    let (parts, count) = put_at_once(rt, parts, files)?;
    for file in files.iter().take(count) {
        tell_put(*file, screen, out)?;
    }
    match files.get(count) {
        Some(file) => {
            let put = put_alone(rt, parts, *file);
            if put.is_err() {
                // What was put is told before.
                out.flush()?;
                tell_refused(*file, errors);
            }
            let parts = put?;
            tell_put(*file, screen, out)?;
            Ok((parts, count.saturating_add(1)))
        }
        None => Ok((parts, count)),
    }
}

// Puts the files in front by one work, and answers how many. Where the work is refused the volume is as it was, and fewer are put.
fn put_at_once<M: Meta + Drop, B: Block + Drop, R: Runtime + AllocGlobal + Wait>(
    rt: &R,
    parts: Parts<M, B>,
    files: &[NewFile<'_>],
) -> Result<(Parts<M, B>, usize), Fault>
    requires run { (bytes : ℕ) × IsBlockRun B.address_of B.content_of bytes 1 parts.blocks.items }
    ensures run { IfOk result (λ done. (bytes : ℕ) × IsBlockRun B.address_of B.content_of bytes 1 done.0.blocks.items) }
{
    let now = now(rt);
    let mut parts = parts;
    let mut most = files.len();
    while most > 0 {
        let (front, _behind) = files.split_at(most);
        let count = Cell::new(0usize);
        let work = PutAll {
            files: front,
            count: &count,
            now,
        };
        let fault = match work_on(rt, rt.alloc(), parts, Leave::Close, work) {
            Ok(done) => return Ok((done.parts, count.get())),
            Err(fault) => fault,
        };
        let Some(fewer) = fewer_than(most, fault.stage, fault.error, count.get()) else {
            return Err(Fault::from(fault));
        };
        parts = fault.parts;
        most = fewer;
    }
    Ok((parts, 0))
}

// How many files are put where so many were refused: those before the one that failed, or half where the folder or the checkpoint had no
// room for all.
fn fewer_than(most: usize, stage: Stage, error: Error, count: usize) -> Option<usize>
    requires some { 0 < most }
    ensures fewer { IfSome result (λ fewer. fewer < most) }
{
    match stage {
        Stage::Work if count < most => Some(count),
        Stage::Work => Some(most / 2),
        Stage::Close if error == Error::NoSpace => Some(most / 2),
        _ => None,
    }
}

// Puts one file.
fn put_alone<M: Meta + Drop, B: Block + Drop, R: Runtime + AllocGlobal + Wait>(
    rt: &R,
    parts: Parts<M, B>,
    file: NewFile<'_>,
) -> Result<Parts<M, B>, Fault>
    requires run { (bytes : ℕ) × IsBlockRun B.address_of B.content_of bytes 1 parts.blocks.items }
    ensures run { IfOk result (λ left. (bytes : ℕ) × IsBlockRun B.address_of B.content_of bytes 1 left.blocks.items) }
{
    let work = Put {
        name: file.name,
        bytes: file.bytes,
        replaces: true,
        now: now(rt),
    };
    let (parts, answer) = put_making_room(rt, parts, work)?;
    match answer {
        Ok(_number) => Ok(parts),
        Err(refusal) => Err(Fault::from(refusal)),
    }
}

// Names the file that was refused.
fn tell_refused<E: Write>(file: NewFile<'_>, errors: &mut E) {
    let name = EscapedText(file.name);
    let _ = writeln!(
        errors,
        "rusziveg: {name} was not put; those before it by name were"
    );
}

fn tell_put<O: Write>(file: NewFile<'_>, screen: Screen, out: &mut O) -> Result<(), Fault> {
    if !screen.quiet {
        writeln!(
            out,
            "{} has {} bytes",
            EscapedText(file.name),
            file.bytes.len()
        )?;
    }
    Ok(())
}

// Finds the names of the ordinary files in a folder, and tells what else is in it. Answers the status: 1 where there is something else.
fn find_names<R: Runtime + AllocGlobal, E: Write>(
    rt: &R,
    folder: &str,
    names: &mut Vec<String>,
    errors: &mut E,
) -> Result<u8, Fault> {
    let mut status = 0;
    let entries = match fs::read_dir(rt, folder) {
        Ok(entries) => entries,
        Err(error) => return Err(Fault::of_file(rt.alloc(), folder, error)),
    };
    for entry in entries {
        let found = match entry {
            Ok(entry) => add_name(
                rt.alloc(),
                entry.file_name(),
                entry.file_type(),
                names,
                errors,
            ),
            Err(error) => Err(Fault::of_file(rt.alloc(), folder, error)),
        };
        if !found? {
            status = 1;
        }
    }
    if names.is_empty() {
        return match String::from_str(rt.alloc(), folder) {
            Ok(folder) => Err(Fault::NoFiles(folder)),
            Err(error) => Err(Fault::from(error)),
        };
    }
    Ok(status)
}

// Adds the name of an ordinary file. What is none is told, and answers false.
fn add_name<E: Write>(
    alloc: Global,
    name: &str,
    kind: io::Result<FileType>,
    names: &mut Vec<String>,
    errors: &mut E,
) -> Result<bool, Fault> {
    let kind = match kind {
        Ok(kind) => kind,
        Err(error) => return Err(Fault::of_file(alloc, name, error)),
    };
    if !kind.is_file() {
        let _ = writeln!(
            errors,
            "rusziveg: {} is skipped: it is {}",
            EscapedText(name),
            kind_text(&kind)
        );
        return Ok(false);
    }
    if !is_name(name) {
        return Err(Fault::of_name(alloc, name, NameRefusal::BadName));
    }
    names.push(String::from_str(alloc, name)?)?;
    Ok(true)
}

fn kind_text(kind: &FileType) -> &'static str {
    if kind.is_dir() {
        "a folder"
    } else if kind.is_symlink() {
        "a link"
    } else {
        "not a regular file"
    }
}
