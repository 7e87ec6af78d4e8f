//! What each command does.
use crate::asking::{ask_to_remove, ask_to_rename};
use crate::check::check;
use crate::fault::Fault;
use crate::folders::dump;
use crate::getting::{Wanted, concatenate, get};
use crate::image_run::{now, open_parts, run};
use crate::importing::import;
use crate::machine::Machine;
use crate::making::make;
use crate::making_room::{remove_making_room, rename_making_room};
use crate::map::map;
use crate::opener::Opener;
use crate::putting::{PutFile, append, copy, put};
use crate::room::tell_room;
use crate::screen::Screen;
use crate::serving::serve;
use crate::shown::EscapedText;
use crate::stat::{list, stat};
use crate::upgrading::upgrade_image;
use flash_volume::{Geometry, Leave, Policy};
use named_files::{Clean, Remove, Rename};
use std::fs::{File, Files};
use std::io;
use std::io::{Read, Write};
use std::rt::Runtime;
use std::sync::Wait;
use tool_syntax::{ArgumentWords, ImageFile, Task, write_completions, write_manual};

/// Does what the words ask for, and answers the exit status.
pub fn obey<P: Opener, R: Machine, I: Read + Send, O: Write + Send, E: Write>(
    rt: &R,
    opener: &P,
    screen: Screen,
    words: &ArgumentWords<'_>,
    input: &mut I,
    out: &mut O,
    errors: &mut E,
) -> Result<u8, Fault> {
    let image = words.image;
    let done = match words.task {
        Task::Check { json } => return check(rt, image, json, screen, out),
        Task::Import { folder } => return import(rt, opener, screen, image, folder, out, errors),
        Task::Dump { folder } => return dump(rt, screen, image, folder, errors),
        Task::Format(_)
        | Task::Put { .. }
        | Task::Append { .. }
        | Task::Copy { .. }
        | Task::Upgrade { .. }
        | Task::Remove
        | Task::Rename { .. } => change(rt, opener, screen, words, input, out, errors),
        Task::Get {
            name,
            number,
            file,
            part,
        } => get(rt, image, Wanted { name, number, part }, file, out),
        Task::Concatenate => concatenate(rt, image, words.names.as_slice(), out),
        Task::List { json } => list(rt, image, json, out),
        Task::Clean { background } => clean(rt, opener, screen, image, background, out, errors),
        Task::Stat { json } => stat(rt, image, json, out),
        Task::Room { json } => tell_room(rt, image, json, out),
        Task::Map { svg, json } => map(rt, screen, image, svg, json, out),
        Task::Serve(words) => serve(rt, opener, screen, image, words, input, out, errors),
        Task::Complete { shell } => text_written(write_completions(shell, out)),
        Task::Describe => text_written(write_manual(out)),
    };
    match done {
        Ok(()) => Ok(0),
        Err(fault) => Err(fault),
    }
}

// What became of a text that is written to standard output.
fn text_written(written: io::Result<()>) -> Result<(), Fault> {
    written.map_err(Fault::Output)
}

// Does what changes the image, and tells what was done.
fn change<
    P: Opener,
    R: Runtime + AllocGlobal + Wait + Files<File = File>,
    I: Read,
    O: Write,
    E: Write,
>(
    rt: &R,
    opener: &P,
    screen: Screen,
    words: &ArgumentWords<'_>,
    input: &mut I,
    out: &mut O,
    errors: &mut E,
) -> Result<(), Fault> {
    let image = words.image;
    match words.task {
        Task::Format(numbers) => {
            let made = make(rt, opener, image.path, numbers)?;
            tell_made(screen, image.path, &made, out)
        }
        Task::Put {
            name,
            file,
            replaces,
        } => {
            screen.tell(errors, "put", name);
            let done = put(rt, opener, image, name, file, replaces, input);
            screen.clear(errors);
            tell_put(screen, name, done?, out)
        }
        Task::Append { name, file } => {
            let added = append(rt, opener, image, name, file, input)?;
            tell_added(screen, name, added, out)
        }
        Task::Copy { name, to, replaces } => {
            let done = copy(rt, opener, image, name, to, replaces)?;
            tell_put(screen, to, done, out)
        }
        Task::Upgrade { to } => {
            screen.tell(errors, "upgrade", image.path);
            let made = upgrade_image(rt, image, to);
            screen.clear(errors);
            tell_made(screen, to, &made?, out)
        }
        Task::Rename { name, to } => rename(rt, opener, image, name, to),
        _ => remove(rt, opener, image, words.names.as_slice()),
    }
}

fn tell_made<O: Write>(
    screen: Screen,
    path: &str,
    made: &Geometry,
    out: &mut O,
) -> Result<(), Fault> {
    if !screen.quiet {
        let bytes = u64::from(made.blocks()).saturating_mul(u64::from(made.shape.block_bytes()));
        writeln!(
            out,
            "made {}: {} segments, {bytes} bytes, at most {} files",
            EscapedText(path),
            made.segments,
            made.files
        )?;
    }
    Ok(())
}

fn tell_put<O: Write>(screen: Screen, name: &str, put: PutFile, out: &mut O) -> Result<(), Fault> {
    if !screen.quiet {
        writeln!(
            out,
            "file {} has {} bytes: {}",
            put.number,
            put.bytes,
            EscapedText(name)
        )?;
    }
    Ok(())
}

fn tell_added<O: Write>(
    screen: Screen,
    name: &str,
    added: PutFile,
    out: &mut O,
) -> Result<(), Fault> {
    if !screen.quiet {
        writeln!(
            out,
            "file {} has {} bytes more: {}",
            added.number,
            added.bytes,
            EscapedText(name)
        )?;
    }
    Ok(())
}

// Removes files, one after the other. Where one name is not there, none is removed.
fn remove<P: Opener, R: Runtime + AllocGlobal + Wait + Files<File = File>>(
    rt: &R,
    opener: &P,
    image: ImageFile<'_>,
    names: &[&str],
) -> Result<(), Fault> {
    ask_to_remove(rt, image, names)?;
    for name in names {
        let parts = open_parts(rt, opener, image)?;
        let name: &str = name;
        let work = Remove { name, now: now(rt) };
        if let Err(refusal) = remove_making_room(rt, parts, work)? {
            return Err(Fault::of_name(rt.alloc(), name, refusal));
        }
    }
    Ok(())
}

fn rename<P: Opener, R: Runtime + AllocGlobal + Wait + Files<File = File>>(
    rt: &R,
    opener: &P,
    image: ImageFile<'_>,
    name: &str,
    to: &str,
) -> Result<(), Fault> {
    ask_to_rename(rt, image, name, to)?;
    let parts = open_parts(rt, opener, image)?;
    let work = Rename {
        name,
        to,
        now: now(rt),
    };
    match rename_making_room(rt, parts, work)? {
        Ok(()) => Ok(()),
        Err(refusal) => Err(Fault::of_name(rt.alloc(), to, refusal)),
    }
}

fn clean<P: Opener, R: Runtime + AllocGlobal + Wait + Files<File = File>, O: Write, E: Write>(
    rt: &R,
    opener: &P,
    screen: Screen,
    image: ImageFile<'_>,
    background: bool,
    out: &mut O,
    errors: &mut E,
) -> Result<(), Fault> {
    screen.tell(errors, "clean", image.path);
    let work = Clean {
        policy: if background {
            Policy::Background
        } else {
            Policy::Foreground
        },
        most: if background { 1 } else { 4096 },
        now: now(rt),
    };
    let tidied = run(rt, opener, image, Leave::Close, work);
    screen.clear(errors);
    let tidied = tidied?;
    if !screen.quiet {
        writeln!(
            out,
            "cleaned {} sections, moved {} blocks",
            tidied.sections, tidied.moved
        )?;
    }
    Ok(())
}
