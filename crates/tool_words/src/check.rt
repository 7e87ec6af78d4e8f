//! Whether an image is sound.
use crate::fault::Fault;
use crate::image_run::read_image;
use crate::json_text::json_of;
use crate::screen::Screen;
use flash_volume::{Error, Geometry};
use image::Image;
use serde::Serialize;
use std::alloc::Global;
use std::fs::{File, Files};
use std::io::Write;
use std::time::Clock;
use tool_syntax::ImageFile;

/// What is wrong where an image has one of these faults, from 1 on: they are numbered as the rules of a lawful image.
const FAULTS: [&str; 10] = [
    "a table or the file has another size than the superblock says, or a number is out of range",
    "two logs have the same open segment",
    "an entry of the node address table names a block that is not a node, or a node of another number",
    "a node names a block that is not a node, or a node of another file, or one of the wrong class for its place",
    "a node of the node address table can't be reached from any file",
    "a block is named twice",
    "a block that is named is not marked as valid",
    "a block is marked as valid, but nothing names it",
    "the summary of a block has another owner than what names the block",
    "a count is wrong, or a block is marked as valid where none may be",
];

/// The numbers of a sound image.
#[derive(Drop, Serialize)]
struct Sound {
    sound: bool,
    version: u32,
    valid_blocks: u32,
    blocks: u32,
    free_segments: u32,
    segments: u32,
}

/// The refusal of another, with its fault where it has one, by number and in a sentence.
#[derive(Drop, Serialize)]
struct Unsound {
    sound: bool,
    refusal: u8,
    fault: Option<u8>,
    text: String,
}

/// Tells on `out` whether the image is sound, or its fault, in a sentence and by number; nothing where the screen is quiet. Answers the
/// exit status: 0, or 1 where it is refused.
pub fn check<R: AllocGlobal + Clock + Files<File = File>, O: Write>(
    rt: &R,
    file: ImageFile<'_>,
    json: bool,
    screen: Screen,
    out: &mut O,
) -> Result<u8, Fault> {
    let (status, told) = match read_image(rt, file) {
        Ok((geometry, image)) => {
            let sound = sound_of(&geometry, &image);
            (0, text_of_sound(rt.alloc(), &sound, json)?)
        }
        Err(fault) => {
            let error = refusal_of(fault)?;
            (1, text_of_refusal(rt.alloc(), error, json)?)
        }
    };
    if !screen.quiet {
        Fault::of_output(writeln!(out, "{told}"))?;
    }
    Ok(status)
}

// Why an image is refused. What says nothing of the image is handed on.
fn refusal_of(fault: Fault) -> Result<Error, Fault> {
    match fault {
        Fault::Volume(error) if error != Error::NoMemory => Ok(error),
        fault => Err(fault),
    }
}

fn sound_of(geometry: &Geometry, image: &Image) -> Sound {
    Sound {
        sound: true,
        version: image.version,
        valid_blocks: image.total,
        blocks: geometry.blocks(),
        free_segments: image.free(geometry),
        segments: geometry.segments,
    }
}

fn text_of_sound(alloc: Global, sound: &Sound, json: bool) -> Result<String, Fault> {
    if json {
        return json_of(serde_json::to_string_pretty(alloc, sound));
    }
    Ok(format!(in alloc;
        "sound: version {}, {} valid blocks of {}, {} of {} segments free",
        sound.version, sound.valid_blocks, sound.blocks, sound.free_segments, sound.segments
    )?)
}

fn text_of_refusal(alloc: Global, error: Error, json: bool) -> Result<String, Fault> {
    let (fault, text) = match error {
        Error::BadImage(fault) => (Some(fault), String::from_str(alloc, fault_text(fault))?),
        _ => (None, format!(in alloc; "{error}")?),
    };
    let number = error.number();
    if json {
        let unsound = Unsound {
            sound: false,
            refusal: number,
            fault,
            text,
        };
        return json_of(serde_json::to_string_pretty(alloc, &unsound));
    }
    Ok(match fault {
        Some(fault) => format!(in alloc; "fault {fault}: {text}")?,
        None => format!(in alloc; "refusal {number}: {text}")?,
    })
}

fn fault_text(fault: u8) -> &'static str {
    match FAULTS.get((fault as usize).wrapping_sub(1)) {
        Some(text) => text,
        None => "the image is not lawful",
    }
}
