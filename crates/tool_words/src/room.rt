//! The room of a volume, as `df` tells that of a disk.
use crate::fault::Fault;
use crate::image_run::read_image;
use crate::json_text::write_json;
use crate::shown::EscapedText;
use flash_volume::{Geometry, usable_blocks};
use image::Image;
use image_reading::length_of;
use named_files::kept_for_folder;
use named_folder::FOLDER;
use serde::Serialize;
use std::fs::{File, Files};
use std::io;
use std::io::Write;
use std::time::Clock;
use tool_syntax::ImageFile;

/// The room of a volume in bytes.
#[derive(Clone, Copy, Drop, Serialize)]
pub struct RoomInBytes {
    /// Of blocks that may be valid at once.
    pub usable_bytes: u64,
    /// Of blocks that are valid: files, their nodes, and the folder.
    pub used_bytes: u64,
    /// What one more file can have.
    pub free_bytes: u64,
    /// Of blocks that stay free, so that sections can be cleaned and a checkpoint finds places.
    pub kept_bytes: u64,
}

/// Tells the room of the volume of an image file.
pub fn tell_room<R: AllocGlobal + Clock + Files<File = File>, O: Write>(
    rt: &R,
    file: ImageFile<'_>,
    json: bool,
    out: &mut O,
) -> Result<(), Fault> {
    let (geometry, image) = read_image(rt, file)?;
    let room = room_of(&geometry, &image);
    if json {
        let text = serde_json::to_string_pretty(rt.alloc(), &room);
        return write_json(text, out);
    }
    write_room(&room, file.path, out).map_err(Fault::Output)
}

fn write_room<O: Write>(room: &RoomInBytes, path: &str, out: &mut O) -> io::Result<()> {
    writeln!(
        out,
        "{:>14} {:>14} {:>14} {:>5}  {:>16}  image",
        "usable", "used", "free", "use%", "kept for cleaning"
    )?;
    writeln!(
        out,
        "{:>14} {:>14} {:>14} {:>4}%  {:>17}  {}",
        room.usable_bytes,
        room.used_bytes,
        room.free_bytes,
        percent(room.used_bytes, room.usable_bytes),
        room.kept_bytes,
        EscapedText(path)
    )
}

/// The room of a volume whose last checkpoint is this image.
pub fn room_of(geometry: &Geometry, image: &Image) -> RoomInBytes {
    let usable = usable_blocks(geometry);
    let kept = geometry.blocks().saturating_sub(usable);
    let folder = kept_for_folder(geometry, length_of(image, FOLDER));
    let taken = u64::from(image.total).saturating_add(folder);
    let left = u64::from(usable).saturating_sub(taken);
    let free = data_blocks(geometry, u32::try_from(left).unwrap_or(u32::MAX));
    RoomInBytes {
        usable_bytes: bytes_of(geometry, usable),
        used_bytes: bytes_of(geometry, image.total),
        free_bytes: bytes_of(geometry, free),
        kept_bytes: bytes_of(geometry, kept),
    }
}

/// The bytes of so many blocks.
pub fn bytes_of(geometry: &Geometry, blocks: u32) -> u64 {
    u64::from(blocks).saturating_mul(u64::from(geometry.shape.block_bytes()))
}

// How many of so many blocks one more file's data can have: the others are for its nodes, and for a block of the folder.
fn data_blocks(geometry: &Geometry, blocks: u32) -> u32 {
    let entries = geometry.shape.node_entries();
    let direct = blocks.checked_div(entries).unwrap_or(0);
    let indirect = direct.checked_div(entries).unwrap_or(0);
    blocks
        .saturating_sub(direct)
        .saturating_sub(indirect)
        .saturating_sub(6)
}

// How many of a hundred parts of the whole a part has, a part that is begun too.
fn percent(part: u64, whole: u64) -> u64 {
    let parts = part
        .saturating_mul(100)
        .saturating_add(whole.saturating_sub(1));
    parts.checked_div(whole).unwrap_or(0)
}
