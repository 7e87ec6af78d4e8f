//! What a volume has, in numbers.
use crate::asking::has_file;
use crate::fault::Fault;
use crate::image_run::{open_volume, read_image};
use crate::json_text::write_json;
use crate::room::{bytes_of, room_of};
use crate::shown::EscapedText;
use flash_volume::{Geometry, Packing};
use image::Image;
use named_folder::{FOLDER, FolderRow};
use named_reading::Listing;
use serde::Serialize;
use std::alloc::Global;
use std::fs::{File, Files};
use std::io;
use std::io::Write;
use std::time::Clock;
use tool_syntax::ImageFile;
use unicode_width::UnicodeWidthStr;

/// The numbers of a volume.
#[derive(Drop, Serialize)]
struct Facts {
    layout: &'static str,
    version: u32,
    block_bytes: u32,
    segment_blocks: u32,
    segments: u32,
    free_segments: u32,
    blocks: u32,
    valid_blocks: u32,
    files: u32,
    most_files: u32,
    nodes: u32,
    most_nodes: u32,
    usable_bytes: u64,
    used_bytes: u64,
    free_bytes: u64,
    kept_bytes: u64,
}

/// A file, by name where the folder has one, and in bytes or in blocks.
#[derive(Drop, Serialize)]
struct Row<'a> {
    name: Option<&'a str>,
    number: u32,
    bytes: Option<u64>,
    blocks: u32,
}

/// Tells the numbers of the volume of an image file.
pub fn stat<R: AllocGlobal + Clock + Files<File = File>, O: Write>(
    rt: &R,
    file: ImageFile<'_>,
    json: bool,
    out: &mut O,
) -> Result<(), Fault> {
    let (geometry, image) = read_image(rt, file)?;
    let facts = facts_of(&geometry, &image);
    tell_facts(rt.alloc(), geometry.packing, &facts, json, out)
}

fn tell_facts<O: Write>(
    alloc: Global,
    packing: Packing,
    facts: &Facts,
    json: bool,
    out: &mut O,
) -> Result<(), Fault> {
    if json {
        let text = serde_json::to_string_pretty(alloc, facts);
        return write_json(text, out);
    }
    write_facts(packing, facts, out).map_err(Fault::Output)
}

fn write_facts<O: Write>(packing: Packing, facts: &Facts, out: &mut O) -> io::Result<()> {
    writeln!(out, "layout    {}", layout_text(packing))?;
    writeln!(out, "version   {}", facts.version)?;
    writeln!(
        out,
        "blocks    {} valid of {}, {} bytes each",
        facts.valid_blocks, facts.blocks, facts.block_bytes
    )?;
    writeln!(
        out,
        "segments  {} free of {}, {} blocks each",
        facts.free_segments, facts.segments, facts.segment_blocks
    )?;
    writeln!(
        out,
        "files     {} of {}, including the folder of names",
        facts.files, facts.most_files
    )?;
    writeln!(out, "nodes     {} of {}", facts.nodes, facts.most_nodes)?;
    writeln!(
        out,
        "space     {} bytes free, {} used of {}, {} kept for cleaning",
        facts.free_bytes, facts.used_bytes, facts.usable_bytes, facts.kept_bytes
    )
}

// How checkpoints lie, with the numbers of the formats that have them so.
fn layout_text(packing: Packing) -> &'static str {
    match packing {
        Packing::Slots => "checkpoints in slots (format 1 or 2; upgrade makes format 3)",
        Packing::Pages => "checkpoints in pages (format 3)",
    }
}

fn facts_of(geometry: &Geometry, image: &Image) -> Facts {
    let nodes = image.nat.iter().filter(|entry| entry.inode != 0).count();
    let files = image
        .nodes
        .iter()
        .filter(|node| match node {
            Some(node) => node.nid == node.inode,
            None => false,
        })
        .count();
    let room = room_of(geometry, image);
    Facts {
        layout: match geometry.packing {
            Packing::Slots => "slots",
            Packing::Pages => "pages",
        },
        version: image.version,
        block_bytes: geometry.shape.block_bytes(),
        segment_blocks: geometry.shape.segment_blocks(),
        segments: geometry.segments,
        free_segments: image.free(geometry),
        blocks: geometry.blocks(),
        valid_blocks: image.total,
        files: u32::try_from(files).unwrap_or(u32::MAX),
        most_files: geometry.files,
        nodes: u32::try_from(nodes).unwrap_or(u32::MAX),
        most_nodes: geometry.nodes,
        usable_bytes: room.usable_bytes,
        used_bytes: room.used_bytes,
        free_bytes: room.free_bytes,
        kept_bytes: room.kept_bytes,
    }
}

/// Lists the files: the named ones in the folder's order, and then the others; and how many there are, and how many bytes they have.
pub fn list<R: AllocGlobal + Clock + Files<File = File>, O: Write>(
    rt: &R,
    file: ImageFile<'_>,
    json: bool,
    out: &mut O,
) -> Result<(), Fault> {
    let mut volume = open_volume(rt, file)?;
    let listing = volume.list(rt.alloc())?;
    tell_files(rt.alloc(), &volume.geometry, &listing, json, out)
}

fn tell_files<O: Write>(
    alloc: Global,
    geometry: &Geometry,
    listing: &Listing,
    json: bool,
    out: &mut O,
) -> Result<(), Fault> {
    let rows = rows_of(alloc, listing)?;
    if json {
        let text = serde_json::to_string_pretty(alloc, &rows);
        return write_json(text, out);
    }
    write_lines(alloc, geometry, rows.as_slice(), listing, out)
}

fn write_lines<O: Write>(
    alloc: Global,
    geometry: &Geometry,
    rows: &[Row<'_>],
    listing: &Listing,
    out: &mut O,
) -> Result<(), Fault> {
    write_rows(alloc, rows, listing, out)?;
    write_total(geometry, rows, out)
}

// Writes a line for each file, the names in a column.
fn write_rows<O: Write>(
    alloc: Global,
    rows: &[Row<'_>],
    listing: &Listing,
    out: &mut O,
) -> Result<(), Fault> {
    let mut names = Vec::new(alloc);
    for row in rows {
        // A folder of another program's may have what a terminal would obey.
        names.push(match row.name {
            Some(name) => format!(in alloc; "{}", EscapedText(name))?,
            None => String::new(alloc),
        })?;
    }
    let widths = names.iter().map(|name| name.as_str().width());
    let widest = widths.max().unwrap_or(0);
    for (row, name) in rows.iter().zip(names.iter()) {
        let name = name.as_str();
        write!(out, "{name}")?;
        for _ in name.width()..widest {
            write!(out, " ")?;
        }
        write_row(row, has_file(listing, row.number), out)?;
    }
    Ok(())
}

// Writes what stands behind a name.
fn write_row<O: Write>(row: &Row<'_>, has_file: bool, out: &mut O) -> Result<(), Fault> {
    match row.bytes {
        // Its file was deleted, and its name was not removed.
        Some(_) if !has_file => writeln!(out, "  {:>18}  file {}", "is gone: rm it", row.number)?,
        Some(bytes) => writeln!(out, "  {bytes:>12} bytes  file {}", row.number)?,
        None => writeln!(out, "  {:>11} blocks  file {}", row.blocks, row.number)?,
    }
    Ok(())
}

// Writes how many files there are, and how many bytes they have: those of a file without a name are whole blocks.
fn write_total<O: Write>(geometry: &Geometry, rows: &[Row<'_>], out: &mut O) -> Result<(), Fault> {
    let mut total = 0u64;
    for row in rows {
        let bytes = match row.bytes {
            Some(bytes) => bytes,
            None => bytes_of(geometry, row.blocks),
        };
        total = total.saturating_add(bytes);
    }
    let files = if rows.len() == 1 { "file" } else { "files" };
    writeln!(out, "{} {files}, {total} bytes", rows.len())?;
    Ok(())
}

fn rows_of<'a>(alloc: Global, listing: &'a Listing) -> Result<Vec<Row<'a>>, Fault> {
    let mut rows = Vec::new(alloc);
    let named: &[FolderRow] = match &listing.named {
        Some(entries) => entries.as_slice(),
        None => &[],
    };
    for entry in named {
        rows.push(Row {
            name: Some(entry.name.as_str()),
            number: entry.number,
            bytes: Some(entry.bytes),
            blocks: blocks_of(listing, entry.number),
        })?;
    }
    for file in &listing.files {
        let is_folder = file.number == FOLDER && listing.named.is_some();
        let is_named = named.iter().any(|entry| entry.number == file.number);
        if !is_folder && !is_named {
            rows.push(Row {
                name: None,
                number: file.number,
                bytes: None,
                blocks: file.blocks,
            })?;
        }
    }
    Ok(rows)
}

fn blocks_of(listing: &Listing, number: u32) -> u32 {
    match listing.files.iter().find(|file| file.number == number) {
        Some(file) => file.blocks,
        None => 0,
    }
}
