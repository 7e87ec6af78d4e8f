//! What explains a picture of the segments: a scale, and the colours.
use crate::moment::Ages;
use crate::svg::{AGES, draw_box};
use crate::text::LOGS;
use geometry::Geometry;
use image::Image;
use std::io;
use std::io::Write;

/// The height of the legend, in pixels.
pub const LEGEND: u32 = 122;

// The height of one of its lines, and the width of one of its columns.
const LINE: u32 = 20;

const COLUMN: u32 = 230;

// The size of a key's box.
const KEY: u32 = 11;

/// Draws the scale behind the first line of boxes: how many blocks a box has that is full, half full or empty.
pub fn draw_scale<O: Write>(
    x: u32,
    y: u32,
    height: u32,
    geometry: &Geometry,
    out: &mut O,
) -> io::Result<()> {
    let blocks = geometry.shape.segment_blocks();
    for (down, count) in [(0, blocks), (height / 2, blocks / 2), (height, 0)] {
        let at = y.saturating_add(down);
        writeln!(
            out,
            "<rect class=\"tick\" x=\"{x}\" y=\"{at}\" width=\"6\" height=\"1\"/><text x=\"{}\" y=\"{}\">{count}{}</text>",
            x.saturating_add(10),
            at.saturating_add(4),
            if count == blocks { " blocks" } else { "" }
        )?;
    }
    Ok(())
}

/// Draws the legend below the boxes.
pub fn draw_legend<O: Write>(
    x: u32,
    y: u32,
    geometry: &Geometry,
    image: &Image,
    ages: Option<Ages>,
    out: &mut O,
) -> io::Result<()> {
    let mut y = y.saturating_add(LINE);
    draw_logs(x, y, image, out)?;
    y = y.saturating_add(2 * LINE);
    draw_ages(x, y, ages, out)?;
    y = y.saturating_add(LINE);
    draw_key(
        x,
        y,
        "timeless",
        KEY,
        "sealed, its time is not kept (nodes)",
        out,
    )?;
    draw_key(x.saturating_add(COLUMN), y, "free", 0, "free", out)?;
    let blocks = geometry.shape.segment_blocks();
    writeln!(
        out,
        "<text x=\"{x}\" y=\"{}\">A box is a segment of {blocks} blocks of {} bytes, filled as far as its blocks are valid.</text>",
        y.saturating_add(LINE),
        geometry.shape.block_bytes()
    )?;
    Ok(())
}

// The logs, each with the segment to which it appends.
fn draw_logs<O: Write>(x: u32, y: u32, image: &Image, out: &mut O) -> io::Result<()> {
    let mut number = 0u32;
    for (log, name) in image.logs.iter().zip(LOGS) {
        let x = x.saturating_add(number % 3 * COLUMN);
        let y = y.saturating_add((number / 3).saturating_mul(LINE));
        write!(out, "<g class=\"open log{number}\">")?;
        draw_box(x, y.saturating_sub(KEY - 1), KEY, KEY, KEY, out)?;
        write!(
            out,
            "</g><text x=\"{}\" y=\"{y}\">{name}",
            x.saturating_add(2 * KEY)
        )?;
        match log {
            Some(place) => writeln!(
                out,
                ": segment {}, block {}</text>",
                place.segment, place.next
            )?,
            None => writeln!(out, ": no open segment</text>")?,
        }
        number = number.saturating_add(1);
    }
    Ok(())
}

// The colours of sealed segments, from the oldest to the youngest.
fn draw_ages<O: Write>(x: u32, y: u32, ages: Option<Ages>, out: &mut O) -> io::Result<()> {
    let mut at = x;
    for age in 0..AGES {
        write!(out, "<g class=\"age{age}\">")?;
        draw_box(at, y.saturating_sub(KEY - 1), KEY, KEY, KEY, out)?;
        write!(out, "</g>")?;
        at = at.saturating_add(KEY);
    }
    write!(
        out,
        "<text x=\"{}\" y=\"{y}\">sealed",
        at.saturating_add(KEY)
    )?;
    if let Some(ages) = ages {
        write!(out, ", last written {ages}")?;
    }
    writeln!(out, "</text>")?;
    Ok(())
}

fn draw_key<O: Write>(
    x: u32,
    y: u32,
    class: &str,
    full: u32,
    name: &str,
    out: &mut O,
) -> io::Result<()> {
    write!(out, "<g class=\"{class}\">")?;
    draw_box(x, y.saturating_sub(KEY - 1), KEY, KEY, full, out)?;
    writeln!(
        out,
        "</g><text x=\"{}\" y=\"{y}\">{name}</text>",
        x.saturating_add(2 * KEY)
    )?;
    Ok(())
}
