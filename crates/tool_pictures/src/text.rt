//! A picture of the segments, in text.
use crate::moment::Ages;
use geometry::Geometry;
use image::{Image, SegmentInfo};
use std::io;
use std::io::Write;

/// The names of the logs, in their order.
pub const LOGS: [&str; 6] = [
    "hot nodes",
    "warm nodes",
    "cold nodes",
    "hot data",
    "warm data",
    "cold data",
];

/// A colour for each log, of the 256 of a terminal.
const COLOURS: [u8; 6] = [196, 208, 27, 199, 214, 39];

const BARS: [&str; 8] = ["▁", "▂", "▃", "▄", "▅", "▆", "▇", "█"];

// So many segments stand in a line.
const LINE: u32 = 32;

/// What a segment is at a mount of an image.
#[derive(Clone, Copy, PartialEq, Eq)]
pub enum Look {
    /// It has no valid block, and no log appends to it.
    Free,
    /// The log of this place appends to it.
    Open(usize),
    /// It has valid blocks, and no log appends to it.
    Sealed,
}

/// What a segment is at a mount of the image.
pub fn look_of(image: &Image, segment: u32) -> Look {
    let log = image.logs.iter().position(|log| match log {
        Some(place) => place.segment == segment,
        None => false,
    });
    match log {
        Some(log) => Look::Open(log),
        None if image.is_free(segment) => Look::Free,
        None => Look::Sealed,
    }
}

/// Draws a sign for each segment: how full it is, in the colour of its log where one is open; then a legend, and when the oldest and the
/// youngest segment with valid blocks were written, where a time is kept.
pub fn draw_text<O: Write>(
    geometry: &Geometry,
    image: &Image,
    colours: bool,
    out: &mut O,
) -> io::Result<()> {
    let blocks = geometry.shape.segment_blocks();
    let mut segment = 0u32;
    for info in &image.sit {
        if segment % LINE == 0 {
            if segment > 0 {
                writeln!(out)?;
            }
            write!(out, "{segment:>6}  ")?;
        }
        draw_segment(look_of(image, segment), info, blocks, colours, out)?;
        segment = segment.saturating_add(1);
    }
    writeln!(out)?;
    draw_legend(blocks, image, colours, out)
}

fn draw_segment<O: Write>(
    look: Look,
    info: &SegmentInfo,
    blocks: u32,
    colours: bool,
    out: &mut O,
) -> io::Result<()> {
    let bar = match look {
        Look::Free => "·",
        _ => bar_of(info.count, blocks),
    };
    match look {
        Look::Open(log) if colours => {
            let colour = COLOURS[log.min(5)];
            write!(out, "\u{1b}[38;5;{colour}m{bar}\u{1b}[0m")?;
        }
        Look::Open(log) => write!(out, "{}", log.min(5))?,
        _ => write!(out, "{bar}")?,
    }
    Ok(())
}

// A bar for so many valid blocks: the lowest for none, the highest for all.
fn bar_of(count: u32, blocks: u32) -> &'static str {
    let part = u64::from(count) * 7 / u64::from(blocks.max(1));
    BARS[(part as usize).min(7)]
}

fn draw_legend<O: Write>(blocks: u32, image: &Image, colours: bool, out: &mut O) -> io::Result<()> {
    writeln!(
        out,
        "\n  ·  free    ▁ to █  sealed, by how many of its {blocks} blocks are valid"
    )?;
    let mut number = 0usize;
    for log in &image.logs {
        let name = LOGS[number.min(5)];
        if colours {
            write!(out, "  \u{1b}[38;5;{}m█\u{1b}[0m  ", COLOURS[number.min(5)])?;
        } else {
            write!(out, "  {number}  ")?;
        }
        match log {
            Some(place) => writeln!(
                out,
                "{name:<10}  appends to segment {}, block {}",
                place.segment, place.next
            )?,
            None => writeln!(out, "{name:<10}  has no open segment")?,
        }
        number = number.saturating_add(1);
    }
    if let Some(ages) = Ages::of(image) {
        writeln!(out, "  the segments in use were last written {ages}")?;
    }
    Ok(())
}
