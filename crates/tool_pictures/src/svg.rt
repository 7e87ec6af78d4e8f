//! A picture of the segments, as SVG.
use crate::moment::{Ages, written_at};
use crate::svg_legend::{LEGEND, draw_legend, draw_scale};
use crate::text::{LOGS, Look, look_of};
use geometry::Geometry;
use image::{Image, SegmentInfo};
use std::io;
use std::io::Write;

// So many segments stand side by side.
const COLUMNS: u32 = 32;

// The width of a column and of its box, and the height of a line, in pixels.
const WIDTH: u32 = 20;

const BOX: u32 = 16;

const HEIGHT: u32 = 48;

// The height of a full segment.
const FULL: u32 = 40;

// Where the first box begins: in front of it and above it stand numbers.
const LEFT: u32 = 46;

const TOP: u32 = 24;

// The room behind the last box, where the scale stands.
const RIGHT: u32 = 84;

/// So many classes have sealed segments by their age, from the oldest to the youngest.
pub const AGES: u64 = 6;

/// The colours, on a light page and on a dark one. A picture has a page of its own, since not all that show it tell which they have.
const STYLE: &str = "<style>
.page { fill: #ffffff } text { fill: #1f2328 } .tick { fill: #57606a } .box { fill: #f3f4f6; stroke: #9aa4af } .open .box { stroke: currentColor } .full { fill: currentColor }
.log0 { color: #b2182b } .log1 { color: #e0603c } .log2 { color: #2166ac } .log3 { color: #d4247c } .log4 { color: #d99a00 } .log5 { color: #4d9221 }
.age0 { color: #cfd6dd } .age1 { color: #b1bbc5 } .age2 { color: #939fac } .age3 { color: #748393 } .age4 { color: #536474 } .age5 { color: #2b3a48 }
.timeless { color: #b794c7 }
@media (prefers-color-scheme: dark) {
.page { fill: #0d1117 } text { fill: #e6edf3 } .tick { fill: #9aa4af } .box { fill: #1a2029; stroke: #57606a }
.log0 { color: #ff6b6b } .log1 { color: #ff9f68 } .log2 { color: #58a6ff } .log3 { color: #ff7ab8 } .log4 { color: #f2cc60 } .log5 { color: #7ee787 }
.age0 { color: #343d48 } .age1 { color: #4c5967 } .age2 { color: #687787 } .age3 { color: #8796a6 } .age4 { color: #acb8c4 } .age5 { color: #d8e0e8 }
.timeless { color: #9a6fb0 }
}
</style>";

/// Draws a box for each segment, filled as far as its blocks are valid: in the colour of its log where one appends to it, and by its age
/// where it is sealed. The numbers of the segments stand at the lines and columns; a box tells its own where the pointer rests on it.
pub fn draw_svg<O: Write>(geometry: &Geometry, image: &Image, out: &mut O) -> io::Result<()> {
    let lines = geometry.segments.div_ceil(COLUMNS);
    let bottom = lines.saturating_mul(HEIGHT).saturating_add(TOP);
    writeln!(
        out,
        "<svg xmlns=\"http://www.w3.org/2000/svg\" width=\"{}\" height=\"{}\" font-family=\"sans-serif\" font-size=\"11\">",
        LEFT + COLUMNS * WIDTH + RIGHT,
        bottom.saturating_add(LEGEND)
    )?;
    writeln!(out, "<title>The segments of a volume</title>")?;
    writeln!(out, "{STYLE}")?;
    writeln!(out, "<rect class=\"page\" width=\"100%\" height=\"100%\"/>")?;
    draw_numbers(lines, out)?;
    draw_scale(LEFT + COLUMNS * WIDTH, TOP, FULL, geometry, out)?;
    let ages = Ages::of(image);
    let mut segment = 0u32;
    for info in &image.sit {
        let blocks = geometry.shape.segment_blocks();
        draw_segment(segment, look_of(image, segment), info, blocks, ages, out)?;
        segment = segment.saturating_add(1);
    }
    draw_legend(LEFT, bottom, geometry, image, ages, out)?;
    writeln!(out, "</svg>")?;
    Ok(())
}

// Writes the number of the first segment of each line in front of it, and above the columns how many come before.
fn draw_numbers<O: Write>(lines: u32, out: &mut O) -> io::Result<()> {
    for line in 0..lines {
        let y = line
            .saturating_mul(HEIGHT)
            .saturating_add(TOP + FULL / 2 + 4);
        writeln!(
            out,
            "<text x=\"{}\" y=\"{y}\" text-anchor=\"end\">{}</text>",
            LEFT - 8,
            line.saturating_mul(COLUMNS)
        )?;
    }
    for quarter in 0..COLUMNS / 4 {
        let column = quarter * 4;
        writeln!(
            out,
            "<text x=\"{}\" y=\"{}\" text-anchor=\"middle\">+{column}</text>",
            LEFT + column * WIDTH + BOX / 2,
            TOP - 8
        )?;
    }
    Ok(())
}

fn draw_segment<O: Write>(
    segment: u32,
    look: Look,
    info: &SegmentInfo,
    blocks: u32,
    ages: Option<Ages>,
    out: &mut O,
) -> io::Result<()> {
    let x = LEFT + segment % COLUMNS * WIDTH;
    let y = (segment / COLUMNS)
        .saturating_mul(HEIGHT)
        .saturating_add(TOP);
    let full = info.count.saturating_mul(FULL).div_ceil(blocks.max(1));
    write!(out, "<g class=\"")?;
    write_class(look, info, ages, out)?;
    write!(out, "\"><title>segment {segment}: ")?;
    match look {
        Look::Free => write!(out, "free")?,
        Look::Open(log) => write!(out, "{} appends", LOGS[log.min(5)])?,
        Look::Sealed => write!(out, "sealed")?,
    }
    write!(out, ", {} of {blocks} blocks valid", info.count)?;
    if let Some(time) = written_at(info) {
        write!(out, ", written {time} UTC")?;
    }
    write!(out, "</title>")?;
    draw_box(x, y, BOX, FULL, full, out)?;
    writeln!(out, "</g>")?;
    Ok(())
}

/// Draws a box, filled from below so many pixels high.
pub fn draw_box<O: Write>(
    x: u32,
    y: u32,
    width: u32,
    height: u32,
    full: u32,
    out: &mut O,
) -> io::Result<()> {
    write!(
        out,
        "<rect class=\"box\" x=\"{x}\" y=\"{y}\" width=\"{width}\" height=\"{height}\"/>"
    )?;
    if full > 0 {
        let top = y.saturating_add(height).saturating_sub(full);
        write!(
            out,
            "<rect class=\"full\" x=\"{x}\" y=\"{top}\" width=\"{width}\" height=\"{full}\"/>"
        )?;
    }
    Ok(())
}

// Writes the class of a segment, which has its colour.
fn write_class<O: Write>(
    look: Look,
    info: &SegmentInfo,
    ages: Option<Ages>,
    out: &mut O,
) -> io::Result<()> {
    match (look, ages) {
        (Look::Free, _) => write!(out, "free")?,
        (Look::Open(log), _) => write!(out, "open log{}", log.min(5))?,
        (Look::Sealed, Some(ages)) if info.mtime > 0 => {
            write!(out, "age{}", age_of(info.mtime, ages))?
        }
        _ => write!(out, "timeless")?,
    }
    Ok(())
}

// The class of a time: the highest for the youngest.
fn age_of(time: u64, ages: Ages) -> u64 {
    let span = ages.youngest.saturating_sub(ages.oldest);
    let age = ages.youngest.saturating_sub(time);
    (AGES - 1).saturating_sub(age / (span / AGES + 1))
}
