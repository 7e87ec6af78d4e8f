//! A picture of the segments: as text, as SVG, or as JSON.
use crate::fault::Fault;
use crate::image_run::read_image;
use crate::json_text::write_json;
use crate::new_file::{keep_whole, make_new};
use crate::screen::Screen;
use flash_volume::Geometry;
use image::Image;
use serde::Serialize;
use std::alloc::{AllocError, Global};
use std::fs::{File, Files};
use std::io::{BufWriter, Write};
use std::time::Clock;
use tool_pictures::{LOGS, Look, draw_svg, draw_text, look_of, written_at};
use tool_syntax::ImageFile;

/// A segment: what it is at a mount, which log appends to it, how many of its blocks are valid, and when one was last written, in seconds
/// since 1970, where that is kept.
#[derive(Drop, Serialize)]
struct Segment {
    segment: u32,
    state: &'static str,
    log: Option<&'static str>,
    valid_blocks: u32,
    blocks: u32,
    written: Option<u64>,
}

/// Draws the segments to `out`, or to a new file where one is named.
pub fn map<R: AllocGlobal + Clock + Files<File = File>, O: Write>(
    rt: &R,
    screen: Screen,
    file: ImageFile<'_>,
    svg: Option<&str>,
    json: bool,
    out: &mut O,
) -> Result<(), Fault> {
    let (geometry, image) = read_image(rt, file)?;
    if json {
        let segments = segments_of(rt.alloc(), &geometry, &image)?;
        let text = serde_json::to_string_pretty(rt.alloc(), &segments);
        return write_json(text, out);
    }
    match svg {
        Some(path) => {
            let file = make_new(rt, path)?;
            let written = write_svg(rt.alloc(), &geometry, &image, file);
            keep_whole(rt, path, written)
        }
        None => {
            draw_text(&geometry, &image, screen.colours, out)?;
            Ok(())
        }
    }
}

fn write_svg(alloc: Global, geometry: &Geometry, image: &Image, file: File) -> Result<(), Fault> {
    let mut file = BufWriter::new(alloc, file)?;
    draw_svg(geometry, image, &mut file)?;
    file.flush()?;
    Ok(())
}

fn segments_of(
    alloc: Global,
    geometry: &Geometry,
    image: &Image,
) -> Result<Vec<Segment>, AllocError> {
    let mut segments = Vec::new(alloc);
    let mut segment = 0u32;
    for info in &image.sit {
        let (state, log) = match look_of(image, segment) {
            Look::Free => ("free", None),
            Look::Open(log) => ("open", Some(LOGS[log.min(5)])),
            Look::Sealed => ("sealed", None),
        };
        segments.push(Segment {
            segment,
            state,
            log,
            valid_blocks: info.count,
            blocks: geometry.shape.segment_blocks(),
            written: written_at(info).map(|time| time.0),
        })?;
        segment = segment.saturating_add(1);
    }
    Ok(segments)
}
