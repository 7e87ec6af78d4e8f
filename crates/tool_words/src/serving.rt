//! A disk of the volume is served to a client, over the standard streams.
use crate::fault::Fault;
use crate::image_run::{now, open_parts};
use crate::json_text::write_json;
use crate::machine::Machine;
use crate::new_file::{keep_whole, make_new};
use crate::opener::Opener;
use crate::screen::Screen;
use crate::shown::EscapedText;
use disk_service::{Counts, DiskSettings, Farewell};
use serde::Serialize;
use std::fs::{File, Files};
use std::io::{Read, Write};
use std::rt::Runtime;
use tool_disk::{DiskOptions, Served, serve_disk};
use tool_syntax::{ImageFile, ServeWords};

/// What a served disk has done.
#[derive(Clone, Copy, Drop, Serialize)]
struct Report {
    /// How many bytes the disk has.
    disk_bytes: u64,
    /// Whether the client left as the protocol has it. Else its stream ended, or could not be read or written.
    client_left: bool,
    reads: u64,
    writes: u64,
    trims: u64,
    flushes: u64,
    /// Requests that were answered with an error.
    refused: u64,
    bytes_read: u64,
    bytes_written: u64,
    /// Checkpoints that the client asked for, and those that came in time.
    checkpoints_asked: u64,
    checkpoints_in_time: u64,
    sections_cleaned: u64,
    blocks_moved: u64,
    /// Bytes that were written for the client or moved by the cleaner, for each hundred that were written for the client. Nodes and
    /// checkpoints are not counted.
    written_percent: u64,
}

impl Report {
    fn of(served: &Served, counts: Counts) -> Report {
        let moved = counts.moved.saturating_mul(u64::from(served.block_bytes));
        Report {
            disk_bytes: served.bytes,
            client_left: served.farewell == Some(Farewell::Left),
            reads: counts.reads,
            writes: counts.writes,
            trims: counts.trims,
            flushes: counts.flushes,
            refused: counts.refused,
            bytes_read: counts.bytes_read,
            bytes_written: counts.bytes_written,
            checkpoints_asked: counts.asked,
            checkpoints_in_time: counts.kept,
            sections_cleaned: counts.sections,
            blocks_moved: counts.moved,
            written_percent: percent(counts.bytes_written, moved),
        }
    }
}

// How many bytes were written for each hundred that were asked for, where others were moved beside them.
fn percent(asked: u64, moved: u64) -> u64 {
    let all = asked.saturating_add(moved).saturating_mul(100);
    all.checked_div(asked).unwrap_or(100)
}

/// Serves a disk of the volume by the NBD protocol: what `input` has are a client's bytes, and it is answered on `out`. The image is
/// locked meanwhile. What was done is told on `errors` where that is a terminal, and written to a new file where one is named.
pub fn serve<P: Opener, R: Machine, I: Read + Send, O: Write + Send, E: Write>(
    rt: &R,
    opener: &P,
    screen: Screen,
    image: ImageFile<'_>,
    words: ServeWords<'_>,
    input: &mut I,
    out: &mut O,
    errors: &mut E,
) -> Result<(), Fault> {
    let parts = open_parts(rt, opener, image)?;
    let options = DiskOptions {
        name: words.disk,
        bytes: words.bytes,
        settings: DiskSettings {
            read_only: words.read_only,
            flush_every: seconds_of(words.flush_every),
            workers: words.workers as usize,
        },
        now: now(rt),
    };
    screen.tell(errors, "serve", words.disk);
    let served = serve_disk(rt, parts, options, rt, input, out);
    screen.clear(errors);
    let served = match served {
        Ok((_parts, served)) => served,
        Err(fault) => return Err(Fault::of_disk(rt.alloc(), words.disk, fault)),
    };
    let Some(counts) = served.counts else {
        return Ok(());
    };
    let report = Report::of(&served, counts);
    if screen.progress {
        tell(&report, words.disk, errors);
    }
    match words.stats {
        Some(path) => write_report(rt, path, &report),
        None => Ok(()),
    }
}

// Zero seconds stand for never.
fn seconds_of(seconds: u32) -> Option<u32> {
    if seconds == 0 { None } else { Some(seconds) }
}

// Tells in a line what was done.
fn tell<E: Write>(report: &Report, disk: &str, errors: &mut E) {
    let disk = EscapedText(disk);
    let _ = writeln!(
        errors,
        "{disk}: {} reads, {} writes, {} trims, {} flushes, {} rejected; {} sections cleaned, {} blocks moved",
        report.reads,
        report.writes,
        report.trims,
        report.flushes,
        report.refused,
        report.sections_cleaned,
        report.blocks_moved
    );
}

// Writes what was done to a new file, as JSON.
fn write_report<R: Runtime + AllocGlobal + Files<File = File>>(
    rt: &R,
    path: &str,
    report: &Report,
) -> Result<(), Fault> {
    let mut file = make_new(rt, path)?;
    let text = serde_json::to_string_pretty(rt.alloc(), report);
    keep_whole(rt, path, write_json(text, &mut file))
}
