//! The tables that a pack's body spells.
ghost use Rattle.std.specs.Prelude.{◌≡◌, ◌≢◌, ◌⊎◌, [], length, IfOk, IfErr, MatchOption};
ghost use Rattle.geometry.specs.declared.error.Error.TheVariants.{NoMemory, BadImage};
ghost use Rattle.image.specs.Pack.{body_bytes};
ghost use Rattle.image.specs.View.{image_view};
ghost use Rattle.pack_tables.specs.Grammar.{SpellsTables, SpellsNoTables};
ghost use Rattle.pack_tables.specs.Parts.{AreParts};

use crate::rows::{decode_entries, decode_logs, decode_segments, decode_summaries, pair_of};
use geometry::{Error, Geometry};
use image::Image;
use std::alloc::Global;

// The bytes of a pack's header.
const HEADER_BYTES: usize = 8;

const LOGS: usize = 6;

// The parts of a body, in their order.
#[derive(Clone, Copy)]
struct Parts<'a> {
    header: &'a [u8],
    logs: &'a [u8],
    nat: &'a [u8],
    sit: &'a [u8],
    ssa: &'a [u8],
}

// None where the body has another length.
fn parts_of<'a>(geometry: &Geometry, body: &'a [u8]) -> Option<Parts<'a>>
    ensures { MatchOption result (length body.now ≢ body_bytes geometry.now) (λ parts.
        AreParts geometry.now body.now parts.header.now parts.logs.now parts.nat.now parts.sit.now parts.ssa.now) }
{
    if body.len() as u64 != geometry.pack_bytes() - 4 {
        return None;
    }
    let segment_bytes = 12 + geometry.shape.segment_blocks() as usize / 8;
    let (header, rest) = body.split_at(HEADER_BYTES);
    let (logs, rest) = rest.split_at(8 * LOGS);
    let (nat, rest) = rest.split_at(8 * geometry.nodes as usize);
    let (sit, ssa) = rest.split_at(geometry.segments as usize * segment_bytes);
    Some(Parts {
        header,
        logs,
        nat,
        sit,
        ssa,
    })
}

/// Reads the tables that a pack's body spells. The image has no nodes yet: they stand in the main blocks that its node
/// address table names.
///
/// Answers BadImage(1) where no image is spelled so: the body has another length, a log without an open segment has an
/// offset, or an entry of the node address table has one number without the other. Answers NoMemory where a growth was
/// refused. Linear in the body.
pub fn decode(alloc: Global, geometry: &Geometry, body: &[u8]) -> Result<Image, Error>
    ensures tables { IfOk result (λ image. SpellsTables geometry.now body.now (image_view image)) }
    ensures no_nodes { IfOk result (λ image. image.nodes.items ≡ []) }
    ensures refused { IfErr result (λ e. (e ≡ NoMemory) ⊎ ((e ≡ BadImage 1) × SpellsNoTables geometry.now body.now)) }
{
    let Some(parts) = parts_of(geometry, body) else {
        return Err(Error::BadImage(1));
    };
    let Some(logs) = decode_logs(alloc, LOGS, parts.logs)? else {
        return Err(Error::BadImage(1));
    };
    let Some(nat) = decode_entries(alloc, geometry.nodes as usize, parts.nat)? else {
        return Err(Error::BadImage(1));
    };
    let sit = decode_segments(alloc, geometry.shape, geometry.segments as usize, parts.sit)?;
    let ssa = decode_summaries(alloc, geometry.blocks() as usize, parts.ssa)?;
    let (version, total) = pair_of(parts.header);
    Ok(Image {
        version,
        total,
        logs,
        nat,
        sit,
        ssa,
        nodes: Vec::new(alloc),
    })
}
