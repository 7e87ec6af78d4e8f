//! The image of a volume without files.
ghost use Rattle.std.specs.Prelude.{◌≡◌, ◌-◌, ℕ, [], map, replicate, IfOk, IfErr};
ghost use Rattle.geometry.specs.File.{Block};
ghost use Rattle.geometry.specs.declared.geometry.Geometry.{Geometry as Numbers};
ghost use Rattle.geometry.specs.declared.error.Error.TheVariants.{NoMemory};
ghost use Rattle.image.specs.Empty.{empty_image, empty_segment, first_place};
ghost use Rattle.image.specs.Files.{below, files};
ghost use Rattle.image.specs.Free.{free_count};
ghost use Rattle.image.specs.Image.{no_node};
ghost use Rattle.image.specs.Rules.{IsLawful};
ghost use Rattle.image.specs.View.{image_view, info_view, node_or_none};

use crate::{Image, LogHead, Node, NodeEntry, SegmentInfo};
use geometry::{Error, Geometry, Shape, Summary};
use std::alloc::{AllocError, Global};

// So many logs append to a volume.
const LOGS: u32 = 6;

// Each log appends to the segment of its number.
fn first_logs(alloc: Global) -> Result<Vec<Option<LogHead>>, AllocError>
    ensures { IfOk result (λ logs. logs.items ≡ map first_place (below 6)) }
{
    let mut logs = Vec::with_capacity(alloc, LOGS as usize)?;
    for segment in 0..LOGS {
        logs.push(Some(LogHead { segment, next: 0 }))?;
    }
    Ok(logs)
}

fn empty_segments(alloc: Global, shape: Shape, count: u32) -> Result<Vec<SegmentInfo>, AllocError>
    ensures { IfOk result (λ segments. map info_view segments.items ≡ replicate count (empty_segment shape)) }
{
    let mut segments = Vec::with_capacity(alloc, count as usize)?;
    for _ in 0..count {
        let bits = vec![in alloc; false; shape.segment_blocks() as usize]?;
        segments.push(SegmentInfo {
            count: 0,
            mtime: 0,
            bits,
        })?;
    }
    Ok(segments)
}

fn no_nodes(alloc: Global, count: u32) -> Result<Vec<Option<Node>>, AllocError>
    ensures { IfOk result (λ nodes. map node_or_none nodes.items ≡ replicate count no_node) }
{
    let mut nodes = Vec::with_capacity(alloc, count as usize)?;
    for _ in 0..count {
        nodes.push(None)?;
    }
    Ok(nodes)
}

impl Image {
    /// The image of a volume of version 1 without files, as a format writes it (Linux `filesystems/f2fs`; mkfs.f2fs): no block is
    /// valid, segments 0 to 5 are open, one for each log, and the others are free. The only error is NoMemory.
    pub fn empty(alloc: Global, geometry: &Geometry) -> Result<Image, Error>
        ensures image { IfOk result (λ image. image_view image ≡ empty_image geometry.now) }
        ensures error { IfErr result (λ error. error ≡ NoMemory) }
    {
        let none = NodeEntry {
            inode: 0,
            address: 0,
        };
        let logs = first_logs(alloc)?;
        let nat = vec![in alloc; none; geometry.nodes as usize]?;
        let sit = empty_segments(alloc, geometry.shape, geometry.segments)?;
        let ssa = vec![in alloc; Summary::NONE; geometry.blocks() as usize]?;
        let nodes = no_nodes(alloc, geometry.nodes)?;
        Ok(Image {
            version: 1,
            total: 0,
            logs,
            nat,
            sit,
            ssa,
            nodes,
        })
    }
}

/// The image of a volume without files keeps all ten rules, has no file over any blocks, and all its segments are free but
/// the six that the logs stand in. It runs nothing: its contract is the law.
pub fn empty_law()
    ensures lawful { (geometry : Numbers) → IsLawful geometry (empty_image geometry) }
    ensures files { (geometry : Numbers) (blocks : ℕ → Block) → files geometry (empty_image geometry) blocks ≡ [] }
    ensures free { (geometry : Numbers) → free_count geometry (empty_image geometry) ≡ geometry.segments - 6 }
{}
