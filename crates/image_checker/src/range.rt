//! Whether tables have their lengths, and all numbers are in range; and whether the table's blocks are nodes.
ghost use Rattle.std.specs.Prelude.{◌≡◌, ◌≢◌, ◌<◌, ◌≤◌, ◌↔◌, ◌*◌, ◌+◌, ◌^◌, ℕ, [], IsTrue, All, IfSome, length};
ghost use Rattle.geometry.specs.Area.{block_count};
ghost use Rattle.geometry.specs.Shape.{segment_blocks};
ghost use Rattle.image.specs.Image.{no_node, entry_of, node_of};
ghost use Rattle.image.specs.Node.{HasEntries, IsPlain};
ghost use Rattle.image.specs.Rules.{IsPlace, IsEntry, HasRange, NodesHaveEntries, IsInRange, IsNodeOf, TableHoldsNodes};
ghost use Rattle.image.specs.View.{image_view, node_view, node_or_none};
ghost use Rattle.geometry.specs.Class.{class_code};

use crate::used::used_of;
use geometry::{Class, Geometry, Kind, Shape};
use image::class::class_code;
use image::{Image, LogHead, Node, NodeEntry, SegmentInfo};

/// Whether each log stands in the main blocks.
pub fn places_in_range(geometry: &Geometry, logs: &[Option<LogHead>]) -> bool
    ensures { IsTrue result ↔ All (λ log. IfSome log (IsPlace geometry.now)) logs.now }
{
    for log in logs {
        if let Some(place) = log {
            if place.segment >= geometry.segments || place.next >= geometry.shape.segment_blocks() {
                return false;
            }
        }
    }
    true
}

// Whether an entry names a number and a block that there are, or neither.
fn is_entry(geometry: &Geometry, entry: NodeEntry) -> bool
    ensures { IsTrue result ↔ IsEntry geometry.now entry }
{
    let is_whole = (entry.inode == 0) == (entry.address == 0);
    entry.inode <= geometry.nodes && entry.address <= geometry.blocks() && is_whole
}

/// Whether each entry of the table names a number and a block that there are, or neither.
pub fn entries_in_range(geometry: &Geometry, table: &[NodeEntry]) -> bool
    ensures { IsTrue result ↔ All (IsEntry geometry.now) table.now }
{
    table.iter().all(|entry| is_entry(geometry, *entry))
}

/// Whether each segment has a bit for each of its blocks.
pub fn bits_in_range(geometry: &Geometry, segments: &[SegmentInfo]) -> bool
    ensures { IsTrue result ↔ All (λ s. length s.bits.items ≡ segment_blocks geometry.now.shape) segments.now }
{
    let blocks = geometry.shape.segment_blocks() as usize;
    segments.iter().all(|s| s.bits.len() == blocks)
}

/// Whether each number is at most a bound.
pub fn all_up_to(numbers: &[u32], bound: u32) -> bool
    ensures { IsTrue result ↔ All (λ a. a ≤ bound) numbers.now }
{
    let some = &numbers[..used_of(numbers)];
    some.iter().all(|number| *number <= bound)
}

/// Whether a node has as many addresses and children as one of its class.
pub fn has_entries(shape: Shape, node: &Node) -> bool
    ensures { IsTrue result ↔ HasEntries shape (node_view node.now) (class_code node.now.class) }
{
    let addresses = node.addresses.len();
    let children = node.children.len();
    match node.class {
        Class::Inode => addresses == shape.inode_entries() as usize && children == 5,
        Class::Direct => addresses == shape.node_entries() as usize && children == 0,
        Class::Indirect => addresses == 0 && children == shape.node_entries() as usize,
        Class::Data => addresses == 0 && children == 0,
    }
}

// Whether a node has no length and no kind of its own, or is an inode.
fn is_plain(node: &Node) -> bool
    ensures { IsTrue result ↔ IsPlain (node_view node.now) }
{
    match node.class {
        Class::Inode => true,
        _ => node.length == 0 && node.kind == Kind::File,
    }
}

/// Whether a node's numbers are in range.
pub fn node_in_range(geometry: &Geometry, node: &Node) -> bool
    ensures { IsTrue result ↔ HasRange geometry.now (node_view node.now) }
{
    let entries = has_entries(geometry.shape, node);
    let addresses = all_up_to(&node.addresses, geometry.blocks());
    let children = all_up_to(&node.children, geometry.nodes);
    let length = node.length <= geometry.shape.largest_length();
    let inode = node.inode <= geometry.nodes;
    inode && entries && addresses && children && length && is_plain(node)
}

// Whether there is no node, or one whose numbers are in range.
fn slot_in_range(geometry: &Geometry, slot: &Option<Node>) -> bool
    ensures { IsTrue result ↔ HasRange geometry.now (node_or_none slot.now) }
{
    match slot {
        Some(node) => node_in_range(geometry, node),
        None => true,
    }
}

/// Whether all nodes' numbers are in range.
pub fn nodes_in_range(geometry: &Geometry, nodes: &[Option<Node>]) -> bool
    ensures { IsTrue result ↔ All (λ node. HasRange geometry.now (node_or_none node)) nodes.now }
{
    for slot in nodes {
        if !slot_in_range(geometry, slot) {
            return false;
        }
    }
    true
}

// Whether a number has an entry in the table, or no node.
fn is_owned(image: &Image, nid: u32) -> bool
    ensures { IsTrue result ↔ ((entry_of (image_view image.now) nid).address ≡ 0 → node_of (image_view image.now) nid ≡ no_node) }
{
    image.entry(nid).address != 0 || image.node(nid).is_none()
}

/// Whether each node has an entry in the table.
pub fn nodes_have_entries(geometry: &Geometry, image: &Image) -> bool
    ensures { IsTrue result ↔ NodesHaveEntries geometry.now (image_view image.now) }
{
    for nid in 0..geometry.nodes + 1 {
        if !is_owned(image, nid) {
            return false;
        }
    }
    true
}

/// Whether all tables have their lengths.
pub fn lengths_agree(geometry: &Geometry, image: &Image) -> bool
    ensures { IsTrue result ↔ ((length image.now.logs.items ≡ 6) × (length image.now.nat.items ≡ geometry.now.nodes)
        × (length image.now.sit.items ≡ geometry.now.segments) × (length image.now.ssa.items ≡ block_count geometry.now)
        × (length image.now.nodes.items ≡ geometry.now.nodes)) }
{
    image.logs.len() == 6
        && image.nat.len() == geometry.nodes as usize
        && image.sit.len() == geometry.segments as usize
        && image.ssa.len() == geometry.blocks() as usize
        && image.nodes.len() == geometry.nodes as usize
}

/// Whether the tables have their lengths, all numbers are in range, and nodes and entries belong together.
pub fn is_in_range(geometry: &Geometry, image: &Image) -> bool
    ensures { IsTrue result ↔ IsInRange geometry.now (image_view image.now) }
{
    if image.version < 1 || !lengths_agree(geometry, image) {
        return false;
    }
    if !places_in_range(geometry, &image.logs) {
        return false;
    }
    if !entries_in_range(geometry, &image.nat) {
        return false;
    }
    if !bits_in_range(geometry, &image.sit) {
        return false;
    }
    if !nodes_in_range(geometry, &image.nodes) {
        return false;
    }
    nodes_have_entries(geometry, image)
}

/// Whether the block of an entry is a node of its number and inode, of a class that the number may have.
pub fn is_node_of(geometry: &Geometry, image: &Image, nid: u32) -> bool
    ensures { IsTrue result ↔ IsNodeOf geometry.now (image_view image.now) nid }
{
    match image.node(nid) {
        Some(node) => {
            let inode = image.entry(nid).inode;
            let low = nid <= geometry.files;
            let class = class_code(node.class);
            node.nid == nid
                && node.inode == inode
                && class < 3
                && (class == 0) == low
                && (!low || node.inode == nid)
        }
        None => false,
    }
}

/// Whether each entry's block is a node of its number.
pub fn table_holds_nodes(geometry: &Geometry, image: &Image) -> bool
    ensures { IsTrue result ↔ TableHoldsNodes geometry.now (image_view image.now) }
{
    for nid in 0..geometry.nodes + 1 {
        if image.entry(nid).address != 0 && !is_node_of(geometry, image, nid) {
            return false;
        }
    }
    true
}
