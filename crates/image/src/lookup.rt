//! What an image has for a node number or an address.
ghost use Rattle.std.specs.Prelude.{◌≡◌, option_copied};
ghost use Rattle.image.specs.Image.{entry_of, node_of, is_marked, summary_at};
ghost use Rattle.image.specs.View.{image_view, node_or_none};
ghost use Rattle.image.specs.Walk.{child};

use crate::{Image, Node, NodeEntry};
use geometry::{Geometry, Summary};

impl Image {
    /// The node of a node number, if the image has one.
    pub fn node(&self, nid: u32) -> Option<&Node>
        ensures { node_or_none (option_copied result) ≡ node_of (image_view self.now) nid }
    {
        if nid == 0 {
            return None;
        }
        match self.nodes.get(nid as usize - 1) {
            Some(Some(node)) => Some(node),
            _ => None,
        }
    }

    /// The entry of a node number in the node address table, of zeros where there is none.
    pub fn entry(&self, nid: u32) -> NodeEntry
        ensures { result ≡ entry_of (image_view self.now) nid }
    {
        if nid == 0 {
            return NodeEntry {
                inode: 0,
                address: 0,
            };
        }
        match self.nat.get(nid as usize - 1) {
            Some(entry) => *entry,
            None => NodeEntry {
                inode: 0,
                address: 0,
            },
        }
    }

    /// The k-th node number in a node's entries, 0 where there is none.
    pub fn child(&self, nid: u32, k: usize) -> u32
        ensures { result ≡ child (image_view self.now) nid k }
    {
        match self.node(nid) {
            Some(node) => match node.children.get(k) {
                Some(child) => *child,
                None => 0,
            },
            None => 0,
        }
    }

    /// Whether the block at an address is valid.
    pub fn is_marked(&self, geometry: &Geometry, address: u32) -> bool
        ensures { result ≡ is_marked geometry.now (image_view self.now) address }
    {
        if address == 0 {
            return false;
        }
        let blocks = geometry.shape.segment_blocks();
        let segment = (address - 1) / blocks;
        let offset = (address - 1) % blocks;
        match self.sit.get(segment as usize) {
            Some(info) => match info.bits.get(offset as usize) {
                Some(bit) => *bit,
                None => false,
            },
            None => false,
        }
    }

    /// The summary of the block at an address, of zeros where there is none.
    pub fn summary(&self, address: u32) -> Summary
        ensures { result ≡ summary_at (image_view self.now) address }
    {
        if address == 0 {
            return Summary::NONE;
        }
        match self.ssa.get(address as usize - 1) {
            Some(summary) => *summary,
            None => Summary::NONE,
        }
    }
}
