//! At most how many nodes of a file are marked as changed since they were written last.
//!
//! It is counted beside the file, for the rule that keeps segments for the next checkpoint: see `area::HoleReuse`. No promise rests on
//! it.
use area::MarkedNodes;
use geometry::{Owner, Shape};

/// The marked nodes of a file, and which node was marked last, so that it is not counted again.
#[derive(Clone, Copy, PartialEq, Eq)]
pub struct Marks {
    nodes: MarkedNodes,
    // The direct node that was written to last, counted from 1 in the order of the indexes; 0 where none was.
    written: u32,
    // The number of the node a block of which was moved last; 0 where none was.
    moved: u32,
}

impl Marks {
    /// No node is marked.
    pub const NONE: Marks = Marks {
        nodes: MarkedNodes::NONE,
        written: 0,
        moved: 0,
    };

    // The inode is marked, as of a file that was just made.
    pub(crate) const BORN: Marks = Marks {
        nodes: MarkedNodes {
            direct: 1,
            indirect: 0,
        },
        written: 0,
        moved: 0,
    };

    /// How many nodes are marked at most.
    pub fn nodes(self) -> MarkedNodes {
        self.nodes
    }

    // Whether a write at an index is to another direct node than the one before.
    pub(crate) fn moves_on(self, shape: Shape, index: u32) -> bool {
        let node = direct_node(shape, index);
        node != 0 && node != self.written
    }

    // After a write at an index of a file that has a length then, where the nodes on the way may have been missing.
    pub(crate) fn after_write(self, shape: Shape, index: u32, length: u32, is_new: bool) -> Marks {
        let mut next = self.with_inode();
        if self.moves_on(shape, index) {
            next = next.with_direct();
            next.written = direct_node(shape, index);
        }
        if is_new {
            next = next.with_indirect();
        }
        next.within(shape, length)
    }

    // After a block of this owner was moved in a file of a length whose inode has this number.
    pub(crate) fn after_move(self, shape: Shape, inode: u32, owner: Owner, length: u32) -> Marks {
        let Owner::Data(node, _) = owner else {
            return self;
        };
        let mut next = self.with_inode();
        if node != inode && node != self.moved {
            next = next.with_direct();
            next.moved = node;
        }
        next.within(shape, length)
    }

    // After a cut of a file that had a length.
    pub(crate) fn after_cut(self, shape: Shape, length: u32) -> Marks {
        let next = self.with_inode().with_direct().with_indirect();
        next.within(shape, length)
    }

    // After blocks between two indexes of a file that had a length were given back: at either end a node may keep some of its blocks.
    pub(crate) fn after_erase(self, shape: Shape, length: u32) -> Marks {
        let first = self.after_cut(shape, length);
        first.after_cut(shape, length)
    }

    // The inode is marked too.
    fn with_inode(mut self) -> Marks {
        self.nodes.direct = self.nodes.direct.max(1);
        self
    }

    // A direct node is marked too.
    fn with_direct(mut self) -> Marks {
        self.nodes.direct = self.nodes.direct.saturating_add(1);
        self
    }

    // The indirect nodes on the way to one are marked too.
    fn with_indirect(mut self) -> Marks {
        self.nodes.indirect = self.nodes.indirect.saturating_add(2);
        self
    }

    // No more than a file of a length has.
    fn within(mut self, shape: Shape, length: u32) -> Marks {
        let last = direct_node(shape, length);
        let entries = shape.node_entries();
        let above = last.saturating_sub(2);
        let most = if above == 0 { 0 } else { above / entries + 3 };
        self.nodes.direct = self.nodes.direct.min(last.saturating_add(1));
        self.nodes.indirect = self.nodes.indirect.min(most);
        self
    }
}

// Which direct node names the block at an index, counted from 1; 0 where the inode does.
pub(crate) fn direct_node(shape: Shape, index: u32) -> u32 {
    match index.checked_sub(shape.inode_entries()) {
        Some(past) => past / shape.node_entries() + 1,
        None => 0,
    }
}
