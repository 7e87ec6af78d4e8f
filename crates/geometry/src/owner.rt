//! Who names a block.
ghost use Rattle.std.specs.Prelude.{◌≡◌};

/// Who names a valid block (Linux `filesystems/f2fs`, segment summaries).
#[derive(Clone, Copy, PartialEq, Eq)]
pub enum Owner {
    /// The block is the node of this number.
    Node(u32),
    /// The block is data: the node of the first number names it in the slot of the second.
    Data(u32, u32),
}

/// A valid block, by its address, and who names it.
#[derive(Clone, Copy, PartialEq, Eq)]
pub struct Mark {
    pub address: u32,
    pub owner: Owner,
}

/// What the segment summary area has for a block: two numbers that tell who names it, both 0 where nobody does.
#[derive(Clone, Copy, PartialEq, Eq)]
pub struct Summary {
    pub nid: u32,
    pub slot: u32,
}

impl Summary {
    /// Of a block that nobody names.
    pub const NONE: Summary = Summary { nid: 0, slot: 0 };

    /// The slot that stands for a node.
    pub const NODE: u32 = u32::MAX;

    ghost use Rattle.geometry.specs.Summary.{summary_of, owner_in};

    /// The summary of a block that this owner names.
    pub fn of(owner: Owner) -> Summary
        ensures { result ≡ summary_of owner }
    {
        match owner {
            Owner::Node(nid) => Summary {
                nid,
                slot: Summary::NODE,
            },
            Owner::Data(nid, slot) => Summary { nid, slot },
        }
    }

    /// Who names the block, if anybody does.
    pub fn owner(self) -> Option<Owner>
        ensures { result ≡ owner_in self }
    {
        if self.nid == 0 {
            None
        } else if self.slot == Summary::NODE {
            Some(Owner::Node(self.nid))
        } else {
            Some(Owner::Data(self.nid, self.slot))
        }
    }
}
