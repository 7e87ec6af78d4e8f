//! The slot of a taken node number.
ghost use Rattle.std.specs.Prelude.{◌≡◌, ◌<◌, [], length, MatchOption, OnOk};
ghost use Rattle.nat.specs.Slots.{address_in, bytes_in, placed_in};

use device::{Block, DeviceError};
use rights_books::MarkClaim as Claimed;
use std::marker::Model;
use tickets::Ticket;

/// A taken number: the inode of its file, and the node's block, where one was written.
#[derive(Drop)]
pub(crate) struct Slot<B: Block + Drop> {
    inode: u32,
    block: Option<B>,
}

impl<B: Block + Drop> Model for Slot<B> {
    ghost use Rattle.nat.specs.Slots.{SlotView, address_in, bytes_in};

    ghost Value = { SlotView };

    ghost view = { λ s. record { inode = s.inode; address = address_in B.address_of s.block; bytes = bytes_in B.content_of s.block } };
}

impl<B: Block + Drop> Slot<B> {
    /// A number for a node of this inode's file, without a block.
    pub(crate) fn new(inode: u32) -> Slot<B>
        ensures { result ≡ record { inode = inode; address = 0; bytes = [] } }
    {
        Slot { inode, block: None }
    }

    /// The number of the inode.
    pub(crate) fn inode(&self) -> u32
        ensures { result ≡ self.now.inode }
    {
        self.inode
    }

    /// The address of the block, 0 where there is none.
    pub(crate) fn address(&self) -> u32
        ensures { result ≡ self.now.address }
    {
        match &self.block {
            Some(block) => block.address(),
            None => 0,
        }
    }

    /// Reads the block into `out`, which has as many bytes; nothing where there is none. After a failure of the device
    /// `out` has any bytes.
    pub(crate) fn read(&mut self, out: &mut [u8]) -> Result<(), DeviceError>
        requires { length out.old ≡ length self.old.bytes }
        ensures same { self.new ≡ self.old }
        ensures bytes { OnOk result (out.new ≡ self.old.bytes) }
    {
        match &mut self.block {
            Some(block) => block.read(out),
            None => Ok(()),
        }
    }

    /// Another block comes in. The one before it goes out, where the books have handed its ticket out.
    pub(crate) fn swap(&mut self, block: B, before: Option<Claimed>) -> Option<Ticket<B>>
        requires before { MatchOption before (Unit {0}) (λ mark. (0 < mark.address) × (mark.address ≡ self.old.address)) }
        ensures slot { self.new ≡ record { inode = self.old.inode; address = B.address_of block; bytes = B.content_of block } }
        ensures before { result ≡ placed_in before self.old.bytes }
    {
        with_block(before, self.block.replace(block))
    }

    /// The block goes out, where the books have handed its ticket out.
    pub(crate) fn into_ticket(self, claimed: Option<Claimed>) -> Option<Ticket<B>>
        requires { MatchOption claimed (Unit {0}) (λ mark. (0 < mark.address) × (mark.address ≡ self.address)) }
        ensures { result ≡ placed_in claimed self.bytes }
    {
        with_block(claimed, self.block)
    }
}

// A ticket with its block.
fn with_block<B: Block + Drop>(claimed: Option<Claimed>, block: Option<B>) -> Option<Ticket<B>>
    requires { MatchOption claimed (Unit {0}) (λ mark. (0 < mark.address) × (mark.address ≡ address_in B.address_of block)) }
    ensures { result ≡ placed_in claimed (bytes_in B.content_of block) }
{
    match (claimed, block) {
        (Some(claimed), Some(block)) => Some(Ticket::new(claimed, block)),
        (Some(_), None) => unreachable!(),
        // No block has the address 0, so none stands where no ticket is lodged.
        (None, _) => None,
    }
}
