//! A ticket: the right to a valid block, with the block itself.
ghost use Rattle.std.specs.Prelude.{◌≡◌, length, OnOk, IfOk};

use device::{Block, DeviceError};
use geometry::{Mark, Owner};
use rights_books::MarkClaim as Claimed;
use std::marker::Model;

/// The one right to a valid block: the block itself, and its ticket in the books, which names who has it. It can't be
/// dropped or copied; its segment takes it back.
pub struct Ticket<B: Block> {
    claimed: Claimed,
    block: B,
}

impl<B: Block> Model for Ticket<B> {
    ghost use Rattle.std.specs.Prelude.{◌≡◌};
    ghost use Rattle.tickets.specs.Placed.{Placed};

    ghost Value = { Placed };

    ghost view = { λ t. record { mark = t.claimed; content = B.content_of t.block } };

    ghost invariant = { λ t. B.address_of t.block ≡ t.claimed.address };
}

impl<B: Block> Ticket<B> {
    /// The ticket of a block, which the books have marked.
    pub fn new(claimed: Claimed, block: B) -> Ticket<B>
        requires address { B.address_of block ≡ claimed.address }
        ensures mark { result.mark ≡ claimed }
        ensures content { result.content ≡ B.content_of block }
    {
        Ticket { claimed, block }
    }

    /// The address of its block.
    pub fn address(&self) -> u32
        ensures { result ≡ self.now.mark.address }
    {
        self.block.address()
    }

    /// Who names its block.
    pub fn owner(&self) -> Owner
        ensures { result ≡ self.now.mark.owner }
    {
        let Mark { address: _, owner } = self.claimed.mark();
        owner
    }

    /// Reads its block into `out`, which has as many bytes. After a failure of the device `out` has any bytes, and the block
    /// its own.
    pub fn read(&mut self, out: &mut [u8]) -> Result<(), DeviceError>
        requires { length out.old ≡ length self.old.content }
        ensures same { self.new ≡ self.old }
        ensures bytes { OnOk result (out.new ≡ self.old.content) }
    {
        self.block.read(out)
    }

    /// The block's bytes as they are now, whatever becomes of the block. A failure of the device changes nothing.
    pub fn lend(&mut self) -> Result<B::Lease, DeviceError>
        ensures same { self.new ≡ self.old }
        ensures bytes { IfOk result (λ lease. B.Lease.items lease ≡ self.old.content) }
    {
        self.block.lend()
    }

    /// Its ticket in the books, and the block.
    pub fn into_parts(self) -> (Claimed, B)
        ensures mark { result.0 ≡ self.mark }
        ensures address { B.address_of result.1 ≡ self.mark.address }
        ensures content { B.content_of result.1 ≡ self.content }
    {
        let Ticket { claimed, block } = self;
        (claimed, block)
    }
}
