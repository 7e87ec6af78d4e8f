//! The search below one entry.
ghost use Rattle.std.specs.Prelude.{◌≡◌, ◌+◌, ◌^◌, ◌<◌, IfOk};
ghost use Rattle.nodes_walks.specs.Data.{IsNextData};
ghost use Rattle.nodes_walks.specs.Lent.{IsNextLent};

use crate::entries::{lend_next_in, next_in};
use device::{Block, DeviceError};
use nodes::{Branch, Subtree};
use tickets::Ticket;

/// The bytes of a block as they were when they were lent, and where it stands: its index, and its address.
#[derive(Drop)]
pub struct LentBlock<L> {
    pub index: usize,
    pub address: u32,
    pub lease: L,
}

impl<L> LentBlock<L> {
    // The same block, so many indexes on.
    pub(crate) fn behind(self, before: usize) -> LentBlock<L>
        requires fits { before + self.index < 2 ^ 64 }
        ensures index { result.index ≡ before + self.index }
        ensures address { result.address ≡ self.address }
        ensures lease { result.lease ≡ self.lease }
    {
        let LentBlock {
            index,
            address,
            lease,
        } = self;
        LentBlock {
            index: before + index,
            address,
            lease,
        }
    }
}

/// A tree in which the next block can be found.
pub trait SeekData: Subtree {
    /// The least index at or past one at which a block stands; None where there is none.
    fn next_data(slot: &Option<Self>, entries: usize, from: usize) -> Option<usize>
        requires some { 0 < entries }
        requires fits { Self.span_of entries < 2 ^ 64 }
        requires shaped { Self.shaped entries slot.now }
        ensures { IsNextData (Self.find entries slot.now) from result };

    /// The block at the least index at or past one at which one stands, lent; None where there is none. Answers DeviceError where
    /// the device failed to lend it. The tree is as it was in each case.
    fn lend_next(
        slot: &mut Option<Self>,
        entries: usize,
        from: usize,
    ) -> Result<Option<LentBlock<Self::Lease>>, DeviceError>
        requires some { 0 < entries }
        requires fits { Self.span_of entries < 2 ^ 64 }
        requires shaped { Self.shaped entries slot.old }
        ensures same { slot.new ≡ slot.old }
        ensures next { IfOk result (IsNextLent Self.address_of Self.content_of Self.lent (Self.find entries slot.old) from) };
}

impl<B: Block> SeekData for Ticket<B> {
    fn next_data(slot: &Option<Ticket<B>>, _entries: usize, from: usize) -> Option<usize> {
        if from == 0 && slot.is_some() {
            return Some(0);
        }
        None
    }

    fn lend_next(
        slot: &mut Option<Ticket<B>>,
        _entries: usize,
        from: usize,
    ) -> Result<Option<LentBlock<B::Lease>>, DeviceError> {
        match slot {
            Some(ticket) if from == 0 => {
                let address = ticket.address();
                let lease = ticket.lend()?;
                Ok(Some(LentBlock {
                    index: 0,
                    address,
                    lease,
                }))
            }
            _ => Ok(None),
        }
    }
}

impl<C: SeekData> SeekData for Branch<C> {
    fn next_data(slot: &Option<Branch<C>>, entries: usize, from: usize) -> Option<usize> {
        match slot {
            Some(branch) => next_in(&branch.entries, entries, entries, from),
            None => None,
        }
    }

    fn lend_next(
        slot: &mut Option<Branch<C>>,
        entries: usize,
        from: usize,
    ) -> Result<Option<LentBlock<C::Lease>>, DeviceError> {
        match slot {
            Some(branch) => lend_next_in(&mut branch.entries, entries, entries, from),
            None => Ok(None),
        }
    }
}
