//! What is told of the tickets below one entry.
ghost use Rattle.std.specs.Prelude.{◌≡◌, ◌^◌, ◌<◌, None, length, replicate, OnOk, IfOk, MatchOption, IsTrue, ◌↔◌};
ghost use Rattle.nodes.specs.Tree.{number_of};
ghost use Rattle.nodes.specs.Change.{each_marked};

use crate::{Branch, Subtree};
use device::{Block, DeviceError};
use tickets::Ticket;

/// A tree whose blocks can be looked up and read.
pub trait Reading: Subtree {
    /// The address of the block at the index, 0 where there is none.
    fn address(slot: &Option<Self>, entries: usize, index: usize) -> u32
        requires some { 0 < entries }
        requires fits { Self.span_of entries < 2 ^ 64 }
        requires inside { index < Self.span_of entries }
        requires shaped { Self.shaped entries slot.now }
        ensures { result ≡ number_of Self.address_of (Self.find entries slot.now index) };

    /// Whether no node is marked as changed.
    fn is_clean(slot: &Option<Self>) -> bool
        ensures { IsTrue result ↔ (Self.weight each_marked slot.now ≡ 0) };

    /// Reads the block at the index, zeros where there is none. After a failure of the device `out` has any bytes.
    fn read(
        slot: &mut Option<Self>,
        entries: usize,
        index: usize,
        out: &mut [u8],
    ) -> Result<(), DeviceError>
        requires some { 0 < entries }
        requires fits { Self.span_of entries < 2 ^ 64 }
        requires inside { index < Self.span_of entries }
        requires shaped { Self.shaped entries slot.old }
        requires out { MatchOption (Self.find entries slot.old index) (Unit {0}) (λ ticket. length out.old ≡ length (Self.content_of ticket)) }
        ensures same { slot.new ≡ slot.old }
        ensures bytes { OnOk result (MatchOption (Self.find entries slot.old index) (out.new ≡ replicate (length out.old) 0) (λ ticket. out.new ≡ Self.content_of ticket)) };

    /// The bytes of the block at the index as they are now, whatever becomes of the block; None where there is none.
    fn lend(
        slot: &mut Option<Self>,
        entries: usize,
        index: usize,
    ) -> Result<Option<Self::Lease>, DeviceError>
        requires some { 0 < entries }
        requires fits { Self.span_of entries < 2 ^ 64 }
        requires inside { index < Self.span_of entries }
        requires shaped { Self.shaped entries slot.old }
        ensures same { slot.new ≡ slot.old }
        ensures none { IfOk result (λ lease. lease ≡ None → Self.find entries slot.old index ≡ None) }
        ensures bytes { IfOk result (λ lease. MatchOption lease (Unit {0}) (λ l. MatchOption (Self.find entries slot.old index) ⊥ (λ ticket. Self.lent l ≡ Self.content_of ticket))) };
}

impl<B: Block> Reading for Ticket<B> {
    fn address(slot: &Option<Ticket<B>>, _entries: usize, _index: usize) -> u32 {
        match slot {
            Some(ticket) => ticket.address(),
            None => 0,
        }
    }

    fn is_clean(_slot: &Option<Ticket<B>>) -> bool {
        true
    }

    fn read(
        slot: &mut Option<Ticket<B>>,
        _entries: usize,
        _index: usize,
        out: &mut [u8],
    ) -> Result<(), DeviceError> {
        match slot {
            Some(ticket) => ticket.read(out),
            None => {
                out.fill(0);
                Ok(())
            }
        }
    }

    fn lend(
        slot: &mut Option<Ticket<B>>,
        _entries: usize,
        _index: usize,
    ) -> Result<Option<B::Lease>, DeviceError> {
        match slot {
            Some(ticket) => match ticket.lend() {
                Ok(lease) => Ok(Some(lease)),
                Err(error) => Err(error),
            },
            None => Ok(None),
        }
    }
}

impl<C: Reading> Reading for Branch<C> {
    fn address(slot: &Option<Branch<C>>, entries: usize, index: usize) -> u32 {
        match slot {
            Some(branch) => branch.entries.address(entries, entries, index),
            None => 0,
        }
    }

    fn is_clean(slot: &Option<Branch<C>>) -> bool {
        match slot {
            Some(branch) => branch.entries.is_clean(),
            None => true,
        }
    }

    fn read(
        slot: &mut Option<Branch<C>>,
        entries: usize,
        index: usize,
        out: &mut [u8],
    ) -> Result<(), DeviceError> {
        match slot {
            Some(branch) => branch.entries.read(entries, entries, index, out),
            None => {
                out.fill(0);
                Ok(())
            }
        }
    }

    fn lend(
        slot: &mut Option<Branch<C>>,
        entries: usize,
        index: usize,
    ) -> Result<Option<C::Lease>, DeviceError> {
        match slot {
            Some(branch) => branch.entries.lend(entries, entries, index),
            None => Ok(None),
        }
    }
}
