//! What stands at an index of a file.
ghost use Rattle.std.specs.Prelude.{◌≡◌, ◌<◌, None, MatchOption, IsTrue, ◌↔◌, length, replicate, OnOk, IfOk};
ghost use Rattle.geometry.specs.Path.{path, largest_length};
ghost use Rattle.nodes.specs.File.{address_of};

use crate::file::FileState;
use crate::place::Place;
use device::{Block, DeviceError};

impl<B: Block> FileState<B> {
    ghost use Rattle.nodes.specs.File.{IsFile, ticket_at, ends_at, missing_to};

    /// The address of the block at the index, 0 where there is none.
    pub fn slot(&self, index: u32) -> u32
        requires inside { index < largest_length self.now.shape }
        requires file { IsFile self.now }
        ensures ticket { result ≡ address_of (ticket_at self.now index) }
        ensures path { result ≡ address_of (ends_at self.now (path self.now.shape index)) }
    {
        match self.place(index) {
            Place::InTickets(at) => self.tickets.address(at.count, at.entries, at.index),
            Place::InDirect(at) => self.direct.address(at.count, at.entries, at.index),
            Place::InIndirect(at) => self.indirect.address(at.count, at.entries, at.index),
            Place::InDouble(at) => self.double.address(at.count, at.entries, at.index),
        }
    }

    /// Reads the block at the index into `out`, which has as many bytes, or zeros where there is none. After a failure of
    /// the device `out` has any bytes.
    pub fn read(&mut self, index: u32, out: &mut [u8]) -> Result<(), DeviceError>
        requires inside { index < largest_length self.old.shape }
        requires file { IsFile self.old }
        requires out { MatchOption (ticket_at self.old index) (Unit {0}) (λ ticket. length out.old ≡ length ticket.content) }
        ensures same { self.new ≡ self.old }
        ensures bytes { OnOk result (MatchOption (ticket_at self.old index) (out.new ≡ replicate (length out.old) 0) (λ ticket. out.new ≡ ticket.content)) }
    {
        match self.place(index) {
            Place::InTickets(at) => self.tickets.read(at.count, at.entries, at.index, out),
            Place::InDirect(at) => self.direct.read(at.count, at.entries, at.index, out),
            Place::InIndirect(at) => self.indirect.read(at.count, at.entries, at.index, out),
            Place::InDouble(at) => self.double.read(at.count, at.entries, at.index, out),
        }
    }

    /// The bytes of the block at the index as they are now, whatever is written later; None where there is none. A failure
    /// of the device changes nothing.
    pub fn lend(&mut self, index: u32) -> Result<Option<B::Lease>, DeviceError>
        requires inside { index < largest_length self.old.shape }
        requires file { IsFile self.old }
        ensures same { self.new ≡ self.old }
        ensures none { IfOk result (λ lease. lease ≡ None → ticket_at self.old index ≡ None) }
        ensures bytes { IfOk result (λ lease. MatchOption lease (Unit {0}) (λ l. MatchOption (ticket_at self.old index) ⊥ (λ ticket. B.Lease.items l ≡ ticket.content))) }
    {
        match self.place(index) {
            Place::InTickets(at) => self.tickets.lend(at.count, at.entries, at.index),
            Place::InDirect(at) => self.direct.lend(at.count, at.entries, at.index),
            Place::InIndirect(at) => self.indirect.lend(at.count, at.entries, at.index),
            Place::InDouble(at) => self.double.lend(at.count, at.entries, at.index),
        }
    }
}
