//! How a file's tickets come, and its tickets and nodes go.
ghost use Rattle.std.specs.Prelude.{Bool, ◌≡◌, ℕ, ◌+◌, ◌-◌, ◌^◌, ◌<◌, max, min, Some, MatchOption};
ghost use Rattle.geometry.specs.Path.{inode_entries, node_entries, largest_length};
ghost use Rattle.geometry.specs.File.{File, written, cut_to};
ghost use Rattle.tickets.specs.Placed.{Placed};
ghost use Rattle.nodes.specs.Tree.{SetsAt, Same, KeepsNamers, EmptyFrom, HandsOut, HandsOutAt, SparesIndex, SparesPast, AsksPast, AsksHolding};
ghost use Rattle.nodes.specs.Change.{Weighing, ticket_weight, WeighsAs, nothing};
ghost use Rattle.nodes.specs.Marks.{unchanged, lengthened, shortened};

use crate::Spare;
use crate::file::FileState;
use crate::place::Place;
use device::Block;
use tickets::Ticket;

impl<B: Block> FileState<B> {
    ghost use Rattle.nodes.specs.File.{IsFile, IsBare, Shows, ticket_at, missing_to, count_of, inode_of, below_weight};
    ghost use Rattle.nodes.specs.Owners.{namer_at};
    ghost use Rattle.nodes.specs.Marks.{MarksNode};
    ghost use Rattle.nodes.specs.Puts.{Puts, Cuts, IsCutTo, Erases, IsHole};
    ghost use Rattle.nodes.specs.Useful.{IsUseful, each_node, is_off, reaches, ends_by};

    /// Puts a ticket at the index, and hands out the one that stood there: the file is the written file. Marks the node that
    /// holds the slot, and the inode where the file becomes longer.
    pub fn put(&mut self, index: u32, ticket: Ticket<B>) -> Option<Ticket<B>>
        requires inside { index < largest_length self.old.shape }
        requires file { IsFile self.old }
        requires path { missing_to self.old index ≡ 0 }
        ensures old { result ≡ ticket_at self.old index }
        ensures sets { SetsAt (ticket_at self.old) (ticket_at self.new) index (Some ticket) }
        ensures namer { Same (namer_at self.old) (namer_at self.new) }
        ensures useful { IsUseful (is_off index) self.old → IsUseful each_node self.new }
        ensures written { (file : File) → Shows self.old file → Shows self.new (written file index ticket.content) }
        ensures change { MarksNode (lengthened index) self.old self.new (λ w. ticket_weight w result) (λ w. w.ticket ticket) }
        ensures length { self.new.length ≡ max self.old.length (index + 1) }
        ensures shape { self.new.shape ≡ self.old.shape }
        ensures kind { self.new.kind ≡ self.old.kind }
        ensures file { IsFile self.new }
    {
        self.lengthen(index);
        self.put_ticket(index, ticket)
    }

    fn lengthen(&mut self, index: u32)
        requires { index < 2 ^ 32 - 1 }
        ensures state { self.new ≡ record self.old { length = max self.old.length (index + 1); resized = self.new.resized } }
        ensures inode { inode_of self.new ≡ lengthened index (inode_of self.old) }
    {
        if self.length <= index {
            self.length = index + 1;
            self.resized = true;
        }
    }

    fn put_ticket(&mut self, index: u32, ticket: Ticket<B>) -> Option<Ticket<B>>
        requires inside { index < largest_length self.old.shape }
        requires within { index < self.old.length }
        requires file { IsFile self.old }
        requires path { missing_to self.old index ≡ 0 }
        ensures { Puts self.old self.new index ticket result }
    {
        match self.place(index) {
            Place::InTickets(at) => self.tickets.put(at.count, at.entries, at.index, ticket),
            Place::InDirect(at) => self.direct.put(at.count, at.entries, at.index, ticket),
            Place::InIndirect(at) => self.indirect.put(at.count, at.entries, at.index, ticket),
            Place::InDouble(at) => self.double.put(at.count, at.entries, at.index, ticket),
        }
    }

    /// Hands out one ticket at or past the length, or the token of a node that names nothing, and marks the node that named
    /// it. None: the file is cut to the length, which marks the inode where that is less than it was, and each node that
    /// reaches past the length names something.
    pub fn cut(&mut self, length: u32) -> Option<Spare<Ticket<B>>>
        requires file { IsFile self.old }
        ensures none { MatchOption result
            (Same (ticket_at self.old) (ticket_at self.new) × EmptyFrom (ticket_at self.new) length × (length ≡ 0 → IsBare self.new))
            (λ _. Unit {0}) }
        ensures cut { MatchOption result ((file : File) → Shows self.old file → Shows self.new (cut_to file length)) (λ _. Unit {0}) }
        ensures kept { MatchOption result
            (((w : Weighing Placed) → below_weight self.new w ≡ below_weight self.old w) × (inode_of self.new ≡ shortened length (inode_of self.old)) × (self.new.token ≡ self.old.token))
            (λ _. Unit {0}) }
        ensures out { MatchOption result (Unit {0}) (λ spare. HandsOut (ticket_at self.old) (ticket_at self.new) length spare) }
        ensures namer { KeepsNamers (ticket_at self.new) (namer_at self.old) (namer_at self.new) }
        ensures useful { IsUseful (ends_by length) self.old → IsUseful (ends_by length) self.new }
        ensures past { MatchOption result (IsUseful (reaches length) self.new) (λ _. Unit {0}) }
        ensures change { MatchOption result (Unit {0})
            (λ spare. (out : Weighing Placed → ℕ) × WeighsAs spare out × MarksNode unchanged self.old self.new out nothing) }
        ensures fewer { MatchOption result (Unit {0}) (λ _. count_of self.new + 1 ≡ count_of self.old) }
        ensures length { MatchOption result (self.new.length ≡ min self.old.length length) (λ _. self.new.length ≡ self.old.length) }
        ensures shape { self.new.shape ≡ self.old.shape }
        ensures kind { self.new.kind ≡ self.old.kind }
        ensures file { IsFile self.new }
    {
        if let Some(spare) = self.cut_entries(length) {
            return Some(spare);
        }
        self.shorten(length);
        None
    }

    /// Hands out the ticket at the index, or else the token of a node on the way to it that names nothing, and marks the node
    /// that named it. None: the index is a hole, and nothing has changed. The length stays.
    pub fn erase(&mut self, index: u32) -> Option<Spare<Ticket<B>>>
        requires inside { index < largest_length self.old.shape }
        requires file { IsFile self.old }
        ensures hole { MatchOption result ((self.new ≡ self.old) × IsHole self.old index) (λ _. Unit {0}) }
        ensures erased { MatchOption result (Unit {0}) (λ spare. Erases self.old self.new index spare) }
    {
        match self.place(index) {
            Place::InTickets(at) => self.tickets.erase(at.count, at.entries, at.index),
            Place::InDirect(at) => self.direct.erase(at.count, at.entries, at.index),
            Place::InIndirect(at) => self.indirect.erase(at.count, at.entries, at.index),
            Place::InDouble(at) => self.double.erase(at.count, at.entries, at.index),
        }
    }

    fn shorten(&mut self, length: u32)
        ensures state { self.new ≡ record self.old { length = min self.old.length length; resized = self.new.resized } }
        ensures inode { inode_of self.new ≡ shortened length (inode_of self.old) }
    {
        if length < self.length {
            self.length = length;
            self.resized = true;
        }
    }

    fn cut_entries(&mut self, length: u32) -> Option<Spare<Ticket<B>>>
        requires file { IsFile self.old }
        ensures { MatchOption result ((self.new ≡ self.old) × IsCutTo self.old length) (λ spare. Cuts self.old self.new length spare) }
    {
        let slots = self.shape.inode_entries() as usize;
        let entries = self.shape.node_entries() as usize;
        let from = length as usize;
        let past_tickets = from.saturating_sub(slots);
        let past_direct = past_tickets.saturating_sub(2 * entries);
        let past_indirect = past_direct.saturating_sub(2 * (entries * entries));
        if let Some(spare) = self.double.cut(1, entries, past_indirect) {
            return Some(spare);
        }
        if let Some(spare) = self.indirect.cut(2, entries, past_direct) {
            return Some(spare);
        }
        if let Some(spare) = self.direct.cut(2, entries, past_tickets) {
            return Some(spare);
        }
        if let Some(spare) = self.tickets.cut(slots, entries, from) {
            return Some(spare);
        }
        None
    }
}
