//! How a block is moved: its ticket is another, its bytes are the same.
ghost use Rattle.std.specs.Prelude.{Bool, ◌≡◌, ℕ, ◌<◌, true, false, Some, OnOk, OnErr, IfOk, IfErr};
ghost use Rattle.geometry.specs.File.{File};
ghost use Rattle.tickets.specs.Placed.{Placed};
ghost use Rattle.nodes.specs.Tree.{Same, SwapsOne};
ghost use Rattle.nodes.specs.Change.{names, each_naming};
ghost use Rattle.nodes.specs.Marks.{unchanged};

use crate::file::FileState;
use device::Block;
use tickets::Ticket;

impl<B: Block> FileState<B> {
    ghost use Rattle.nodes.specs.File.{IsFile, Shows, ticket_at, inode_of, below_weight, weight_of};
    ghost use Rattle.nodes.specs.Owners.{namer_at};
    ghost use Rattle.nodes.specs.Marks.{MarksNode};
    ghost use Rattle.nodes.specs.Puts.{Swaps};
    ghost use Rattle.nodes.specs.Useful.{IsUseful};

    /// Where a node of this number has the address `from` at its entry `at`, puts in the ticket, whose block has the same
    /// bytes, marks the node, and hands out the old ticket (Rosenblum and Ousterhout 1991: cleaning moves a block and
    /// changes who names it). Else hands back the ticket, and nothing has changed. The node is looked for in the whole tree.
    pub fn migrate(
        &mut self,
        nid: u32,
        at: u32,
        from: u32,
        ticket: Ticket<B>,
    ) -> Result<Ticket<B>, Ticket<B>>
        requires file { IsFile self.old }
        requires address { 0 < from }
        requires bytes { (i : ℕ) (t : Placed) → ticket_at self.old i ≡ Some t → t.mark.address ≡ from → t.content ≡ ticket.content }
        ensures named { OnOk result (0 < weight_of self.old (each_naming nid at from)) }
        ensures address { IfOk result (λ before. before.mark.address ≡ from) }
        ensures swaps { IfOk result (λ before. SwapsOne (ticket_at self.old) (ticket_at self.new) before ticket) }
        ensures namer { Same (namer_at self.old) (namer_at self.new) }
        ensures useful { (asked : ℕ → ℕ → Bool) → IsUseful asked self.old → IsUseful asked self.new }
        ensures change { IfOk result (λ before. MarksNode unchanged self.old self.new (λ w. w.ticket before) (λ w. w.ticket ticket)) }
        ensures same { (file : File) → Shows self.old file → Shows self.new file }
        ensures elsewhere { OnErr result (weight_of self.old (each_naming nid at from) ≡ 0) }
        ensures refused { OnErr result (self.new ≡ self.old) }
        ensures back { IfErr result (λ back. back ≡ ticket) }
        ensures length { self.new.length ≡ self.old.length }
        ensures shape { self.new.shape ≡ self.old.shape }
        ensures kind { self.new.kind ≡ self.old.kind }
        ensures file { IsFile self.new }
    {
        match self.migrate_inode(nid, at, from, ticket) {
            Ok(before) => Ok(before),
            Err(back) => self.migrate_below(nid, at, from, back),
        }
    }

    // The same in the inode.
    fn migrate_inode(
        &mut self,
        nid: u32,
        at: u32,
        from: u32,
        ticket: Ticket<B>,
    ) -> Result<Ticket<B>, Ticket<B>>
        requires file { IsFile self.old }
        requires address { 0 < from }
        ensures named { OnOk result (names nid at from (inode_of self.old) ≡ true) }
        ensures address { IfOk result (λ before. before.mark.address ≡ from) }
        ensures swaps { IfOk result (λ before. Swaps self.old self.new before ticket) }
        ensures elsewhere { OnErr result (names nid at from (inode_of self.old) ≡ false) }
        ensures refused { OnErr result (self.new ≡ self.old) }
        ensures back { IfErr result (λ back. back ≡ ticket) }
    {
        if self.token.number() != nid {
            return Err(ticket);
        }
        let slots = self.shape.inode_entries() as usize;
        let entries = self.shape.node_entries() as usize;
        match self.tickets.swap(slots, entries, at as usize, from, ticket) {
            Ok(before) => Ok(before),
            Err(back) => Err(back),
        }
    }

    // The same below the inode.
    fn migrate_below(
        &mut self,
        nid: u32,
        at: u32,
        from: u32,
        ticket: Ticket<B>,
    ) -> Result<Ticket<B>, Ticket<B>>
        requires file { IsFile self.old }
        requires address { 0 < from }
        ensures named { OnOk result (0 < below_weight self.old (each_naming nid at from)) }
        ensures address { IfOk result (λ before. before.mark.address ≡ from) }
        ensures swaps { IfOk result (λ before. Swaps self.old self.new before ticket) }
        ensures elsewhere { OnErr result (below_weight self.old (each_naming nid at from) ≡ 0) }
        ensures refused { OnErr result (self.new ≡ self.old) }
        ensures back { IfErr result (λ back. back ≡ ticket) }
    {
        let entries = self.shape.node_entries() as usize;
        let place = at as usize;
        let ticket = match self.direct.migrate(2, entries, nid, place, from, ticket) {
            Ok(before) => return Ok(before),
            Err(back) => back,
        };
        let ticket = match self.indirect.migrate(2, entries, nid, place, from, ticket) {
            Ok(before) => return Ok(before),
            Err(back) => back,
        };
        match self.double.migrate(1, entries, nid, place, from, ticket) {
            Ok(before) => Ok(before),
            Err(back) => Err(back),
        }
    }
}
