//! A ticket below the entries is swapped for another.
ghost use Rattle.std.specs.Prelude.{◌≡◌, ◌≢◌, ℕ, Bool, ◌+◌, ◌*◌, ◌-◌, ◌^◌, ◌<◌, ◌/◌, Some, None, length, map, slice_set, slice_index_or, OnOk, OnErr, IfErr, IfOk, ◌||◌, true};
ghost use Rattle.geometry.specs.Weights.{weigh};
ghost use Rattle.nodes.specs.Tree.{find_in, ShapedIn, Same, SwapsOne, UsefulIn, AreNone, entry_at};
ghost use Rattle.nodes.specs.Change.{ChangesEntries, nothing, each_naming};
ghost use Rattle.nodes.specs.TreeMarks.{AreCounted};

use super::Entries;
use crate::Changing;

impl<C: Changing> Entries<C> {
    /// Where these entries have addresses, and `from` at this place, the ticket comes there and the old one goes. Else the
    /// ticket is handed back, and nothing has changed.
    pub fn swap(
        &mut self,
        count: usize,
        entries: usize,
        at: usize,
        from: u32,
        ticket: C::Leaf,
    ) -> Result<C::Leaf, C::Leaf>
        requires some { 0 < entries }
        requires fits { C.span_of entries < 2 ^ 64 }
        requires address { 0 < from }
        requires shaped { ShapedIn (C.shaped entries) count self.old.slots.items }
        ensures shaped { ShapedIn (C.shaped entries) count self.new.slots.items }
        ensures named { OnOk result ((C.is_leaf ≡ true) × (slice_index_or (map C.number self.old.slots.items) at 0 ≡ from)) }
        ensures address { IfOk result (λ before. C.address_of before ≡ from) }
        ensures swaps { IfOk result (λ before. SwapsOne (find_in (C.find entries) (C.span_of entries) self.old.slots.items) (find_in (C.find entries) (C.span_of entries) self.new.slots.items) before ticket) }
        ensures namer { Same (find_in (C.namer entries) (C.span_of entries) self.old.slots.items) (find_in (C.namer entries) (C.span_of entries) self.new.slots.items) }
        ensures useful { (asked : ℕ → ℕ → Bool) (first : ℕ) → UsefulIn (C.useful entries) (C.span_of entries) asked first self.old.slots.items → UsefulIn (C.useful entries) (C.span_of entries) asked first self.new.slots.items }
        ensures some { AreNone self.new.slots.items → AreNone self.old.slots.items }
        ensures change { IfOk result (λ before. ChangesEntries C.number C.weight self.old.slots.items self.new.slots.items self.old.dirty self.new.dirty (λ w. w.ticket before) (λ w. w.ticket ticket)) }
        ensures counted { AreCounted C.weight self.old.marked self.old.slots.items → AreCounted C.weight self.new.marked self.new.slots.items }
        ensures elsewhere { OnErr result (C.is_leaf ≡ true → slice_index_or (map C.number self.old.slots.items) at 0 ≢ from) }
        ensures refused { OnErr result (self.new ≡ self.old) }
        ensures back { IfErr result (λ back. back ≡ ticket) }
    {
        if !C::is_leaf() || at >= self.slots.len() {
            return Err(ticket);
        }
        if C::entry(&self.slots[at]) != from {
            return Err(ticket);
        }
        match self.put(count, entries, at, ticket) {
            Some(before) => Ok(before),
            None => unreachable!(),
        }
    }

    /// The same below these entries, where a node of this number has the address `from` at this place.
    pub fn migrate(
        &mut self,
        count: usize,
        entries: usize,
        nid: u32,
        at: usize,
        from: u32,
        ticket: C::Leaf,
    ) -> Result<C::Leaf, C::Leaf>
        requires some { 0 < entries }
        requires fits { C.span_of entries < 2 ^ 64 }
        requires address { 0 < from }
        requires shaped { ShapedIn (C.shaped entries) count self.old.slots.items }
        ensures shaped { ShapedIn (C.shaped entries) count self.new.slots.items }
        ensures named { OnOk result (0 < weigh (C.weight (each_naming nid at from)) self.old.slots.items) }
        ensures address { IfOk result (λ before. C.address_of before ≡ from) }
        ensures swaps { IfOk result (λ before. SwapsOne (find_in (C.find entries) (C.span_of entries) self.old.slots.items) (find_in (C.find entries) (C.span_of entries) self.new.slots.items) before ticket) }
        ensures namer { Same (find_in (C.namer entries) (C.span_of entries) self.old.slots.items) (find_in (C.namer entries) (C.span_of entries) self.new.slots.items) }
        ensures useful { (asked : ℕ → ℕ → Bool) (first : ℕ) → UsefulIn (C.useful entries) (C.span_of entries) asked first self.old.slots.items → UsefulIn (C.useful entries) (C.span_of entries) asked first self.new.slots.items }
        ensures some { AreNone self.new.slots.items → AreNone self.old.slots.items }
        ensures change { IfOk result (λ before. ChangesEntries C.number C.weight self.old.slots.items self.new.slots.items self.old.dirty self.new.dirty (λ w. w.ticket before) (λ w. w.ticket ticket)) }
        ensures counted { AreCounted C.weight self.old.marked self.old.slots.items → AreCounted C.weight self.new.marked self.new.slots.items }
        ensures elsewhere { OnErr result (weigh (C.weight (each_naming nid at from)) self.old.slots.items ≡ 0) }
        ensures refused { OnErr result (self.new ≡ self.old) }
        ensures back { IfErr result (λ back. back ≡ ticket) }
    {
        let mut ticket = ticket;
        let end = self.slots.end();
        let mut place = 0;
        while place < end {
            match self.migrate_at(place, entries, nid, at, from, ticket) {
                Ok(before) => return Ok(before),
                Err(back) => ticket = back,
            }
            place += 1;
        }
        Err(ticket)
    }

    fn migrate_at(
        &mut self,
        place: usize,
        entries: usize,
        nid: u32,
        at: usize,
        from: u32,
        ticket: C::Leaf,
    ) -> Result<C::Leaf, C::Leaf>
        requires at { place < length self.old.slots.items }
        requires some { 0 < entries }
        requires fits { C.span_of entries < 2 ^ 64 }
        requires address { 0 < from }
        requires shaped { C.shaped entries (entry_at self.old.slots.items place) }
        ensures entry { self.new.slots.items ≡ slice_set self.old.slots.items place (entry_at self.new.slots.items place) }
        ensures shaped { C.shaped entries (entry_at self.new.slots.items place) }
        ensures named { OnOk result (0 < C.weight (each_naming nid at from) (entry_at self.old.slots.items place)) }
        ensures address { IfOk result (λ before. C.address_of before ≡ from) }
        ensures swaps { IfOk result (λ before. SwapsOne (C.find entries (entry_at self.old.slots.items place)) (C.find entries (entry_at self.new.slots.items place)) before ticket) }
        ensures namer { Same (C.namer entries (entry_at self.old.slots.items place)) (C.namer entries (entry_at self.new.slots.items place)) }
        ensures useful { (asked : ℕ → ℕ → Bool) (first : ℕ) → C.useful entries asked first (entry_at self.old.slots.items place) → C.useful entries asked first (entry_at self.new.slots.items place) }
        ensures change { IfOk result (λ before. ChangesEntries C.number C.weight self.old.slots.items self.new.slots.items self.old.dirty self.new.dirty (λ w. w.ticket before) (λ w. w.ticket ticket)) }
        ensures counted { AreCounted C.weight self.old.marked self.old.slots.items → AreCounted C.weight self.new.marked self.new.slots.items }
        ensures elsewhere { OnErr result (C.weight (each_naming nid at from) (entry_at self.old.slots.items place) ≡ 0) }
        ensures refused { OnErr result (self.new ≡ self.old) }
        ensures back { IfErr result (λ back. back ≡ ticket) }
    {
        let was = C::has_mark(&self.slots[place]);
        match C::migrate(&mut self.slots[place], entries, nid, at, from, ticket) {
            Ok(before) => {
                self.recount(place, was);
                Ok(before)
            }
            Err(back) => Err(back),
        }
    }
}
