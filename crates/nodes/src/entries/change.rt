//! A ticket comes to the entries.
ghost use Rattle.std.specs.Prelude.{◌≡◌, ℕ, Bool, ◌+◌, ◌*◌, ◌-◌, ◌^◌, ◌<◌, ◌/◌, ◌%◌, Some, length, slice_set};
ghost use Rattle.nodes.specs.Tree.{find_in, missing_in, ShapedIn, SetsAt, Same, UsefulIn, SparesIndex, entry_at};
ghost use Rattle.nodes.specs.Change.{ChangesEntries, ticket_weight};
ghost use Rattle.nodes.specs.TreeMarks.{AreCounted};

use super::Entries;
use crate::Changing;

impl<C: Changing> Entries<C> {
    /// Puts a ticket at the index, and hands out the one that stood there.
    pub fn put(
        &mut self,
        count: usize,
        entries: usize,
        index: usize,
        ticket: C::Leaf,
    ) -> Option<C::Leaf>
        requires some { 0 < entries }
        requires fits { C.span_of entries < 2 ^ 64 }
        requires inside { index < count * C.span_of entries }
        requires shaped { ShapedIn (C.shaped entries) count self.old.slots.items }
        requires path { missing_in (C.missing entries) (C.span_of entries) self.old.slots.items index ≡ 0 }
        ensures old { result ≡ find_in (C.find entries) (C.span_of entries) self.old.slots.items index }
        ensures sets { SetsAt (find_in (C.find entries) (C.span_of entries) self.old.slots.items) (find_in (C.find entries) (C.span_of entries) self.new.slots.items) index (Some ticket) }
        ensures namer { Same (find_in (C.namer entries) (C.span_of entries) self.old.slots.items) (find_in (C.namer entries) (C.span_of entries) self.new.slots.items) }
        ensures useful { (asked : ℕ → ℕ → Bool) (first : ℕ) → SparesIndex asked (first + index) → UsefulIn (C.useful entries) (C.span_of entries) asked first self.old.slots.items → UsefulIn (C.useful entries) (C.span_of entries) asked first self.new.slots.items }
        ensures shaped { ShapedIn (C.shaped entries) count self.new.slots.items }
        ensures change { ChangesEntries C.number C.weight self.old.slots.items self.new.slots.items self.old.dirty self.new.dirty (λ w. ticket_weight w result) (λ w. w.ticket ticket) }
        ensures counted { AreCounted C.weight self.old.marked self.old.slots.items → AreCounted C.weight self.new.marked self.new.slots.items }
    {
        let span = C::span(entries);
        self.put_at(index / span, entries, index % span, ticket)
    }

    fn put_at(
        &mut self,
        at: usize,
        entries: usize,
        index: usize,
        ticket: C::Leaf,
    ) -> Option<C::Leaf>
        requires at { at < length self.old.slots.items }
        requires some { 0 < entries }
        requires fits { C.span_of entries < 2 ^ 64 }
        requires inside { index < C.span_of entries }
        requires shaped { C.shaped entries (entry_at self.old.slots.items at) }
        requires path { C.missing entries (entry_at self.old.slots.items at) index ≡ 0 }
        ensures old { result ≡ C.find entries (entry_at self.old.slots.items at) index }
        ensures entry { self.new.slots.items ≡ slice_set self.old.slots.items at (entry_at self.new.slots.items at) }
        ensures sets { SetsAt (C.find entries (entry_at self.old.slots.items at)) (C.find entries (entry_at self.new.slots.items at)) index (Some ticket) }
        ensures namer { Same (C.namer entries (entry_at self.old.slots.items at)) (C.namer entries (entry_at self.new.slots.items at)) }
        ensures useful { (asked : ℕ → ℕ → Bool) (first : ℕ) → SparesIndex asked (first + index) → C.useful entries asked first (entry_at self.old.slots.items at) → C.useful entries asked first (entry_at self.new.slots.items at) }
        ensures shaped { C.shaped entries (entry_at self.new.slots.items at) }
        ensures change { ChangesEntries C.number C.weight self.old.slots.items self.new.slots.items self.old.dirty self.new.dirty (λ w. ticket_weight w result) (λ w. w.ticket ticket) }
        ensures counted { AreCounted C.weight self.old.marked self.old.slots.items → AreCounted C.weight self.new.marked self.new.slots.items }
    {
        let was = C::has_mark(&self.slots[at]);
        let old = C::put(&mut self.slots[at], entries, index, ticket);
        self.recount(at, was);
        self.mark(C::is_leaf());
        old
    }
}
