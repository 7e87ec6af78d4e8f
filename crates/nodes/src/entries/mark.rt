//! Which entries have a marked node below them is counted.
ghost use Rattle.std.specs.Prelude.{◌≡◌, ℕ, ◌+◌, ◌<◌, ◌↔◌, ◌||◌, false, List, Option, is_none, length, slice_set};
ghost use Rattle.nodes.specs.Tree.{entry_at};
ghost use Rattle.nodes.specs.Change.{each_marked};
ghost use Rattle.nodes.specs.TreeMarks.{AreCounted, one_if};

use super::Entries;
use crate::Subtree;

impl<C: Subtree> Entries<C> {
    /// Counts an entry anew that was changed. `was` tells whether a node below it was marked before.
    pub fn recount(&mut self, at: usize, was: bool)
        requires at { at < length self.old.slots.items }
        ensures rest { self.new ≡ record self.old { marked = self.new.marked } }
        ensures same { (entries : ℕ) → C.shaped entries (entry_at self.old.slots.items at) → ((was ≡ false) ↔ (C.weight each_marked (entry_at self.old.slots.items at) ≡ 0)) → self.new ≡ self.old }
        ensures counted { (entries : ℕ) (before : List (Option C)) (slot : Option C) → C.shaped entries slot → self.old.slots.items ≡ slice_set before at slot
            → ((was ≡ false) ↔ (C.weight each_marked (entry_at before at) ≡ 0)) → AreCounted C.weight self.old.marked before → AreCounted C.weight self.new.marked self.old.slots.items }
    {
        let is = C::has_mark(&self.slots[at]);
        self.marked = counted(self.marked, was, is, self.slots.len());
    }

    // The same of an entry that handed something out: the entries are marked where it names nothing now.
    pub(super) fn settle(&mut self, at: usize, was: bool)
        requires at { at < length self.old.slots.items }
        ensures rest { self.new ≡ record self.old { marked = self.new.marked; dirty = is_none (entry_at self.old.slots.items at) || self.old.dirty } }
        ensures counted { (entries : ℕ) (before : List (Option C)) (slot : Option C) → C.shaped entries slot → self.old.slots.items ≡ slice_set before at slot
            → ((was ≡ false) ↔ (C.weight each_marked (entry_at before at) ≡ 0)) → AreCounted C.weight self.old.marked before → AreCounted C.weight self.new.marked self.old.slots.items }
    {
        self.recount(at, was);
        let slot = &self.slots[at];
        let emptied = slot.is_none();
        self.mark(emptied);
    }
}

// A count of marks, where one of at most so many was there or not, and is there or not.
fn counted(count: usize, was: bool, is: bool, most: usize) -> usize
    ensures same { was ≡ is → result ≡ count }
    ensures step { (rest : ℕ) → rest < most → count ≡ rest + one_if was → result ≡ rest + one_if is }
{
    match (was, is) {
        (false, true) if count < most => count + 1,
        (true, false) => count.saturating_sub(1),
        _ => count,
    }
}
