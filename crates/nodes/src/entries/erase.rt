//! The ticket at one index goes from the entries, and the nodes on the way to it that name nothing then.
ghost use Rattle.std.specs.Prelude.{◌≡◌, ℕ, Bool, ◌+◌, ◌*◌, ◌-◌, ◌^◌, ◌<◌, ◌/◌, ◌%◌, Option, Some, None, is_none, length, slice_set, MatchOption};
ghost use Rattle.nodes.specs.Tree.{find_in, ShapedIn, KeepsNamers, HandsOutAt, UsefulIn, SparesIndex, AsksHolding, entry_at};
ghost use Rattle.nodes.specs.Change.{Weighing, ChangesEntries, WeighsAs, nothing};
ghost use Rattle.nodes.specs.TreeMarks.{AreCounted};

use super::Entries;
use crate::Changing;
use crate::spare::Spare;

impl<C: Changing> Entries<C> {
    /// Hands out the ticket at the index, or else the token of a node on the way to it that names nothing. The entries
    /// themselves stay, also where they name nothing.
    pub fn erase(&mut self, count: usize, entries: usize, index: usize) -> Option<Spare<C::Leaf>>
        requires some { 0 < entries }
        requires fits { C.span_of entries < 2 ^ 64 }
        requires inside { index < count * C.span_of entries }
        requires shaped { ShapedIn (C.shaped entries) count self.old.slots.items }
        ensures shaped { ShapedIn (C.shaped entries) count self.new.slots.items }
        ensures namer { KeepsNamers (find_in (C.find entries) (C.span_of entries) self.new.slots.items) (find_in (C.namer entries) (C.span_of entries) self.old.slots.items) (find_in (C.namer entries) (C.span_of entries) self.new.slots.items) }
        ensures useful { (asked : ℕ → ℕ → Bool) (first : ℕ) → SparesIndex asked (first + index) → UsefulIn (C.useful entries) (C.span_of entries) asked first self.old.slots.items → UsefulIn (C.useful entries) (C.span_of entries) asked first self.new.slots.items }
        ensures way { MatchOption result ((asked : ℕ → ℕ → Bool) (first : ℕ) → AsksHolding asked first (first + index) → UsefulIn (C.useful entries) (C.span_of entries) asked first self.new.slots.items) (λ _. Unit {0}) }
        ensures none { MatchOption result
            ((self.new ≡ self.old) × (find_in (C.find entries) (C.span_of entries) self.old.slots.items index ≡ None))
            (λ _. Unit {0}) }
        ensures out { MatchOption result (Unit {0})
            (λ spare. HandsOutAt (find_in (C.find entries) (C.span_of entries) self.old.slots.items) (find_in (C.find entries) (C.span_of entries) self.new.slots.items) index spare) }
        ensures change { MatchOption result (Unit {0})
            (λ spare. (out : Weighing C.Leaf → ℕ) × WeighsAs spare out × ChangesEntries C.number C.weight self.old.slots.items self.new.slots.items self.old.dirty self.new.dirty out nothing) }
        ensures counted { AreCounted C.weight self.old.marked self.old.slots.items → AreCounted C.weight self.new.marked self.new.slots.items }
    {
        let span = C::span(entries);
        let Some(spare) = self.erase_at(index / span, entries, index % span) else {
            self.slots.trim();
            return None;
        };
        Some(spare)
    }

    fn erase_at(&mut self, at: usize, entries: usize, index: usize) -> Option<Spare<C::Leaf>>
        requires at { at < length self.old.slots.items }
        requires some { 0 < entries }
        requires fits { C.span_of entries < 2 ^ 64 }
        requires inside { index < C.span_of entries }
        requires shaped { C.shaped entries (entry_at self.old.slots.items at) }
        ensures entry { self.new.slots.items ≡ slice_set self.old.slots.items at (entry_at self.new.slots.items at) }
        ensures shaped { C.shaped entries (entry_at self.new.slots.items at) }
        ensures namer { KeepsNamers (C.find entries (entry_at self.new.slots.items at)) (C.namer entries (entry_at self.old.slots.items at)) (C.namer entries (entry_at self.new.slots.items at)) }
        ensures useful { (asked : ℕ → ℕ → Bool) (first : ℕ) → SparesIndex asked (first + index) → C.useful entries asked first (entry_at self.old.slots.items at) → C.useful entries asked first (entry_at self.new.slots.items at) }
        ensures way { MatchOption result ((asked : ℕ → ℕ → Bool) (first : ℕ) → AsksHolding asked first (first + index) → C.useful entries asked first (entry_at self.new.slots.items at)) (λ _. Unit {0}) }
        ensures none { MatchOption result
            ((self.new ≡ self.old) × (C.find entries (entry_at self.old.slots.items at) index ≡ None))
            (λ _. Unit {0}) }
        ensures out { MatchOption result (Unit {0})
            (λ spare. HandsOutAt (C.find entries (entry_at self.old.slots.items at)) (C.find entries (entry_at self.new.slots.items at)) index spare) }
        ensures change { MatchOption result (Unit {0})
            (λ spare. (out : Weighing C.Leaf → ℕ) × WeighsAs spare out × ChangesEntries C.number C.weight self.old.slots.items self.new.slots.items self.old.dirty self.new.dirty out nothing) }
        ensures counted { AreCounted C.weight self.old.marked self.old.slots.items → AreCounted C.weight self.new.marked self.new.slots.items }
    {
        let was = C::has_mark(&self.slots[at]);
        let Some(spare) = C::erase(&mut self.slots[at], entries, index) else {
            return None;
        };
        self.settle(at, was);
        Some(spare)
    }
}
