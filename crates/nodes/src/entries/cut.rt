//! Tickets and nodes go from the entries.
ghost use Rattle.std.specs.Prelude.{◌≡◌, ◌≢◌, ℕ, Bool, ◌+◌, ◌*◌, ◌-◌, ◌^◌, ◌<◌, ◌/◌, ◌%◌, Option, Some, None, is_none, length, slice_set, MatchOption};
ghost use Rattle.nodes.specs.Tree.{find_in, ShapedIn, KeepsNamers, EmptyFrom, HandsOut, UsefulIn, SparesPast, AsksPast, AreNone, entry_at};
ghost use Rattle.nodes.specs.Change.{Weighing, ChangesEntries, WeighsAs, nothing};
ghost use Rattle.nodes.specs.TreeMarks.{AreCounted};
ghost use Rattle.nodes.specs.Pruned.{MatchPruned};

use super::{Entries, Pruned, names_nothing};
use crate::Changing;
use crate::spare::Spare;

impl<C: Changing> Entries<C> {
    /// Hands out one ticket at or past the index, or the token of a node that names nothing.
    pub fn prune(&mut self, count: usize, entries: usize, from: usize) -> Pruned<Spare<C::Leaf>>
        requires some { 0 < entries }
        requires fits { C.span_of entries < 2 ^ 64 }
        requires fits_all { count * C.span_of entries < 2 ^ 64 }
        requires shaped { ShapedIn (C.shaped entries) count self.old.slots.items }
        ensures shaped { ShapedIn (C.shaped entries) count self.new.slots.items }
        ensures namer { KeepsNamers (find_in (C.find entries) (C.span_of entries) self.new.slots.items) (find_in (C.namer entries) (C.span_of entries) self.old.slots.items) (find_in (C.namer entries) (C.span_of entries) self.new.slots.items) }
        ensures useful { (asked : ℕ → ℕ → Bool) (first : ℕ) → SparesPast asked (first + from) → UsefulIn (C.useful entries) (C.span_of entries) asked first self.old.slots.items → UsefulIn (C.useful entries) (C.span_of entries) asked first self.new.slots.items }
        ensures past { MatchPruned result (λ _. from < count * C.span_of entries)
            (((asked : ℕ → ℕ → Bool) (first : ℕ) → AsksPast asked first (first + from) → UsefulIn (C.useful entries) (C.span_of entries) asked first self.new.slots.items) × (AreNone self.new.slots.items → ⊥))
            ((asked : ℕ → ℕ → Bool) (first : ℕ) → AsksPast asked first (first + from) → UsefulIn (C.useful entries) (C.span_of entries) asked first self.new.slots.items) }
        ensures cases { MatchPruned result
            (λ spare. HandsOut (find_in (C.find entries) (C.span_of entries) self.old.slots.items) (find_in (C.find entries) (C.span_of entries) self.new.slots.items) from spare)
            ((self.new ≡ self.old) × EmptyFrom (find_in (C.find entries) (C.span_of entries) self.old.slots.items) from × (from ≢ 0))
            ((self.new ≡ self.old) × AreNone self.old.slots.items) }
        ensures change { MatchPruned result
            (λ spare. (out : Weighing C.Leaf → ℕ) × WeighsAs spare out × ChangesEntries C.number C.weight self.old.slots.items self.new.slots.items self.old.dirty self.new.dirty out nothing)
            (Unit {0}) (Unit {0}) }
        ensures counted { AreCounted C.weight self.old.marked self.old.slots.items → AreCounted C.weight self.new.marked self.new.slots.items }
    {
        let span = C::span(entries);
        let first = from / span;
        self.slots.trim();
        let mut at = self.slots.end();
        while at > first {
            at -= 1;
            if let Some(spare) = self.prune_at(at, entries, from.saturating_sub(at * span)) {
                return Pruned::Found(spare);
            }
        }
        if names_nothing(&self.slots) {
            Pruned::Empty
        } else {
            Pruned::Kept
        }
    }

    /// The same, where entries that name nothing stay.
    pub fn cut(&mut self, count: usize, entries: usize, from: usize) -> Option<Spare<C::Leaf>>
        requires some { 0 < entries }
        requires fits { C.span_of entries < 2 ^ 64 }
        requires fits_all { count * C.span_of entries < 2 ^ 64 }
        requires shaped { ShapedIn (C.shaped entries) count self.old.slots.items }
        ensures shaped { ShapedIn (C.shaped entries) count self.new.slots.items }
        ensures namer { KeepsNamers (find_in (C.find entries) (C.span_of entries) self.new.slots.items) (find_in (C.namer entries) (C.span_of entries) self.old.slots.items) (find_in (C.namer entries) (C.span_of entries) self.new.slots.items) }
        ensures useful { (asked : ℕ → ℕ → Bool) (first : ℕ) → SparesPast asked (first + from) → UsefulIn (C.useful entries) (C.span_of entries) asked first self.old.slots.items → UsefulIn (C.useful entries) (C.span_of entries) asked first self.new.slots.items }
        ensures past { MatchOption result ((asked : ℕ → ℕ → Bool) (first : ℕ) → AsksPast asked first (first + from) → UsefulIn (C.useful entries) (C.span_of entries) asked first self.new.slots.items) (λ _. Unit {0}) }
        ensures none { MatchOption result
            ((self.new ≡ self.old) × EmptyFrom (find_in (C.find entries) (C.span_of entries) self.old.slots.items) from × (from ≡ 0 → AreNone self.old.slots.items))
            (λ _. Unit {0}) }
        ensures out { MatchOption result (Unit {0})
            (λ spare. HandsOut (find_in (C.find entries) (C.span_of entries) self.old.slots.items) (find_in (C.find entries) (C.span_of entries) self.new.slots.items) from spare) }
        ensures change { MatchOption result (Unit {0})
            (λ spare. (out : Weighing C.Leaf → ℕ) × WeighsAs spare out × ChangesEntries C.number C.weight self.old.slots.items self.new.slots.items self.old.dirty self.new.dirty out nothing) }
        ensures counted { AreCounted C.weight self.old.marked self.old.slots.items → AreCounted C.weight self.new.marked self.new.slots.items }
    {
        match self.prune(count, entries, from) {
            Pruned::Found(spare) => Some(spare),
            Pruned::Kept => None,
            Pruned::Empty => None,
        }
    }

    fn prune_at(&mut self, at: usize, entries: usize, from: usize) -> Option<Spare<C::Leaf>>
        requires at { at < length self.old.slots.items }
        requires some { 0 < entries }
        requires fits { C.span_of entries < 2 ^ 64 }
        requires shaped { C.shaped entries (entry_at self.old.slots.items at) }
        ensures entry { self.new.slots.items ≡ slice_set self.old.slots.items at (entry_at self.new.slots.items at) }
        ensures shaped { C.shaped entries (entry_at self.new.slots.items at) }
        ensures namer { KeepsNamers (C.find entries (entry_at self.new.slots.items at)) (C.namer entries (entry_at self.old.slots.items at)) (C.namer entries (entry_at self.new.slots.items at)) }
        ensures useful { (asked : ℕ → ℕ → Bool) (first : ℕ) → SparesPast asked (first + from) → C.useful entries asked first (entry_at self.old.slots.items at) → C.useful entries asked first (entry_at self.new.slots.items at) }
        ensures past { MatchOption result ((asked : ℕ → ℕ → Bool) (first : ℕ) → AsksPast asked first (first + from) → C.useful entries asked first (entry_at self.new.slots.items at)) (λ _. Unit {0}) }
        ensures none { MatchOption result
            ((self.new ≡ self.old) × EmptyFrom (C.find entries (entry_at self.old.slots.items at)) from × (from ≡ 0 → entry_at self.old.slots.items at ≡ None))
            (λ _. Unit {0}) }
        ensures out { MatchOption result (Unit {0})
            (λ spare. HandsOut (C.find entries (entry_at self.old.slots.items at)) (C.find entries (entry_at self.new.slots.items at)) from spare) }
        ensures change { MatchOption result (Unit {0})
            (λ spare. (out : Weighing C.Leaf → ℕ) × WeighsAs spare out × ChangesEntries C.number C.weight self.old.slots.items self.new.slots.items self.old.dirty self.new.dirty out nothing) }
        ensures counted { AreCounted C.weight self.old.marked self.old.slots.items → AreCounted C.weight self.new.marked self.new.slots.items }
    {
        let was = C::has_mark(&self.slots[at]);
        let Some(spare) = C::prune(&mut self.slots[at], entries, from) else {
            return None;
        };
        self.settle(at, was);
        Some(spare)
    }
}
