//! The row of a node's entries in memory.
ghost use Rattle.std.specs.Prelude.{◌≡◌, ◌+◌, ◌-◌, ◌<◌, ◌≤◌, ◌++◌, None, length, replicate, slice_set, slice_index_or, vec_len, vec_capacity, option_copied, IfOk};
ghost use Rattle.std.specs.Borrow.{sem};
ghost use Rattle.nodes.specs.Tree.{AreNone, EmptyFrom, entry_at};

use std::alloc::{AllocError, Global};
use std::marker::Model;
use std::mem;
use std::ops::{Index, IndexMut};

/// A row of slots, each of which has something or nothing. There is room for all of them from the start, so no later call takes
/// memory; but only those up to the last one that was used are written, so that a node which names little touches little.
pub struct Slots<T> {
    // The first has nothing, and is what each slot past the written ones has; slot 0 is the second.
    stored: Vec<Option<T>>,
    count: usize,
}

impl<T> Model for Slots<T> {
    ghost use Rattle.nodes.specs.Padded.{Slots as Row, slots_code};

    ghost Value = { Row T };

    ghost coded = { slots_code T.code };

    ghost use Rattle.std.specs.Prelude.{◌≡◌, ◌+◌, ◌<◌, ◌≤◌, None, vec_len, vec_capacity};
    ghost use Rattle.nodes.specs.Tree.{entry_at};
    ghost use Rattle.nodes.specs.Padded.{padded};

    ghost view = { λ s. record { items = padded s.count s.stored.items } };

    ghost invariant = { λ s. (0 < vec_len s.stored) × (vec_len s.stored ≤ s.count + 1) × (s.count < vec_capacity s.stored) × (entry_at s.stored.items 0 ≡ None) };
}

// Writes slots with nothing, up to one of this place.
fn reach<T>(stored: &mut Vec<Option<T>>, at: usize)
    requires { at < vec_capacity stored.old }
    ensures items { stored.new.items ≡ stored.old.items ++ replicate (at + 1 - length stored.old.items) None }
    ensures room { vec_capacity stored.new ≡ vec_capacity stored.old }
{
    while stored.len() <= at {
        stored.push_reserved(None);
    }
}

// Forgets the last of some slots that have nothing, but not the first.
fn drop_last<T>(stored: &mut Vec<Option<T>>)
    requires some { 0 < vec_len stored.old }
    ensures items { stored.old.items ≡ stored.new.items ++ replicate (vec_len stored.old - vec_len stored.new) None }
    ensures some { 0 < vec_len stored.new }
    ensures fewer { vec_len stored.new ≤ vec_len stored.old }
    ensures room { vec_capacity stored.new ≡ vec_capacity stored.old }
{
    while stored.len() > 1 && stored[stored.len() - 1].is_none() {
        if let Some(slot) = stored.pop() {
            match slot {
                None => {}
                Some(_) => unreachable!(),
            }
        }
    }
}

impl<T> Slots<T> {
    /// Forgets the last of the used slots that have nothing, which changes no slot.
    pub fn trim(&mut self)
        ensures { self.new ≡ self.old }
    {
        drop_last(&mut self.stored);
    }

    /// So many slots with nothing.
    pub fn new(alloc: Global, count: usize) -> Result<Slots<T>, AllocError>
        ensures { IfOk result (λ slots. slots.items ≡ replicate count None) }
    {
        let Some(room) = count.checked_add(1) else {
            return Err(AllocError);
        };
        let mut stored = Vec::with_capacity(alloc, room)?;
        stored.push_reserved(None);
        Ok(Slots { stored, count })
    }

    /// How many slots there are.
    pub fn len(&self) -> usize
        ensures { result ≡ length self.now.items }
    {
        self.count
    }

    /// Where the used slots end: from here on there is nothing.
    pub fn end(&self) -> usize
        ensures within { result ≤ length self.now.items }
        ensures nothing { EmptyFrom (entry_at self.now.items) result }
    {
        self.stored.len() - 1
    }

    /// What a slot has. None also past the last slot.
    pub fn get(&self, at: usize) -> Option<&T>
        ensures { option_copied result ≡ entry_at self.now.items at }
    {
        if at >= self.end() {
            return None;
        }
        match self.stored.get(at + 1) {
            Some(Some(value)) => Some(value),
            Some(None) | None => None,
        }
    }

    /// Puts something, or nothing, into a slot that has nothing.
    pub fn fill(&mut self, at: usize, value: Option<T>)
        requires inside { at < length self.old.items }
        requires nothing { entry_at self.old.items at ≡ None }
        ensures { self.new.items ≡ slice_set self.old.items at value }
    {
        match value {
            Some(value) => match mem::replace(&mut self[at], Some(value)) {
                None => {}
                Some(_) => unreachable!(),
            },
            None => {}
        }
    }

    /// Frees slots that have nothing.
    pub fn destroy(self)
        requires { AreNone self.items }
    {
        let Slots {
            mut stored,
            count: _,
        } = self;
        while let Some(slot) = stored.pop() {
            match slot {
                None => {}
                Some(_) => unreachable!(),
            }
        }
        stored.destroy_empty();
    }
}

impl<T> Index<usize> for Slots<T> {
    type Output = Option<T>;

    ghost can_index = { λ s at. at < length s.items };

    ghost index_gives = { λ s at slot. slot ≡ slice_index_or s.items at slot };

    fn index(&self, at: usize) -> &Option<T> {
        match self.stored.get(at + 1) {
            Some(slot) => slot,
            None => &self.stored[0],
        }
    }
}

impl<T> IndexMut<usize> for Slots<T> {
    ghost use Rattle.nodes.specs.Lending.{lends_slot};

    fn index_mut(&mut self, at: usize) -> &mut Option<T>
        requires { at < length self.old.items }
        ensures* writes_back { sem 𝓛 (lends_slot T.row self.entry at result) }
        ensures value { result.now ≡ slice_index_or self.old.items at result.now }
    {
        reach(&mut self.stored, at + 1);
        &mut self.stored[at + 1]
    }
}
