//! The entries of a node, one after another.
ghost use Rattle.std.specs.Prelude.{◌≡◌, ◌*◌, ◌-◌, ◌^◌, ◌<◌, ◌/◌, ◌%◌, Option, Some, None, length, replicate, OnOk, IfOk, MatchOption, IsTrue, ◌↔◌, ◌||◌, true, false};
ghost use Rattle.geometry.specs.Weights.{weigh};
ghost use Rattle.nodes.specs.Tree.{find_in, ShapedIn, AreNone, entry_at, number_of};
ghost use Rattle.nodes.specs.Change.{nothing, each_marked};

use crate::Reading;
use crate::slots::Slots;
use device::DeviceError;
use std::alloc::{AllocError, Global};

mod change;
mod cut;
mod erase;
mod mark;
mod migrate;

/// The entries of a node, each of which names a ticket, a node or nothing, and whether one was changed since they were
/// written.
pub struct Entries<C> {
    pub slots: Slots<C>,
    pub dirty: bool,
    /// How many entries have a marked node below them.
    pub marked: usize,
}

/// What a walk over the entries found: something to hand out, nothing, or that no entry names anything.
pub enum Pruned<S> {
    Found(S),
    Kept,
    Empty,
}

impl<C> Entries<C> {
    /// As many entries that name nothing, still to be written.
    pub fn empty(alloc: Global, count: usize) -> Result<Entries<C>, AllocError>
        ensures slots { IfOk result (λ entries. entries.slots.items ≡ replicate count None) }
        ensures nothing { IfOk result (λ entries. AreNone entries.slots.items) }
        ensures marked { IfOk result (λ entries. entries.dirty ≡ true) }
        ensures none_below { IfOk result (λ entries. entries.marked ≡ 0) }
    {
        let slots = Slots::new(alloc, count)?;
        Ok(Entries {
            slots,
            dirty: true,
            marked: 0,
        })
    }

    /// Frees entries that name nothing.
    pub fn destroy(self)
        requires { AreNone self.slots.items }
    {
        let Entries {
            slots,
            dirty: _,
            marked: _,
        } = self;
        slots.destroy();
    }

    /// Whether no entry names anything.
    pub fn name_nothing(&self) -> bool
        ensures { IsTrue result ↔ AreNone self.now.slots.items }
    {
        names_nothing(&self.slots)
    }

    // Marks the entries, where one of them was changed.
    fn mark(&mut self, changed: bool)
        ensures { self.new ≡ record self.old { dirty = changed || self.old.dirty } }
    {
        if changed {
            self.dirty = true;
        }
    }
}

// Whether no entry names anything.
fn names_nothing<C>(slots: &Slots<C>) -> bool
    ensures { IsTrue result ↔ AreNone slots.now.items }
{
    for at in 0..slots.end() {
        if slots[at].is_some() {
            return false;
        }
    }
    true
}

impl<C: Reading> Entries<C> {
    /// The address of the block at the index, 0 where there is none.
    pub fn address(&self, count: usize, entries: usize, index: usize) -> u32
        requires some { 0 < entries }
        requires fits { C.span_of entries < 2 ^ 64 }
        requires inside { index < count * C.span_of entries }
        requires shaped { ShapedIn (C.shaped entries) count self.now.slots.items }
        ensures { result ≡ number_of C.address_of (find_in (C.find entries) (C.span_of entries) self.now.slots.items index) }
    {
        let span = C::span(entries);
        C::address(&self.slots[index / span], entries, index % span)
    }

    /// Whether neither these entries nor a node below them is marked.
    pub fn is_clean(&self) -> bool
        ensures { IsTrue result ↔ ((self.now.dirty ≡ false) × (weigh (C.weight each_marked) self.now.slots.items ≡ 0)) }
    {
        if self.dirty {
            return false;
        }
        for at in 0..self.slots.end() {
            if !C::is_clean(&self.slots[at]) {
                return false;
            }
        }
        true
    }

    /// Reads the block at the index, zeros where there is none.
    pub fn read(
        &mut self,
        count: usize,
        entries: usize,
        index: usize,
        out: &mut [u8],
    ) -> Result<(), DeviceError>
        requires some { 0 < entries }
        requires fits { C.span_of entries < 2 ^ 64 }
        requires inside { index < count * C.span_of entries }
        requires shaped { ShapedIn (C.shaped entries) count self.old.slots.items }
        requires out { MatchOption (find_in (C.find entries) (C.span_of entries) self.old.slots.items index) (Unit {0}) (λ ticket. length out.old ≡ length (C.content_of ticket)) }
        ensures same { self.new ≡ self.old }
        ensures bytes { OnOk result (MatchOption (find_in (C.find entries) (C.span_of entries) self.old.slots.items index) (out.new ≡ replicate (length out.old) 0) (λ ticket. out.new ≡ C.content_of ticket)) }
    {
        let span = C::span(entries);
        self.read_at(index / span, entries, index % span, out)
    }

    /// The bytes of the block at the index as they are now; None where there is none.
    pub fn lend(
        &mut self,
        count: usize,
        entries: usize,
        index: usize,
    ) -> Result<Option<C::Lease>, DeviceError>
        requires some { 0 < entries }
        requires fits { C.span_of entries < 2 ^ 64 }
        requires inside { index < count * C.span_of entries }
        requires shaped { ShapedIn (C.shaped entries) count self.old.slots.items }
        ensures same { self.new ≡ self.old }
        ensures none { IfOk result (λ lease. lease ≡ None → find_in (C.find entries) (C.span_of entries) self.old.slots.items index ≡ None) }
        ensures bytes { IfOk result (λ lease. MatchOption lease (Unit {0}) (λ l. MatchOption (find_in (C.find entries) (C.span_of entries) self.old.slots.items index) ⊥ (λ ticket. C.lent l ≡ C.content_of ticket))) }
    {
        let span = C::span(entries);
        self.lend_at(index / span, entries, index % span)
    }

    fn read_at(
        &mut self,
        at: usize,
        entries: usize,
        index: usize,
        out: &mut [u8],
    ) -> Result<(), DeviceError>
        requires at { at < length self.old.slots.items }
        requires some { 0 < entries }
        requires fits { C.span_of entries < 2 ^ 64 }
        requires inside { index < C.span_of entries }
        requires shaped { C.shaped entries (entry_at self.old.slots.items at) }
        requires out { MatchOption (C.find entries (entry_at self.old.slots.items at) index) (Unit {0}) (λ ticket. length out.old ≡ length (C.content_of ticket)) }
        ensures same { self.new ≡ self.old }
        ensures bytes { OnOk result (MatchOption (C.find entries (entry_at self.old.slots.items at) index) (out.new ≡ replicate (length out.old) 0) (λ ticket. out.new ≡ C.content_of ticket)) }
    {
        C::read(&mut self.slots[at], entries, index, out)
    }

    fn lend_at(
        &mut self,
        at: usize,
        entries: usize,
        index: usize,
    ) -> Result<Option<C::Lease>, DeviceError>
        requires at { at < length self.old.slots.items }
        requires some { 0 < entries }
        requires fits { C.span_of entries < 2 ^ 64 }
        requires inside { index < C.span_of entries }
        requires shaped { C.shaped entries (entry_at self.old.slots.items at) }
        ensures same { self.new ≡ self.old }
        ensures none { IfOk result (λ lease. lease ≡ None → C.find entries (entry_at self.old.slots.items at) index ≡ None) }
        ensures bytes { IfOk result (λ lease. MatchOption lease (Unit {0}) (λ l. MatchOption (C.find entries (entry_at self.old.slots.items at) index) ⊥ (λ ticket. C.lent l ≡ C.content_of ticket))) }
    {
        C::lend(&mut self.slots[at], entries, index)
    }
}
