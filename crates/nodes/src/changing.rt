//! What comes and goes below one entry.
ghost use Rattle.std.specs.Prelude.{◌≡◌, ℕ, ◌+◌, ◌^◌, ◌<◌, Bool, false, Some, None, is_none, OnOk, OnErr, IfOk, IfErr, MatchOption};
ghost use Rattle.nodes.specs.Tree.{SetsAt, Same, KeepsNamers, EmptyFrom, HandsOut, HandsOutAt, SwapsOne, SparesIndex, SparesPast, AsksPast, AsksHolding};
ghost use Rattle.nodes.specs.Change.{Weighing, ticket_weight, ChangesSlot, WeighsAs, nothing, each_naming};

use crate::entries::Pruned;
use crate::{Branch, Spare, Subtree};
use device::Block;
use std::mem;
use tickets::Ticket;

/// A tree whose tickets come and go.
pub trait Changing: Subtree {
    /// Puts a ticket at the index, and hands out the one that stood there.
    fn put(
        slot: &mut Option<Self>,
        entries: usize,
        index: usize,
        ticket: Self::Leaf,
    ) -> Option<Self::Leaf>
        requires some { 0 < entries }
        requires fits { Self.span_of entries < 2 ^ 64 }
        requires inside { index < Self.span_of entries }
        requires shaped { Self.shaped entries slot.old }
        requires path { Self.missing entries slot.old index ≡ 0 }
        ensures old { result ≡ Self.find entries slot.old index }
        ensures sets { SetsAt (Self.find entries slot.old) (Self.find entries slot.new) index (Some ticket) }
        ensures namer { Same (Self.namer entries slot.old) (Self.namer entries slot.new) }
        ensures useful { (asked : ℕ → ℕ → Bool) (first : ℕ) → SparesIndex asked (first + index) → Self.useful entries asked first slot.old → Self.useful entries asked first slot.new }
        ensures shaped { Self.shaped entries slot.new }
        ensures change { ChangesSlot Self.number Self.weight Self.is_leaf slot.old slot.new (λ w. ticket_weight w result) (λ w. w.ticket ticket) };

    /// Hands out one ticket at or past the index, or the token of a node that names nothing.
    fn prune(slot: &mut Option<Self>, entries: usize, from: usize) -> Option<Spare<Self::Leaf>>
        requires some { 0 < entries }
        requires fits { Self.span_of entries < 2 ^ 64 }
        requires shaped { Self.shaped entries slot.old }
        ensures shaped { Self.shaped entries slot.new }
        ensures namer { KeepsNamers (Self.find entries slot.new) (Self.namer entries slot.old) (Self.namer entries slot.new) }
        ensures useful { (asked : ℕ → ℕ → Bool) (first : ℕ) → SparesPast asked (first + from) → Self.useful entries asked first slot.old → Self.useful entries asked first slot.new }
        ensures past { MatchOption result ((asked : ℕ → ℕ → Bool) (first : ℕ) → AsksPast asked first (first + from) → Self.useful entries asked first slot.new) (λ _. Unit {0}) }
        ensures none { MatchOption result
            ((slot.new ≡ slot.old) × EmptyFrom (Self.find entries slot.old) from × (from ≡ 0 → slot.old ≡ None)) (λ _. Unit {0}) }
        ensures out { MatchOption result (Unit {0}) (λ spare. HandsOut (Self.find entries slot.old) (Self.find entries slot.new) from spare) }
        ensures change { MatchOption result (Unit {0})
            (λ spare. (out : Weighing Self.Leaf → ℕ) × WeighsAs spare out × ChangesSlot Self.number Self.weight (is_none slot.new) slot.old slot.new out nothing) };

    /// Hands out the ticket at the index, or else the token of a node on the way to it that names nothing.
    fn erase(slot: &mut Option<Self>, entries: usize, index: usize) -> Option<Spare<Self::Leaf>>
        requires some { 0 < entries }
        requires fits { Self.span_of entries < 2 ^ 64 }
        requires inside { index < Self.span_of entries }
        requires shaped { Self.shaped entries slot.old }
        ensures shaped { Self.shaped entries slot.new }
        ensures namer { KeepsNamers (Self.find entries slot.new) (Self.namer entries slot.old) (Self.namer entries slot.new) }
        ensures useful { (asked : ℕ → ℕ → Bool) (first : ℕ) → SparesIndex asked (first + index) → Self.useful entries asked first slot.old → Self.useful entries asked first slot.new }
        ensures way { MatchOption result ((asked : ℕ → ℕ → Bool) (first : ℕ) → AsksHolding asked first (first + index) → Self.useful entries asked first slot.new) (λ _. Unit {0}) }
        ensures none { MatchOption result ((slot.new ≡ slot.old) × (Self.find entries slot.old index ≡ None)) (λ _. Unit {0}) }
        ensures out { MatchOption result (Unit {0}) (λ spare. HandsOutAt (Self.find entries slot.old) (Self.find entries slot.new) index spare) }
        ensures change { MatchOption result (Unit {0})
            (λ spare. (out : Weighing Self.Leaf → ℕ) × WeighsAs spare out × ChangesSlot Self.number Self.weight (is_none slot.new) slot.old slot.new out nothing) };

    /// Where a node of this number has the address `from` at an entry, the ticket comes there and the old one goes. Else
    /// the ticket is handed back, and nothing has changed.
    fn migrate(
        slot: &mut Option<Self>,
        entries: usize,
        nid: u32,
        at: usize,
        from: u32,
        ticket: Self::Leaf,
    ) -> Result<Self::Leaf, Self::Leaf>
        requires some { 0 < entries }
        requires fits { Self.span_of entries < 2 ^ 64 }
        requires address { 0 < from }
        requires shaped { Self.shaped entries slot.old }
        ensures shaped { Self.shaped entries slot.new }
        ensures named { OnOk result (0 < Self.weight (each_naming nid at from) slot.old) }
        ensures address { IfOk result (λ before. Self.address_of before ≡ from) }
        ensures swaps { IfOk result (λ before. SwapsOne (Self.find entries slot.old) (Self.find entries slot.new) before ticket) }
        ensures namer { Same (Self.namer entries slot.old) (Self.namer entries slot.new) }
        ensures useful { (asked : ℕ → ℕ → Bool) (first : ℕ) → Self.useful entries asked first slot.old → Self.useful entries asked first slot.new }
        ensures change { IfOk result (λ before. ChangesSlot Self.number Self.weight false slot.old slot.new (λ w. w.ticket before) (λ w. w.ticket ticket)) }
        ensures elsewhere { OnErr result (Self.weight (each_naming nid at from) slot.old ≡ 0) }
        ensures refused { OnErr result (slot.new ≡ slot.old) }
        ensures back { IfErr result (λ back. back ≡ ticket) };
}

impl<B: Block> Changing for Ticket<B> {
    fn put(
        slot: &mut Option<Ticket<B>>,
        _entries: usize,
        _index: usize,
        ticket: Ticket<B>,
    ) -> Option<Ticket<B>> {
        mem::replace(slot, Some(ticket))
    }

    fn prune(
        slot: &mut Option<Ticket<B>>,
        _entries: usize,
        from: usize,
    ) -> Option<Spare<Ticket<B>>> {
        if from > 0 {
            return None;
        }
        match slot.take() {
            Some(ticket) => Some(Spare::Ticket(ticket)),
            None => None,
        }
    }

    fn erase(
        slot: &mut Option<Ticket<B>>,
        _entries: usize,
        _index: usize,
    ) -> Option<Spare<Ticket<B>>> {
        match slot.take() {
            Some(ticket) => Some(Spare::Ticket(ticket)),
            None => None,
        }
    }

    fn migrate(
        _slot: &mut Option<Ticket<B>>,
        _entries: usize,
        _nid: u32,
        _at: usize,
        _from: u32,
        ticket: Ticket<B>,
    ) -> Result<Ticket<B>, Ticket<B>> {
        Err(ticket)
    }
}

impl<C: Changing> Changing for Branch<C> {
    fn put(
        slot: &mut Option<Branch<C>>,
        entries: usize,
        index: usize,
        ticket: C::Leaf,
    ) -> Option<C::Leaf> {
        match slot {
            Some(branch) => branch.entries.put(entries, entries, index, ticket),
            None => unreachable!(),
        }
    }

    fn prune(slot: &mut Option<Branch<C>>, entries: usize, from: usize) -> Option<Spare<C::Leaf>> {
        let pruned = match slot {
            Some(branch) => branch.entries.prune(entries, entries, from),
            None => return None,
        };
        match pruned {
            Pruned::Found(spare) => Some(spare),
            Pruned::Kept => None,
            Pruned::Empty => match slot.take() {
                Some(branch) => Some(Spare::Token(branch.into_token())),
                None => unreachable!(),
            },
        }
    }

    fn erase(slot: &mut Option<Branch<C>>, entries: usize, index: usize) -> Option<Spare<C::Leaf>> {
        let names_nothing = match slot {
            Some(branch) => {
                if let Some(spare) = branch.entries.erase(entries, entries, index) {
                    return Some(spare);
                }
                branch.entries.name_nothing()
            }
            None => return None,
        };
        if !names_nothing {
            return None;
        }
        match slot.take() {
            Some(branch) => Some(Spare::Token(branch.into_token())),
            None => unreachable!(),
        }
    }

    fn migrate(
        slot: &mut Option<Branch<C>>,
        entries: usize,
        nid: u32,
        at: usize,
        from: u32,
        ticket: C::Leaf,
    ) -> Result<C::Leaf, C::Leaf> {
        let Some(branch) = slot else {
            return Err(ticket);
        };
        if !C::is_leaf() {
            return branch
                .entries
                .migrate(entries, entries, nid, at, from, ticket);
        }
        if branch.token.number() != nid {
            return Err(ticket);
        }
        branch.entries.swap(entries, entries, at, from, ticket)
    }
}
