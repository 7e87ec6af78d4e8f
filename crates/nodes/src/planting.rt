//! Spare nodes below one entry.
ghost use Rattle.std.specs.Prelude.{Bool, ◌≡◌, ℕ, ◌+◌, ◌%◌, ◌^◌, ◌<◌, is_none, OnOk, OnErr, IfErr, MatchOption, IsTrue, ◌↔◌, Option, Some, None, true, false};
ghost use Rattle.rights_books.specs.declared.claim.TakenNumber.{TakenNumber};
ghost use Rattle.nodes.specs.Tree.{Same, SparesIndex};
ghost use Rattle.nodes.specs.Change.{TreeNode, ChangesSlot, IsNewNode, nothing};
ghost use Rattle.nodes.specs.Spares.{KeepsNames, lacking_below, token_weight, IsEmptyNode, number_at_end};

use crate::spare_entries::{is_ready_in, plant_in, prepare_in};
use crate::{Branch, Subtree};
use device::Block;
use std::alloc::Global;
use std::mem;
use tickets::{NidToken, Ticket};

/// A tree whose missing nodes can be made before they are needed.
///
/// To contracts `lacking` is the number of nodes that are still to be made for the way to an index, `tokens_of` what the
/// tokens of the spare nodes weigh, and `empty_nodes` that each of them names nothing.
pub trait Planting: Subtree {
    /// One node for each level, or none.
    type Spares;

    ghost lacking: { ℕ → Option Self → ℕ → Self.Spares → ℕ };

    ghost tokens_of: { (TakenNumber → ℕ) → Self.Spares → ℕ };

    ghost empty_nodes: { ℕ → Self.Spares → Type 0 };

    ghost end_number: { Self.Spares → ℕ };

    /// Whether each node that is missing on the way to the index has been made.
    fn is_ready(slot: &Option<Self>, spares: &Self::Spares, entries: usize, index: usize) -> bool
        requires some { 0 < entries }
        requires fits { Self.span_of entries < 2 ^ 64 }
        requires inside { index < Self.span_of entries }
        requires shaped { Self.shaped entries slot.now }
        ensures { IsTrue result ↔ (lacking entries slot.now index spares.now ≡ 0) };

    /// Makes the first node that is missing and was not made yet. Where memory is missing, or no node is, the token is handed
    /// back, and nothing has changed.
    fn prepare(
        slot: &Option<Self>,
        spares: &mut Self::Spares,
        alloc: Global,
        entries: usize,
        index: usize,
        token: NidToken,
    ) -> Result<(), NidToken>
        requires some { 0 < entries }
        requires fits { Self.span_of entries < 2 ^ 64 }
        requires inside { index < Self.span_of entries }
        requires shaped { Self.shaped entries slot.now }
        requires empty { empty_nodes entries spares.old }
        ensures made { OnOk result (lacking entries slot.now index spares.new + 1 ≡ lacking entries slot.now index spares.old) }
        ensures tokens { OnOk result ((h : TakenNumber → ℕ) → tokens_of h spares.new ≡ tokens_of h spares.old + h token) }
        ensures empty { empty_nodes entries spares.new }
        ensures refused { OnErr result (spares.new ≡ spares.old) }
        ensures token { IfErr result (λ back. back ≡ token) };

    /// Puts the first node that is missing on the way to the index into the tree. False: none is missing, and nothing has
    /// changed.
    fn plant(
        slot: &mut Option<Self>,
        spares: &mut Self::Spares,
        entries: usize,
        index: usize,
    ) -> bool
        requires some { 0 < entries }
        requires fits { Self.span_of entries < 2 ^ 64 }
        requires inside { index < Self.span_of entries }
        requires shaped { Self.shaped entries slot.old }
        requires ready { lacking entries slot.old index spares.old ≡ 0 }
        requires empty { empty_nodes entries spares.old }
        ensures same { Same (Self.find entries slot.old) (Self.find entries slot.new) }
        ensures namer { KeepsNames (Self.namer entries slot.old) (Self.namer entries slot.new) }
        ensures useful { (asked : ℕ → ℕ → Bool) (first : ℕ) → SparesIndex asked (first + index) → Self.useful entries asked first slot.old → Self.useful entries asked first slot.new }
        ensures end { 0 < Self.missing entries slot.old index → Self.missing entries slot.new index ≡ 0 → Self.namer entries slot.new index ≡ Some (end_number spares.old) }
        ensures rest { 0 < Self.missing entries slot.new index → end_number spares.new ≡ end_number spares.old }
        ensures shaped { Self.shaped entries slot.new }
        ensures ready { lacking entries slot.new index spares.new ≡ 0 }
        ensures empty { empty_nodes entries spares.new }
        ensures grown { result ≡ true → Self.missing entries slot.new index + 1 ≡ Self.missing entries slot.old index }
        ensures change { result ≡ true → (n : TreeNode) × IsNewNode n.token n
            × ChangesSlot Self.number Self.weight (is_none slot.old) slot.old slot.new nothing (λ w. w.node n)
            × ((h : TakenNumber → ℕ) → tokens_of h spares.new + h n.token ≡ tokens_of h spares.old) }
        ensures none { result ≡ false → (Self.missing entries slot.old index ≡ 0) × (slot.new ≡ slot.old) × (spares.new ≡ spares.old) };

    ghost missing_none: { (e i : ℕ) → Self.is_leaf ≡ false → 0 < Self.missing e None i };
}

impl<B: Block> Planting for Ticket<B> {
    type Spares = ();

    ghost lacking = { λ _ _ _ _. 0 };

    ghost tokens_of = { λ _ _. 0 };

    ghost empty_nodes = { λ _ _. Unit {0} };

    ghost end_number = { λ _. 0 };

    ghost use Rattle.nodes.specs.SpareLaws.{no_node};

    ghost missing_none = { λ _ _ no. absurd (no_node no) };

    fn is_ready(_slot: &Option<Ticket<B>>, _spares: &(), _entries: usize, _index: usize) -> bool {
        true
    }

    fn prepare(
        _slot: &Option<Ticket<B>>,
        _spares: &mut (),
        _alloc: Global,
        _entries: usize,
        _index: usize,
        token: NidToken,
    ) -> Result<(), NidToken> {
        Err(token)
    }

    fn plant(
        _slot: &mut Option<Ticket<B>>,
        _spares: &mut (),
        _entries: usize,
        _index: usize,
    ) -> bool {
        false
    }
}

/// A spare node, or none, and those of the levels below it.
pub struct SpareNodes<C: Planting> {
    /// That of this level.
    pub node: Option<Branch<C>>,
    /// Those of the levels below.
    pub below: C::Spares,
}

impl<C: Planting> Planting for Branch<C> {
    type Spares = SpareNodes<C>;

    ghost lacking = { λ e slot i s. lacking_below (C.lacking e) (C.span_of e) slot i s.node s.below };

    ghost tokens_of = { λ h s. token_weight h s.node + C.tokens_of h s.below };

    ghost empty_nodes = { λ e s. IsEmptyNode e s.node × C.empty_nodes e s.below };

    ghost end_number = { λ s. number_at_end C.is_leaf C.end_number s.node s.below };

    ghost use Rattle.nodes.specs.SpareLaws.{some_missing};

    ghost missing_none = { λ e i _. some_missing (C.missing e None (i % C.span_of e)) };

    fn is_ready(
        slot: &Option<Branch<C>>,
        spares: &SpareNodes<C>,
        entries: usize,
        index: usize,
    ) -> bool {
        match slot {
            Some(branch) => is_ready_in(&branch.entries, &spares.below, entries, entries, index),
            None => {
                spares.node.is_some()
                    && C::is_ready(&None, &spares.below, entries, index % C::span(entries))
            }
        }
    }

    fn prepare(
        slot: &Option<Branch<C>>,
        spares: &mut SpareNodes<C>,
        alloc: Global,
        entries: usize,
        index: usize,
        token: NidToken,
    ) -> Result<(), NidToken> {
        if let Some(branch) = slot {
            return prepare_in(
                &branch.entries,
                &mut spares.below,
                alloc,
                entries,
                entries,
                index,
                token,
            );
        }
        if spares.node.is_some() {
            let index = index % C::span(entries);
            return C::prepare(&None, &mut spares.below, alloc, entries, index, token);
        }
        let made = Branch::empty(alloc, entries, token)?;
        match mem::replace(&mut spares.node, Some(made)) {
            None => Ok(()),
            Some(_) => unreachable!(),
        }
    }

    fn plant(
        slot: &mut Option<Branch<C>>,
        spares: &mut SpareNodes<C>,
        entries: usize,
        index: usize,
    ) -> bool {
        if let Some(branch) = slot {
            return plant_in(
                &mut branch.entries,
                &mut spares.below,
                entries,
                entries,
                index,
            );
        }
        match spares.node.take() {
            Some(node) => match mem::replace(slot, Some(node)) {
                None => true,
                Some(_) => unreachable!(),
            },
            None => unreachable!(),
        }
    }
}
