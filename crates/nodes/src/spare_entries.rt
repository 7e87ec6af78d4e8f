//! Spare nodes below the entries of a node.
ghost use Rattle.std.specs.Prelude.{Bool, ◌≡◌, ℕ, ◌+◌, ◌*◌, ◌/◌, ◌%◌, ◌^◌, ◌<◌, length, slice_set, OnOk, OnErr, IfErr, IsTrue, ◌↔◌, true, false, Some};
ghost use Rattle.rights_books.specs.declared.claim.TakenNumber.{TakenNumber};
ghost use Rattle.nodes.specs.Tree.{Same, ShapedIn, UsefulIn, SparesIndex, entry_at, find_in, missing_in};
ghost use Rattle.nodes.specs.Change.{TreeNode, ChangesEntries, IsNewNode, nothing};
ghost use Rattle.nodes.specs.TreeMarks.{AreCounted};
ghost use Rattle.nodes.specs.Spares.{KeepsNames, lacking_in};

use crate::planting::Planting;
use crate::{Entries, Subtree};
use std::alloc::Global;
use tickets::NidToken;

/// Whether each node that is missing on the way to the index has been made.
pub fn is_ready_in<C: Planting>(
    below: &Entries<C>,
    spares: &C::Spares,
    count: usize,
    entries: usize,
    index: usize,
) -> bool
    requires some { 0 < entries }
    requires fits { C.span_of entries < 2 ^ 64 }
    requires inside { index < count * C.span_of entries }
    requires shaped { ShapedIn (C.shaped entries) count below.now.slots.items }
    ensures { IsTrue result ↔ (lacking_in (C.lacking entries) (C.span_of entries) below.now.slots.items index spares.now ≡ 0) }
{
    let span = C::span(entries);
    C::is_ready(&below.slots[index / span], spares, entries, index % span)
}

/// Makes the first node that is missing and was not made yet. Where memory is missing, or no node is, the token is handed
/// back, and nothing has changed.
pub fn prepare_in<C: Planting>(
    below: &Entries<C>,
    spares: &mut C::Spares,
    alloc: Global,
    count: usize,
    entries: usize,
    index: usize,
    token: NidToken,
) -> Result<(), NidToken>
    requires some { 0 < entries }
    requires fits { C.span_of entries < 2 ^ 64 }
    requires inside { index < count * C.span_of entries }
    requires shaped { ShapedIn (C.shaped entries) count below.now.slots.items }
    requires empty { C.empty_nodes entries spares.old }
    ensures made { OnOk result (lacking_in (C.lacking entries) (C.span_of entries) below.now.slots.items index spares.new + 1
        ≡ lacking_in (C.lacking entries) (C.span_of entries) below.now.slots.items index spares.old) }
    ensures tokens { OnOk result ((h : TakenNumber → ℕ) → C.tokens_of h spares.new ≡ C.tokens_of h spares.old + h token) }
    ensures empty { C.empty_nodes entries spares.new }
    ensures refused { OnErr result (spares.new ≡ spares.old) }
    ensures token { IfErr result (λ back. back ≡ token) }
{
    let span = C::span(entries);
    C::prepare(
        &below.slots[index / span],
        spares,
        alloc,
        entries,
        index % span,
        token,
    )
}

/// Puts the first node that is missing on the way to the index into the tree, and marks the entries where it comes to one of
/// them. False: none is missing, and nothing has changed.
pub fn plant_in<C: Planting>(
    below: &mut Entries<C>,
    spares: &mut C::Spares,
    count: usize,
    entries: usize,
    index: usize,
) -> bool
    requires some { 0 < entries }
    requires fits { C.span_of entries < 2 ^ 64 }
    requires inside { index < count * C.span_of entries }
    requires shaped { ShapedIn (C.shaped entries) count below.old.slots.items }
    requires ready { lacking_in (C.lacking entries) (C.span_of entries) below.old.slots.items index spares.old ≡ 0 }
    requires empty { C.empty_nodes entries spares.old }
    ensures same { Same (find_in (C.find entries) (C.span_of entries) below.old.slots.items) (find_in (C.find entries) (C.span_of entries) below.new.slots.items) }
    ensures namer { KeepsNames (find_in (C.namer entries) (C.span_of entries) below.old.slots.items) (find_in (C.namer entries) (C.span_of entries) below.new.slots.items) }
    ensures useful { (asked : ℕ → ℕ → Bool) (first : ℕ) → SparesIndex asked (first + index) → UsefulIn (C.useful entries) (C.span_of entries) asked first below.old.slots.items → UsefulIn (C.useful entries) (C.span_of entries) asked first below.new.slots.items }
    ensures end { 0 < missing_in (C.missing entries) (C.span_of entries) below.old.slots.items index → missing_in (C.missing entries) (C.span_of entries) below.new.slots.items index ≡ 0
        → find_in (C.namer entries) (C.span_of entries) below.new.slots.items index ≡ Some (C.end_number spares.old) }
    ensures rest { 0 < missing_in (C.missing entries) (C.span_of entries) below.new.slots.items index → C.end_number spares.new ≡ C.end_number spares.old }
    ensures shaped { ShapedIn (C.shaped entries) count below.new.slots.items }
    ensures grown { result ≡ true → missing_in (C.missing entries) (C.span_of entries) below.new.slots.items index + 1 ≡ missing_in (C.missing entries) (C.span_of entries) below.old.slots.items index }
    ensures none { result ≡ false → (missing_in (C.missing entries) (C.span_of entries) below.old.slots.items index ≡ 0) × (below.new ≡ below.old) × (spares.new ≡ spares.old) }
    ensures counted { AreCounted C.weight below.old.marked below.old.slots.items → AreCounted C.weight below.new.marked below.new.slots.items }
    ensures ready { lacking_in (C.lacking entries) (C.span_of entries) below.new.slots.items index spares.new ≡ 0 }
    ensures empty { C.empty_nodes entries spares.new }
    ensures change { result ≡ true → (n : TreeNode) × IsNewNode n.token n
        × ChangesEntries C.number C.weight below.old.slots.items below.new.slots.items below.old.dirty below.new.dirty nothing (λ w. w.node n)
        × ((h : TakenNumber → ℕ) → C.tokens_of h spares.new + h n.token ≡ C.tokens_of h spares.old) }
{
    let span = C::span(entries);
    plant_at(below, spares, index / span, entries, index % span)
}

fn plant_at<C: Planting>(
    below: &mut Entries<C>,
    spares: &mut C::Spares,
    at: usize,
    entries: usize,
    index: usize,
) -> bool
    requires at { at < length below.old.slots.items }
    requires some { 0 < entries }
    requires fits { C.span_of entries < 2 ^ 64 }
    requires inside { index < C.span_of entries }
    requires shaped { C.shaped entries (entry_at below.old.slots.items at) }
    requires ready { C.lacking entries (entry_at below.old.slots.items at) index spares.old ≡ 0 }
    requires empty { C.empty_nodes entries spares.old }
    ensures entry { below.new.slots.items ≡ slice_set below.old.slots.items at (entry_at below.new.slots.items at) }
    ensures same { Same (C.find entries (entry_at below.old.slots.items at)) (C.find entries (entry_at below.new.slots.items at)) }
    ensures namer { KeepsNames (C.namer entries (entry_at below.old.slots.items at)) (C.namer entries (entry_at below.new.slots.items at)) }
    ensures useful { (asked : ℕ → ℕ → Bool) (first : ℕ) → SparesIndex asked (first + index) → C.useful entries asked first (entry_at below.old.slots.items at) → C.useful entries asked first (entry_at below.new.slots.items at) }
    ensures end { 0 < C.missing entries (entry_at below.old.slots.items at) index → C.missing entries (entry_at below.new.slots.items at) index ≡ 0
        → C.namer entries (entry_at below.new.slots.items at) index ≡ Some (C.end_number spares.old) }
    ensures rest { 0 < C.missing entries (entry_at below.new.slots.items at) index → C.end_number spares.new ≡ C.end_number spares.old }
    ensures shaped { C.shaped entries (entry_at below.new.slots.items at) }
    ensures grown { result ≡ true → C.missing entries (entry_at below.new.slots.items at) index + 1 ≡ C.missing entries (entry_at below.old.slots.items at) index }
    ensures none { result ≡ false → (C.missing entries (entry_at below.old.slots.items at) index ≡ 0) × (below.new ≡ below.old) × (spares.new ≡ spares.old) }
    ensures counted { AreCounted C.weight below.old.marked below.old.slots.items → AreCounted C.weight below.new.marked below.new.slots.items }
    ensures ready { C.lacking entries (entry_at below.new.slots.items at) index spares.new ≡ 0 }
    ensures empty { C.empty_nodes entries spares.new }
    ensures change { result ≡ true → (n : TreeNode) × IsNewNode n.token n
        × ChangesEntries C.number C.weight below.old.slots.items below.new.slots.items below.old.dirty below.new.dirty nothing (λ w. w.node n)
        × ((h : TakenNumber → ℕ) → C.tokens_of h spares.new + h n.token ≡ C.tokens_of h spares.old) }
{
    let slot = &below.slots[at];
    let fresh = slot.is_none();
    let was = C::has_mark(slot);
    if !C::plant(&mut below.slots[at], spares, entries, index) {
        return false;
    }
    below.recount(at, was);
    if fresh {
        below.dirty = true;
    }
    true
}
