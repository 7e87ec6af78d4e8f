//! What is found below the entries of a node, one after another.
ghost use Rattle.std.specs.Prelude.{Bool, ℕ, ◌+◌, ◌≡◌, ◌*◌, ◌%◌, ◌^◌, ◌<◌, true, false, Some, None, IsTrue, ◌↔◌, map, slice_set, slice_index_or, length, IfSome, IfOk, IfErr};
ghost use Rattle.geometry.specs.Weights.{weigh};
ghost use Rattle.rights_books.specs.declared.claim.TakenNumber.{TakenNumber};
ghost use Rattle.nodes.specs.Tree.{Same, ShapedIn, UsefulIn, AreNone, entry_at, find_in, number_of};
ghost use Rattle.nodes.specs.Change.{TreeNode, each_naming};
ghost use Rattle.nodes.specs.TreeMarks.{AreCounted};
ghost use Rattle.nodes_walks.specs.Writing.{IsAmong};
ghost use Rattle.nodes_walks.specs.Moving.{MovesOne, each_numbered};

use crate::seek::Seek;
use crate::visitor::NodeVisitor;
use geometry::Error;
use nodes::{Entries, Subtree};

/// Whether an entry has this address, or is the node of this number.
pub fn is_named_at<C: Subtree>(below: &Entries<C>, at: usize, number: u32) -> bool
    requires { 0 < number }
    ensures { IsTrue result ↔ (slice_index_or (map C.number below.now.slots.items) at 0 ≡ number) }
{
    at < below.slots.len() && C::entry(&below.slots[at]) == number
}

/// The index of the block whose address `from` a node of this number has at its entry `at`, below these entries: that node
/// names the index, by its entry `at`.
pub fn index_in<C: Seek>(
    below: &Entries<C>,
    count: usize,
    entries: usize,
    nid: u32,
    at: usize,
    from: u32,
) -> Option<usize>
    requires some { 0 < entries }
    requires fits { C.span_of entries < 2 ^ 64 }
    requires all_fit { count * C.span_of entries < 2 ^ 64 }
    requires address { 0 < from }
    requires shaped { ShapedIn (C.shaped entries) count below.now.slots.items }
    ensures within { IfSome result (λ index. index < count * C.span_of entries) }
    ensures there { IfSome result (λ index. number_of C.address_of (find_in (C.find entries) (C.span_of entries) below.now.slots.items index) ≡ from) }
    ensures namer { IfSome result (λ index. find_in (C.namer entries) (C.span_of entries) below.now.slots.items index ≡ Some nid) }
    ensures entry { IfSome result (λ index. (before : ℕ) → (before * C.span_of entries + index) % entries ≡ at) }
    ensures elsewhere { result ≡ None → weigh (C.weight (each_naming nid at from)) below.now.slots.items ≡ 0 }
{
    for place in 0..below.slots.end() {
        if let Some(index) = C::index_of(&below.slots[place], entries, nid, at, from) {
            return Some(place * C::span(entries) + index);
        }
    }
    None
}

// Lends the token of the node of this number below one entry.
fn visit_at<C: Seek, V: NodeVisitor>(
    below: &mut Entries<C>,
    place: usize,
    entries: usize,
    nid: u32,
    visitor: &mut V,
) -> Result<bool, Error>
    requires at { place < length below.old.slots.items }
    requires shaped { C.shaped entries (entry_at below.old.slots.items place) }
    requires ready { (n : TreeNode) → n.token.number ≡ nid → IsAmong (λ w. weigh (C.weight w) below.old.slots.items) n → V.ready visitor.old n.token }
    ensures visited { IfOk result (λ found. found ≡ true → (n : TreeNode) × (token : TakenNumber)
        × MovesOne (λ w. weigh (C.weight w) below.old.slots.items) (λ w. weigh (C.weight w) below.new.slots.items) n token × V.visited visitor.old n.token token visitor.new) }
    ensures none { IfOk result (λ found. found ≡ false → (C.weight (each_numbered nid) (entry_at below.old.slots.items place) ≡ 0) × (below.new ≡ below.old) × (visitor.new ≡ visitor.old)) }
    ensures refused { IfErr result (λ e. (below.new ≡ below.old) × (n : TreeNode)
        × IsAmong (λ w. weigh (C.weight w) below.old.slots.items) n × V.refused visitor.old n.token e visitor.new) }
    ensures entry { below.new.slots.items ≡ slice_set below.old.slots.items place (entry_at below.new.slots.items place) }
    ensures same { Same (C.find entries (entry_at below.old.slots.items place)) (C.find entries (entry_at below.new.slots.items place)) }
    ensures namer { Same (C.namer entries (entry_at below.old.slots.items place)) (C.namer entries (entry_at below.new.slots.items place)) }
    ensures there { entry_at below.new.slots.items place ≡ None → entry_at below.old.slots.items place ≡ None }
    ensures useful { (asked : ℕ → ℕ → Bool) (first : ℕ) → C.useful entries asked first (entry_at below.old.slots.items place) → C.useful entries asked first (entry_at below.new.slots.items place) }
    ensures shaped { C.shaped entries (entry_at below.new.slots.items place) }
    ensures numbers { map C.number below.new.slots.items ≡ map C.number below.old.slots.items }
    ensures mark { below.new.dirty ≡ below.old.dirty }
    ensures counted { AreCounted C.weight below.old.marked below.old.slots.items → AreCounted C.weight below.new.marked below.new.slots.items }
{
    C::visit_node(&mut below.slots[place], entries, nid, visitor)
}

/// Lends the token of the node of this number below these entries, where there is one.
pub fn visit_in<C: Seek, V: NodeVisitor>(
    below: &mut Entries<C>,
    count: usize,
    entries: usize,
    nid: u32,
    visitor: &mut V,
) -> Result<bool, Error>
    requires shaped { ShapedIn (C.shaped entries) count below.old.slots.items }
    requires ready { (n : TreeNode) → n.token.number ≡ nid → IsAmong (λ w. weigh (C.weight w) below.old.slots.items) n → V.ready visitor.old n.token }
    ensures visited { IfOk result (λ found. found ≡ true → (n : TreeNode) × (token : TakenNumber)
        × MovesOne (λ w. weigh (C.weight w) below.old.slots.items) (λ w. weigh (C.weight w) below.new.slots.items) n token × V.visited visitor.old n.token token visitor.new) }
    ensures none { IfOk result (λ found. found ≡ false → (weigh (C.weight (each_numbered nid)) below.old.slots.items ≡ 0) × (below.new ≡ below.old) × (visitor.new ≡ visitor.old)) }
    ensures refused { IfErr result (λ e. (below.new ≡ below.old) × (n : TreeNode)
        × IsAmong (λ w. weigh (C.weight w) below.old.slots.items) n × V.refused visitor.old n.token e visitor.new) }
    ensures same { Same (find_in (C.find entries) (C.span_of entries) below.old.slots.items) (find_in (C.find entries) (C.span_of entries) below.new.slots.items) }
    ensures namer { Same (find_in (C.namer entries) (C.span_of entries) below.old.slots.items) (find_in (C.namer entries) (C.span_of entries) below.new.slots.items) }
    ensures some { AreNone below.new.slots.items → AreNone below.old.slots.items }
    ensures useful { (asked : ℕ → ℕ → Bool) (first : ℕ) → UsefulIn (C.useful entries) (C.span_of entries) asked first below.old.slots.items → UsefulIn (C.useful entries) (C.span_of entries) asked first below.new.slots.items }
    ensures shaped { ShapedIn (C.shaped entries) count below.new.slots.items }
    ensures numbers { map C.number below.new.slots.items ≡ map C.number below.old.slots.items }
    ensures mark { below.new.dirty ≡ below.old.dirty }
    ensures counted { AreCounted C.weight below.old.marked below.old.slots.items → AreCounted C.weight below.new.marked below.new.slots.items }
{
    for place in 0..below.slots.end() {
        if visit_at(below, place, entries, nid, visitor)? {
            return Ok(true);
        }
    }
    Ok(false)
}
