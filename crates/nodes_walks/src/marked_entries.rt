//! The walk over the entries of a node.
ghost use Rattle.std.specs.Prelude.{Bool, ℕ, None, ◌≡◌, ◌≤◌, ◌<◌, ◌+◌, ◌*◌, ◌^◌, true, false, map, slice_set, length, OnOk, OnErr, IfOk, IfErr};
ghost use Rattle.geometry.specs.Weights.{weigh};
ghost use Rattle.rights_books.specs.declared.claim.TakenNumber.{TakenNumber};
ghost use Rattle.nodes.specs.Tree.{Same, ShapedIn, UsefulIn, AreNone, entry_at, find_in};
ghost use Rattle.nodes.specs.Change.{TreeNode, tree_node, each_marked};
ghost use Rattle.nodes.specs.TreeMarks.{AreCounted};
ghost use Rattle.nodes_walks.specs.Writing.{IsAmong, WritesOne, marked_node};

use crate::subtree_walk::Walk;
use crate::writer::{NodeBlock, NodeWriter};
use geometry::{Class, Error, Kind};
use nodes::{Branch, Entries, Slots, Subtree};

/// Writes what entries name over as many numbers: the address of a block or the number of a node, 0 where there is nothing.
pub fn spell_entries<C: Subtree>(slots: &Slots<C>, numbers: &mut [u32])
    requires { length numbers.old ≡ length slots.now.items }
    ensures { numbers.new ≡ map C.number slots.now.items }
{
    for place in 0..slots.len() {
        numbers[place] = C::entry(&slots[place]);
    }
}

// What the block of a node other than an inode is to spell.
fn block_of(is_leaf: bool, numbers: &[u32]) -> NodeBlock<'_>
    ensures { (token : TakenNumber) → marked_node token result.class result.kind result.length result.addresses.now result.children.now
        ≡ tree_node is_leaf token numbers.now true }
{
    if is_leaf {
        NodeBlock {
            class: Class::Direct,
            kind: Kind::File,
            length: 0,
            addresses: numbers,
            children: &[],
        }
    } else {
        NodeBlock {
            class: Class::Indirect,
            kind: Kind::File,
            length: 0,
            addresses: &[],
            children: numbers,
        }
    }
}

/// Lends a node to the writer, and takes its mark away.
pub fn write_branch<C: Subtree, W: NodeWriter>(
    branch: &mut Branch<C>,
    numbers: &mut [u32],
    writer: &mut W,
) -> Result<(), Error>
    requires room { length branch.old.entries.slots.items ≤ length numbers.old }
    requires ready { W.ready writer.old (tree_node C.is_leaf branch.old.token (map C.number branch.old.entries.slots.items) true) }
    ensures wrote { OnOk result (W.wrote writer.old (tree_node C.is_leaf branch.old.token (map C.number branch.old.entries.slots.items) true) branch.new.token writer.new) }
    ensures refused { IfErr result (λ e. W.refused writer.old (tree_node C.is_leaf branch.old.token (map C.number branch.old.entries.slots.items) true) e writer.new) }
    ensures clean { OnOk result (branch.new.entries.dirty ≡ false) }
    ensures same { OnErr result (branch.new ≡ branch.old) }
    ensures number { branch.new.token.number ≡ branch.old.token.number }
    ensures slots { branch.new.entries.slots ≡ branch.old.entries.slots }
    ensures count { branch.new.entries.marked ≡ branch.old.entries.marked }
    ensures room { length numbers.new ≡ length numbers.old }
{
    let numbers = &mut numbers[..branch.entries.slots.len()];
    spell_entries(&branch.entries.slots, numbers);
    let block = block_of(C::is_leaf(), numbers);
    match writer.write_node(&mut branch.token, &block) {
        Ok(()) => {
            branch.entries.dirty = false;
            Ok(())
        }
        Err(error) => Err(error),
    }
}

// Lends the first marked node below one entry to the writer, of those that begin at or past an index. Below an entry that has no
// marked node it looks at nothing.
fn flush_at<C: Walk, W: NodeWriter>(
    below: &mut Entries<C>,
    place: usize,
    entries: usize,
    from: &mut usize,
    numbers: &mut [u32],
    writer: &mut W,
) -> Result<bool, Error>
    requires at { place < length below.old.slots.items }
    requires some { 0 < entries }
    requires fits { C.span_of entries < 2 ^ 64 }
    requires shaped { C.shaped entries (entry_at below.old.slots.items place) }
    requires room { entries ≤ length numbers.old }
    requires ready { (n : TreeNode) → n.dirty ≡ true → IsAmong (λ w. weigh (C.weight w) below.old.slots.items) n → W.ready writer.old n }
    ensures wrote { IfOk result (λ found. found ≡ true → (n : TreeNode) × (token : TakenNumber)
        × WritesOne (λ w. weigh (C.weight w) below.old.slots.items) (λ w. weigh (C.weight w) below.new.slots.items) n token × W.wrote writer.old n token writer.new) }
    ensures clean { IfOk result (λ found. found ≡ false → (from.old ≡ 0 → C.weight each_marked (entry_at below.old.slots.items place) ≡ 0) × (below.new ≡ below.old) × (writer.new ≡ writer.old)) }
    ensures refused { IfErr result (λ e. (below.new ≡ below.old) × (n : TreeNode) × (n.dirty ≡ true)
        × IsAmong (λ w. weigh (C.weight w) below.old.slots.items) n × W.refused writer.old n e writer.new) }
    ensures entry { below.new.slots.items ≡ slice_set below.old.slots.items place (entry_at below.new.slots.items place) }
    ensures same { Same (C.find entries (entry_at below.old.slots.items place)) (C.find entries (entry_at below.new.slots.items place)) }
    ensures namer { Same (C.namer entries (entry_at below.old.slots.items place)) (C.namer entries (entry_at below.new.slots.items place)) }
    ensures there { entry_at below.new.slots.items place ≡ None → entry_at below.old.slots.items place ≡ None }
    ensures useful { (asked : ℕ → ℕ → Bool) (first : ℕ) → C.useful entries asked first (entry_at below.old.slots.items place) → C.useful entries asked first (entry_at below.new.slots.items place) }
    ensures shaped { C.shaped entries (entry_at below.new.slots.items place) }
    ensures numbers { map C.number below.new.slots.items ≡ map C.number below.old.slots.items }
    ensures mark { below.new.dirty ≡ below.old.dirty }
    ensures counted { AreCounted C.weight below.old.marked below.old.slots.items → AreCounted C.weight below.new.marked below.new.slots.items }
    ensures room { length numbers.new ≡ length numbers.old }
{
    if !C::has_mark(&below.slots[place]) {
        return Ok(false);
    }
    let found = C::flush_next(&mut below.slots[place], entries, from, numbers, writer);
    below.recount(place, true);
    found
}

/// Lends the first marked node below entries to the writer, one entry after another, of those that begin at or past an index.
pub fn flush_entries<C: Walk, W: NodeWriter>(
    below: &mut Entries<C>,
    count: usize,
    entries: usize,
    from: &mut usize,
    numbers: &mut [u32],
    writer: &mut W,
) -> Result<bool, Error>
    requires some { 0 < entries }
    requires fits { C.span_of entries < 2 ^ 64 }
    requires shaped { ShapedIn (C.shaped entries) count below.old.slots.items }
    requires room { entries ≤ length numbers.old }
    requires ready { (n : TreeNode) → n.dirty ≡ true → IsAmong (λ w. weigh (C.weight w) below.old.slots.items) n → W.ready writer.old n }
    ensures wrote { IfOk result (λ found. found ≡ true → (n : TreeNode) × (token : TakenNumber)
        × WritesOne (λ w. weigh (C.weight w) below.old.slots.items) (λ w. weigh (C.weight w) below.new.slots.items) n token × W.wrote writer.old n token writer.new) }
    ensures clean { IfOk result (λ found. found ≡ false → (from.old ≡ 0 → weigh (C.weight each_marked) below.old.slots.items ≡ 0) × (below.new ≡ below.old) × (writer.new ≡ writer.old)) }
    ensures refused { IfErr result (λ e. (below.new ≡ below.old) × (n : TreeNode) × (n.dirty ≡ true)
        × IsAmong (λ w. weigh (C.weight w) below.old.slots.items) n × W.refused writer.old n e writer.new) }
    ensures same { Same (find_in (C.find entries) (C.span_of entries) below.old.slots.items) (find_in (C.find entries) (C.span_of entries) below.new.slots.items) }
    ensures namer { Same (find_in (C.namer entries) (C.span_of entries) below.old.slots.items) (find_in (C.namer entries) (C.span_of entries) below.new.slots.items) }
    ensures some { AreNone below.new.slots.items → AreNone below.old.slots.items }
    ensures useful { (asked : ℕ → ℕ → Bool) (first : ℕ) → UsefulIn (C.useful entries) (C.span_of entries) asked first below.old.slots.items → UsefulIn (C.useful entries) (C.span_of entries) asked first below.new.slots.items }
    ensures shaped { ShapedIn (C.shaped entries) count below.new.slots.items }
    ensures numbers { map C.number below.new.slots.items ≡ map C.number below.old.slots.items }
    ensures mark { below.new.dirty ≡ below.old.dirty }
    ensures counted { AreCounted C.weight below.old.marked below.old.slots.items → AreCounted C.weight below.new.marked below.new.slots.items }
    ensures room { length numbers.new ≡ length numbers.old }
{
    let span = C::span(entries);
    let mut inside = *from % span;
    for place in *from / span..below.slots.end() {
        if flush_at(below, place, entries, &mut inside, numbers, writer)? {
            *from = place.saturating_mul(span).saturating_add(inside);
            return Ok(true);
        }
        inside = 0;
    }
    Ok(false)
}
