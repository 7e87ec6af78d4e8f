//! The walk over a file's marked nodes.
ghost use Rattle.std.specs.Prelude.{Bool, ℕ, ◌≡◌, ◌≤◌, ◌<◌, ◌+◌, ◌++◌, ◌↔◌, IsTrue, true, false, map, length, OnOk, OnErr, IfOk, IfErr};
ghost use Rattle.geometry.specs.Path.{node_entries};
ghost use Rattle.rights_books.specs.declared.claim.TakenNumber.{TakenNumber};
ghost use Rattle.tickets.specs.Placed.{Placed};
ghost use Rattle.nodes.specs.Change.{TreeNode, Weighing, each_marked};
ghost use Rattle.nodes_walks.specs.Writing.{IsAmong, WritesOne};
ghost use Rattle.nodes.specs.File.{address_of, nid_of, IsFile, inode_of, below_weight, weight_of};
ghost use Rattle.nodes_walks.specs.Kept.{KeepsFile};
ghost use Rattle.nodes_walks.specs.Unmarked.{unmarked};

use crate::{NodeBlock, NodeWriter, flush_entries, spell_entries};
use device::Block;
use geometry::{Class, Error};
use nodes::FileState;

// How many nodes an inode names.
const CHILDREN: usize = 5;

/// Lends the first marked node to the writer, in this order: the inode, then the trees of its five pointers, one after
/// another, each node before what its entries name. It passes over the nodes that begin before the index `from` below the inode,
/// and over the inode where that is not 0; then `from` is where the node that was lent begins, so who goes on from there looks at
/// no node twice. After an Ok of the writer the node is no longer marked. Answers whether there was one. A refused node stays as
/// it was, and so does all else; the file is as it was in each case.
///
/// `numbers` has room for the entries of a node.
pub fn flush_next<B: Block, W: NodeWriter>(
    file: &mut FileState<B>,
    from: &mut usize,
    numbers: &mut [u32],
    writer: &mut W,
) -> Result<bool, Error>
    requires file { IsFile file.old }
    requires room { node_entries file.old.shape ≤ length numbers.old }
    requires ready { (n : TreeNode) → n.dirty ≡ true → IsAmong (weight_of file.old) n → W.ready writer.old n }
    ensures wrote { IfOk result (λ found. found ≡ true → (n : TreeNode) × (token : TakenNumber)
        × WritesOne (weight_of file.old) (weight_of file.new) n token × W.wrote writer.old n token writer.new) }
    ensures clean { IfOk result (λ found. found ≡ false → (from.old ≡ 0 → weight_of file.old each_marked ≡ 0) × (file.new ≡ file.old) × (writer.new ≡ writer.old)) }
    ensures refused { IfErr result (λ e. (file.new ≡ file.old) × (n : TreeNode) × (n.dirty ≡ true)
        × IsAmong (weight_of file.old) n × W.refused writer.old n e writer.new) }
    ensures kept { KeepsFile file.old file.new }
    ensures room { length numbers.new ≡ length numbers.old }
{
    if *from > 0 || !is_inode_marked(file) {
        return flush_below(file, from, numbers, writer);
    }
    match write_inode(file, numbers, writer) {
        Ok(()) => Ok(true),
        Err(error) => Err(error),
    }
}

// Whether the inode is marked.
fn is_inode_marked<B: Block>(file: &FileState<B>) -> bool
    ensures { result ≡ (inode_of file.now).dirty }
{
    file.resized
        || file.tickets.dirty
        || file.direct.dirty
        || file.indirect.dirty
        || file.double.dirty
}

fn unmark_inode<B: Block>(file: &mut FileState<B>)
    ensures { file.new ≡ unmarked file.old }
{
    file.resized = false;
    file.tickets.dirty = false;
    file.direct.dirty = false;
    file.indirect.dirty = false;
    file.double.dirty = false;
}

// Writes the numbers of the five nodes that the inode names.
fn spell_children<B: Block>(file: &FileState<B>, numbers: &mut [u32])
    requires file { IsFile file.now }
    requires room { length numbers.old ≡ 5 }
    ensures { numbers.new ≡ (inode_of file.now).children }
{
    let (direct, rest) = numbers.split_at_mut(2);
    let (indirect, double) = rest.split_at_mut(2);
    spell_entries(&file.direct.slots, direct);
    spell_entries(&file.indirect.slots, indirect);
    spell_entries(&file.double.slots, double);
}

// Lends the inode, which is marked, to the writer, and takes its mark away.
fn write_inode<B: Block, W: NodeWriter>(
    file: &mut FileState<B>,
    numbers: &mut [u32],
    writer: &mut W,
) -> Result<(), Error>
    requires file { IsFile file.old }
    requires room { node_entries file.old.shape ≤ length numbers.old }
    requires marked { (inode_of file.old).dirty ≡ true }
    requires ready { W.ready writer.old (inode_of file.old) }
    ensures wrote { OnOk result (W.wrote writer.old (inode_of file.old) file.new.token writer.new) }
    ensures refused { IfErr result (λ e. W.refused writer.old (inode_of file.old) e writer.new) }
    ensures clean { OnOk result (file.new ≡ unmarked (record file.old { token = file.new.token })) }
    ensures same { OnErr result (file.new ≡ file.old) }
    ensures number { file.new.token.number ≡ file.old.token.number }
    ensures room { length numbers.new ≡ length numbers.old }
{
    let slots = file.tickets.slots.len();
    let numbers = &mut numbers[..slots + CHILDREN];
    let (addresses, children) = numbers.split_at_mut(slots);
    spell_entries(&file.tickets.slots, addresses);
    spell_children(file, children);
    let block = NodeBlock {
        class: Class::Inode,
        kind: file.kind,
        length: file.length,
        addresses,
        children,
    };
    match writer.write_node(&mut file.token, &block) {
        Ok(()) => {
            unmark_inode(file);
            Ok(())
        }
        Err(error) => Err(error),
    }
}

// The walk below the inode.
fn flush_below<B: Block, W: NodeWriter>(
    file: &mut FileState<B>,
    from: &mut usize,
    numbers: &mut [u32],
    writer: &mut W,
) -> Result<bool, Error>
    requires file { IsFile file.old }
    requires room { node_entries file.old.shape ≤ length numbers.old }
    requires ready { (n : TreeNode) → n.dirty ≡ true → IsAmong (below_weight file.old) n → W.ready writer.old n }
    ensures wrote { IfOk result (λ found. found ≡ true → (n : TreeNode) × (token : TakenNumber)
        × WritesOne (below_weight file.old) (below_weight file.new) n token × W.wrote writer.old n token writer.new) }
    ensures clean { IfOk result (λ found. found ≡ false → (from.old ≡ 0 → below_weight file.old each_marked ≡ 0) × (file.new ≡ file.old) × (writer.new ≡ writer.old)) }
    ensures refused { IfErr result (λ e. (file.new ≡ file.old) × (n : TreeNode) × (n.dirty ≡ true)
        × IsAmong (below_weight file.old) n × W.refused writer.old n e writer.new) }
    ensures inode { inode_of file.new ≡ inode_of file.old }
    ensures kept { KeepsFile file.old file.new }
    ensures room { length numbers.new ≡ length numbers.old }
{
    let entries = file.shape.node_entries() as usize;
    let mut at = *from;
    if flush_entries(&mut file.direct, 2, entries, &mut at, numbers, writer)? {
        *from = at;
        return Ok(true);
    }
    let direct = 2 * entries;
    let mut at = from.saturating_sub(direct);
    if flush_entries(&mut file.indirect, 2, entries, &mut at, numbers, writer)? {
        *from = direct.saturating_add(at);
        return Ok(true);
    }
    let indirect = direct + direct * entries;
    let mut at = from.saturating_sub(indirect);
    let found = flush_entries(&mut file.double, 1, entries, &mut at, numbers, writer);
    *from = indirect.saturating_add(at);
    found
}
