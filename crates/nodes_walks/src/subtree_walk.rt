//! The walk below one entry.
ghost use Rattle.std.specs.Prelude.{Bool, ℕ, None, ◌≡◌, ◌≤◌, ◌<◌, ◌^◌, true, false, length, IfOk, IfErr};
ghost use Rattle.rights_books.specs.declared.claim.TakenNumber.{TakenNumber};
ghost use Rattle.nodes.specs.Tree.{Same};
ghost use Rattle.nodes.specs.Change.{TreeNode, each_marked};
ghost use Rattle.nodes_walks.specs.Writing.{IsAmong, WritesOne};

use crate::marked_entries::{flush_entries, write_branch};
use crate::writer::NodeWriter;
use device::Block;
use geometry::Error;
use nodes::{Branch, Subtree};
use tickets::Ticket;

/// A tree whose marked nodes can be written.
pub trait Walk: Subtree {
    /// Lends the first marked node that begins at or past an index to the writer, in this order: a node, then what its entries
    /// name, one after another. After an Ok of the writer the node is no longer marked. Answers whether there was one; then the
    /// next begins at or past `from`, so who goes on from there looks at no node twice. A refused node stays as it was, and so
    /// does all else.
    ///
    /// `numbers` has room for the entries of a node.
    fn flush_next<W: NodeWriter>(
        slot: &mut Option<Self>,
        entries: usize,
        from: &mut usize,
        numbers: &mut [u32],
        writer: &mut W,
    ) -> Result<bool, Error>
        requires some { 0 < entries }
        requires fits { Self.span_of entries < 2 ^ 64 }
        requires shaped { Self.shaped entries slot.old }
        requires room { entries ≤ length numbers.old }
        requires ready { (n : TreeNode) → n.dirty ≡ true → IsAmong (λ w. Self.weight w slot.old) n → W.ready writer.old n }
        ensures wrote { IfOk result (λ found. found ≡ true → (n : TreeNode) × (token : TakenNumber)
            × WritesOne (λ w. Self.weight w slot.old) (λ w. Self.weight w slot.new) n token × W.wrote writer.old n token writer.new) }
        ensures clean { IfOk result (λ found. found ≡ false → (from.old ≡ 0 → Self.weight each_marked slot.old ≡ 0) × (slot.new ≡ slot.old) × (writer.new ≡ writer.old)) }
        ensures refused { IfErr result (λ e. (slot.new ≡ slot.old) × (n : TreeNode) × (n.dirty ≡ true)
            × IsAmong (λ w. Self.weight w slot.old) n × W.refused writer.old n e writer.new) }
        ensures same { Same (Self.find entries slot.old) (Self.find entries slot.new) }
        ensures namer { Same (Self.namer entries slot.old) (Self.namer entries slot.new) }
        ensures there { slot.new ≡ None → slot.old ≡ None }
        ensures useful { (asked : ℕ → ℕ → Bool) (first : ℕ) → Self.useful entries asked first slot.old → Self.useful entries asked first slot.new }
        ensures shaped { Self.shaped entries slot.new }
        ensures number { Self.number slot.new ≡ Self.number slot.old }
        ensures room { length numbers.new ≡ length numbers.old };
}

impl<B: Block> Walk for Ticket<B> {
    fn flush_next<W: NodeWriter>(
        _slot: &mut Option<Ticket<B>>,
        _entries: usize,
        _from: &mut usize,
        _numbers: &mut [u32],
        _writer: &mut W,
    ) -> Result<bool, Error> {
        Ok(false)
    }
}

impl<C: Walk> Walk for Branch<C> {
    fn flush_next<W: NodeWriter>(
        slot: &mut Option<Branch<C>>,
        entries: usize,
        from: &mut usize,
        numbers: &mut [u32],
        writer: &mut W,
    ) -> Result<bool, Error> {
        match slot {
            Some(branch) => {
                if *from > 0 || !branch.entries.dirty {
                    let below = &mut branch.entries;
                    return flush_entries(below, entries, entries, from, numbers, writer);
                }
                write_branch(branch, numbers, writer)?;
                Ok(true)
            }
            None => Ok(false),
        }
    }
}
