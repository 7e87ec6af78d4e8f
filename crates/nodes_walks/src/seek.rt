//! What is found below one entry.
ghost use Rattle.std.specs.Prelude.{Bool, ℕ, ◌≡◌, ◌+◌, ◌*◌, ◌%◌, ◌^◌, ◌<◌, true, false, Some, None, IfSome, OnOk, OnErr, IfOk, IfErr};
ghost use Rattle.rights_books.specs.declared.claim.TakenNumber.{TakenNumber};
ghost use Rattle.nodes.specs.Tree.{Same, number_of};
ghost use Rattle.nodes.specs.Change.{TreeNode, each_naming};
ghost use Rattle.nodes_walks.specs.Writing.{IsAmong};
ghost use Rattle.nodes_walks.specs.Moving.{MovesOne, each_numbered};

use crate::seek_entries::{index_in, is_named_at, visit_in};
use crate::visitor::NodeVisitor;
use device::Block;
use geometry::{Class, Error};
use nodes::{Branch, Subtree};
use tickets::Ticket;

/// A tree in which nodes and blocks can be looked for.
pub trait Seek: Subtree {
    /// The index of the block whose address `from` a node of this number has at its entry `at`: that node names the index, by
    /// its entry `at`. None: no such node has it there.
    fn index_of(
        slot: &Option<Self>,
        entries: usize,
        nid: u32,
        at: usize,
        from: u32,
    ) -> Option<usize>
        requires some { 0 < entries }
        requires fits { Self.span_of entries < 2 ^ 64 }
        requires address { 0 < from }
        requires shaped { Self.shaped entries slot.now }
        ensures within { IfSome result (λ index. index < Self.span_of entries) }
        ensures there { IfSome result (λ index. number_of Self.address_of (Self.find entries slot.now index) ≡ from) }
        ensures namer { IfSome result (λ index. Self.namer entries slot.now index ≡ Some nid) }
        ensures entry { IfSome result (λ index. (before : ℕ) → (before * Self.span_of entries + index) % entries ≡ at) }
        ensures elsewhere { result ≡ None → Self.weight (each_naming nid at from) slot.now ≡ 0 };

    /// Lends the token of the node of this number to the visitor. Answers whether there is one. All else stays, and after
    /// an error the token does too.
    fn visit_node<V: NodeVisitor>(
        slot: &mut Option<Self>,
        entries: usize,
        nid: u32,
        visitor: &mut V,
    ) -> Result<bool, Error>
        requires shaped { Self.shaped entries slot.old }
        requires ready { (n : TreeNode) → n.token.number ≡ nid → IsAmong (λ w. Self.weight w slot.old) n → V.ready visitor.old n.token }
        ensures visited { IfOk result (λ found. found ≡ true → (n : TreeNode) × (token : TakenNumber)
            × MovesOne (λ w. Self.weight w slot.old) (λ w. Self.weight w slot.new) n token × V.visited visitor.old n.token token visitor.new) }
        ensures none { IfOk result (λ found. found ≡ false → (Self.weight (each_numbered nid) slot.old ≡ 0) × (slot.new ≡ slot.old) × (visitor.new ≡ visitor.old)) }
        ensures refused { IfErr result (λ e. (slot.new ≡ slot.old) × (n : TreeNode)
            × IsAmong (λ w. Self.weight w slot.old) n × V.refused visitor.old n.token e visitor.new) }
        ensures same { Same (Self.find entries slot.old) (Self.find entries slot.new) }
        ensures namer { Same (Self.namer entries slot.old) (Self.namer entries slot.new) }
        ensures there { slot.new ≡ None → slot.old ≡ None }
        ensures useful { (asked : ℕ → ℕ → Bool) (first : ℕ) → Self.useful entries asked first slot.old → Self.useful entries asked first slot.new }
        ensures shaped { Self.shaped entries slot.new }
        ensures number { Self.number slot.new ≡ Self.number slot.old };
}

impl<B: Block> Seek for Ticket<B> {
    fn index_of(
        _slot: &Option<Ticket<B>>,
        _entries: usize,
        _nid: u32,
        _at: usize,
        _from: u32,
    ) -> Option<usize> {
        None
    }

    fn visit_node<V: NodeVisitor>(
        _slot: &mut Option<Ticket<B>>,
        _entries: usize,
        _nid: u32,
        _visitor: &mut V,
    ) -> Result<bool, Error> {
        Ok(false)
    }
}

impl<C: Seek> Seek for Branch<C> {
    fn index_of(
        slot: &Option<Branch<C>>,
        entries: usize,
        nid: u32,
        at: usize,
        from: u32,
    ) -> Option<usize> {
        match slot {
            Some(branch) => {
                if !C::is_leaf() {
                    return index_in(&branch.entries, entries, entries, nid, at, from);
                }
                if branch.token.number() != nid {
                    return None;
                }
                if is_named_at(&branch.entries, at, from) {
                    return Some(at);
                }
                None
            }
            None => None,
        }
    }

    fn visit_node<V: NodeVisitor>(
        slot: &mut Option<Branch<C>>,
        entries: usize,
        nid: u32,
        visitor: &mut V,
    ) -> Result<bool, Error> {
        match slot {
            Some(branch) => {
                if branch.token.number() != nid {
                    return visit_in(&mut branch.entries, entries, entries, nid, visitor);
                }
                match visit_branch(branch, visitor) {
                    Ok(()) => Ok(true),
                    Err(error) => Err(error),
                }
            }
            None => Ok(false),
        }
    }
}

// Lends the token of a node.
fn visit_branch<C: Subtree, V: NodeVisitor>(
    branch: &mut Branch<C>,
    visitor: &mut V,
) -> Result<(), Error>
    requires { V.ready visitor.old branch.old.token }
    ensures visited { OnOk result (V.visited visitor.old branch.old.token branch.new.token visitor.new) }
    ensures refused { IfErr result (λ e. V.refused visitor.old branch.old.token e visitor.new) }
    ensures number { branch.new.token.number ≡ branch.old.token.number }
    ensures same { OnErr result (branch.new ≡ branch.old) }
    ensures entries { branch.new.entries ≡ branch.old.entries }
{
    let class = if C::is_leaf() {
        Class::Direct
    } else {
        Class::Indirect
    };
    match visitor.visit(class, &mut branch.token) {
        Ok(()) => Ok(()),
        Err(error) => Err(error),
    }
}
