//! The nodes that the way to an index lacks, made beside a file.
ghost use Rattle.std.specs.Prelude.{◌≡◌, ℕ, ◌+◌, MatchOption, None};
ghost use Rattle.rights_books.specs.declared.claim.TakenNumber.{TakenNumber};

use crate::{Branch, SpareNodes};
use device::Block;
use tickets::{NidToken, Ticket};

/// Nodes for the way to one index of a file, each with its token: what a write needs is made before it is begun, so that a
/// refused one leaves the file as it was.
///
/// To contracts `spare_tokens` is what their tokens weigh, and `AreEmptyNodes` says that each of them names nothing.
pub struct SparePath<B: Block> {
    /// From the double indirect node down; a way with fewer nodes uses the lower ones.
    pub nodes: SpareNodes<Branch<Branch<Ticket<B>>>>,
}

impl<B: Block> SparePath<B> {
    ghost use Rattle.nodes.specs.Lacking.{spare_tokens, AreEmptyNodes, end_number};

    /// No nodes.
    pub fn new() -> SparePath<B>
        ensures none { (h : TakenNumber → ℕ) → spare_tokens h result ≡ 0 }
        ensures empty { (e : ℕ) → AreEmptyNodes e result }
    {
        let direct = SpareNodes {
            node: None,
            below: (),
        };
        let indirect = SpareNodes {
            node: None,
            below: direct,
        };
        SparePath {
            nodes: SpareNodes {
                node: None,
                below: indirect,
            },
        }
    }

    /// The number of the node whose entries name tickets; 0 where it was not made.
    pub fn end_number(&self) -> u32
        ensures { result ≡ end_number self.now }
    {
        match &self.nodes.below.below.node {
            Some(node) => node.token.number(),
            None => 0,
        }
    }

    /// Hands out the token of one of the nodes. None: there is none.
    pub fn give_back(&mut self) -> Option<NidToken>
        requires empty { (e : ℕ) × AreEmptyNodes e self.old }
        ensures none { MatchOption result ((self.new ≡ self.old) × ((h : TakenNumber → ℕ) → spare_tokens h self.old ≡ 0)) (λ _. Unit {0}) }
        ensures token { MatchOption result (Unit {0}) (λ token. (h : TakenNumber → ℕ) → spare_tokens h self.new + h token ≡ spare_tokens h self.old) }
        ensures empty { (e : ℕ) → AreEmptyNodes e self.old → AreEmptyNodes e self.new }
    {
        if let Some(node) = self.nodes.node.take() {
            return Some(node.into_token());
        }
        if let Some(node) = self.nodes.below.node.take() {
            return Some(node.into_token());
        }
        match self.nodes.below.below.node.take() {
            Some(node) => Some(node.into_token()),
            None => None,
        }
    }

    /// Ends a path of which no node is left.
    pub fn end(self)
        requires { (h : TakenNumber → ℕ) → spare_tokens h self ≡ 0 }
    {
        let SparePath { nodes } = self;
        let SpareNodes { node, below } = nodes;
        end_slot(node);
        let SpareNodes { node, below } = below;
        end_slot(node);
        let SpareNodes { node, below: () } = below;
        end_slot(node);
    }
}

// Ends a slot without a node.
fn end_slot<C>(node: Option<Branch<C>>)
    requires { node ≡ None }
{
    match node {
        None => {}
        Some(_) => unreachable!(),
    }
}
