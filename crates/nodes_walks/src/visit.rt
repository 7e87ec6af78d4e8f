//! The node of a number in a whole file.
ghost use Rattle.std.specs.Prelude.{Bool, ℕ, ◌≡◌, true, false, OnOk, OnErr, IfOk, IfErr};
ghost use Rattle.rights_books.specs.declared.claim.TakenNumber.{TakenNumber};
ghost use Rattle.nodes.specs.Change.{TreeNode};
ghost use Rattle.nodes_walks.specs.Writing.{IsAmong};
ghost use Rattle.nodes_walks.specs.Moving.{MovesOne, each_numbered};
ghost use Rattle.nodes.specs.File.{IsFile, inode_of, below_weight, weight_of};
ghost use Rattle.nodes_walks.specs.Kept.{KeepsFile};

use crate::{NodeVisitor, visit_in};
use device::Block;
use geometry::{Class, Error};
use nodes::FileState;

/// Lends the token of the file's node of this number to the visitor. Answers whether there is one. All else stays, the
/// node's mark too, and after an error the token does as well; the file is as it was in each case.
pub fn visit_node<B: Block, V: NodeVisitor>(
    file: &mut FileState<B>,
    nid: u32,
    visitor: &mut V,
) -> Result<bool, Error>
    requires file { IsFile file.old }
    requires ready { (n : TreeNode) → n.token.number ≡ nid → IsAmong (weight_of file.old) n → V.ready visitor.old n.token }
    ensures visited { IfOk result (λ found. found ≡ true → (n : TreeNode) × (token : TakenNumber)
        × MovesOne (weight_of file.old) (weight_of file.new) n token × V.visited visitor.old n.token token visitor.new) }
    ensures none { IfOk result (λ found. found ≡ false → (weight_of file.old (each_numbered nid) ≡ 0) × (file.new ≡ file.old) × (visitor.new ≡ visitor.old)) }
    ensures refused { IfErr result (λ e. (file.new ≡ file.old) × (n : TreeNode)
        × IsAmong (weight_of file.old) n × V.refused visitor.old n.token e visitor.new) }
    ensures kept { KeepsFile file.old file.new }
{
    if file.token.number() != nid {
        return visit_below(file, nid, visitor);
    }
    match visit_inode(file, visitor) {
        Ok(()) => Ok(true),
        Err(error) => Err(error),
    }
}

// Lends the token of the inode.
fn visit_inode<B: Block, V: NodeVisitor>(
    file: &mut FileState<B>,
    visitor: &mut V,
) -> Result<(), Error>
    requires ready { V.ready visitor.old file.old.token }
    ensures visited { OnOk result (V.visited visitor.old file.old.token file.new.token visitor.new) }
    ensures refused { IfErr result (λ e. V.refused visitor.old file.old.token e visitor.new) }
    ensures number { file.new.token.number ≡ file.old.token.number }
    ensures same { OnErr result (file.new ≡ file.old) }
    ensures file { file.new ≡ record file.old { token = file.new.token } }
{
    match visitor.visit(Class::Inode, &mut file.token) {
        Ok(()) => Ok(()),
        Err(error) => Err(error),
    }
}

// The walk below the inode.
fn visit_below<B: Block, V: NodeVisitor>(
    file: &mut FileState<B>,
    nid: u32,
    visitor: &mut V,
) -> Result<bool, Error>
    requires file { IsFile file.old }
    requires ready { (n : TreeNode) → n.token.number ≡ nid → IsAmong (below_weight file.old) n → V.ready visitor.old n.token }
    ensures visited { IfOk result (λ found. found ≡ true → (n : TreeNode) × (token : TakenNumber)
        × MovesOne (below_weight file.old) (below_weight file.new) n token × V.visited visitor.old n.token token visitor.new) }
    ensures none { IfOk result (λ found. found ≡ false → (below_weight file.old (each_numbered nid) ≡ 0) × (file.new ≡ file.old) × (visitor.new ≡ visitor.old)) }
    ensures refused { IfErr result (λ e. (file.new ≡ file.old) × (n : TreeNode)
        × IsAmong (below_weight file.old) n × V.refused visitor.old n.token e visitor.new) }
    ensures inode { inode_of file.new ≡ inode_of file.old }
    ensures kept { KeepsFile file.old file.new }
{
    let entries = file.shape.node_entries() as usize;
    if visit_in(&mut file.direct, 2, entries, nid, visitor)? {
        return Ok(true);
    }
    if visit_in(&mut file.indirect, 2, entries, nid, visitor)? {
        return Ok(true);
    }
    visit_in(&mut file.double, 1, entries, nid, visitor)
}
