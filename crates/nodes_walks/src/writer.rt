//! Who writes the block of a node.
ghost use Rattle.std.specs.Prelude.{◌≡◌, OnOk, OnErr, IfErr};
ghost use Rattle.rights_books.specs.declared.claim.TakenNumber.{TakenNumber};
ghost use Rattle.geometry.specs.declared.error.Error.{Error as Reason};
ghost use Rattle.nodes.specs.Change.{TreeNode};
ghost use Rattle.nodes_walks.specs.Writing.{marked_node};

use geometry::{Class, Error, Kind};
use tickets::NidToken;

/// What a node's block is to spell, beside its number and that of its inode.
#[derive(Clone, Copy)]
pub struct NodeBlock<'a> {
    pub class: Class,
    /// What the file holds; an ordinary file but in an inode.
    pub kind: Kind,
    /// The file's blocks; 0 but in an inode.
    pub length: u32,
    /// The addresses of data blocks, of an inode and of a direct node.
    pub addresses: &'a [u32],
    /// The numbers of nodes, of an inode and of an indirect node.
    pub children: &'a [u32],
}

/// Who writes the block of a marked node, and moves its token there.
///
/// To contracts `ready` is what a writer asks of a node, `wrote` what an Ok says of the node, its token after it and the
/// writer before and after, and `refused` what an error says.
pub trait NodeWriter {
    ghost ready: { Self → TreeNode → Type 0 };

    ghost wrote: { Self → TreeNode → TakenNumber → Self → Type 0 };

    ghost refused: { Self → TreeNode → Reason → Self → Type 0 };

    /// Writes the block of a node whose token is lent. An error leaves the token as it was.
    fn write_node(&mut self, token: &mut NidToken, block: &NodeBlock) -> Result<(), Error>
        requires { ready self.old (marked_node token.old block.now.class block.now.kind block.now.length block.now.addresses.now block.now.children.now) }
        ensures wrote { OnOk result (wrote self.old
            (marked_node token.old block.now.class block.now.kind block.now.length block.now.addresses.now block.now.children.now) token.new self.new) }
        ensures refused { IfErr result (λ e. refused self.old
            (marked_node token.old block.now.class block.now.kind block.now.length block.now.addresses.now block.now.children.now) e self.new) }
        ensures number { token.new.number ≡ token.old.number }
        ensures same { OnErr result (token.new ≡ token.old) };
}
