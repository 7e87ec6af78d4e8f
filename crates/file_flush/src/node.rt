//! One node is written.
ghost use Rattle.std.specs.Prelude.{◌≡◌, ◌<◌, ◌^◌, All, length, OnOk, OnErr, IfErr};
ghost use Rattle.geometry.specs.Refusals.{IsOfAppend};
ghost use Rattle.geometry.specs.Shape.{block_bytes};
ghost use Rattle.image.specs.Node.{Spells};
ghost use Rattle.nodes_walks.specs.Writing.{marked_node};
ghost use Rattle.nodes_law.specs.Nodes.{node_in};
ghost use Rattle.file_flush.specs.Written.{IsWritable, IsInHand, HasSwapped, IsWrittenTo};

use area::{MainArea, Who, log_for};
use device::Block;
use geometry::{Error, Kind, Owner, Shape};
use image_codec::{LentNode, encode_lent};
use nodes_walks::NodeBlock;
use rights_books::CallAccount;
use rights_permits::VolumeName;
use std::sync::Wait;
use tickets::NidToken;

/// Of which file nodes are written, and when.
#[derive(Clone, Copy)]
pub(crate) struct Source {
    /// The number of its inode.
    pub(crate) inode: u32,
    /// What it holds.
    pub(crate) kind: Kind,
    pub(crate) now: u64,
}

/// Writes the block of a marked node to the log of its class, and moves its token there; the block before it is given back.
/// Answers NoSpace and Device as an append does, and then nothing has changed. `bytes` has the size of a block.
pub(crate) fn write_block<R: Wait, V: VolumeName, B: Block + Drop>(
    rt: &R,
    area: &MainArea<V, B>,
    hand: &mut CallAccount,
    source: Source,
    token: &mut NidToken,
    block: &NodeBlock,
    bytes: &mut [u8],
) -> Result<(), Error>
    requires node { IsWritable V.Numbers.geometry.shape source.inode
        (marked_node token.old block.now.class block.now.kind block.now.length block.now.addresses.now block.now.children.now) }
    requires held { IsInHand V.Numbers.geometry.shape V.Books.books.book hand.old token.old }
    requires room { length bytes.old ≡ block_bytes V.Numbers.geometry.shape }
    ensures written { OnOk result (IsWrittenTo V.Numbers.geometry.shape source.inode
        (marked_node token.old block.now.class block.now.kind block.now.length block.now.addresses.now block.now.children.now) token.new) }
    ensures swapped { OnOk result (HasSwapped hand.old hand.new token.old token.new) }
    ensures number { token.new.number ≡ token.old.number }
    ensures same { OnErr result (token.new ≡ token.old) }
    ensures err { OnErr result (hand.new ≡ hand.old) }
    ensures error { IfErr result IsOfAppend }
    ensures room { length bytes.new ≡ length bytes.old }
{
    spell_node(area.geometry().shape, source.inode, token, block, bytes);
    let log = log_for(source.kind, block.class, false);
    let owner = Owner::Node(token.number());
    let ticket = area.append(rt, hand, log, owner, source.now, bytes, Who::Checkpoint)?;
    if let Some(before) = area.swap_ticket(rt, hand, token, ticket) {
        area.release(rt, hand, before);
    }
    Ok(())
}

// Writes the one spelling of a node over a block's bytes.
fn spell_node(shape: Shape, inode: u32, token: &NidToken, block: &NodeBlock, bytes: &mut [u8])
    requires node { IsWritable shape inode
        (marked_node token.now block.now.class block.now.kind block.now.length block.now.addresses.now block.now.children.now) }
    requires room { length bytes.old ≡ block_bytes shape }
    ensures { Spells shape bytes.new (node_in inode
        (marked_node token.now block.now.class block.now.kind block.now.length block.now.addresses.now block.now.children.now)) }
{
    all_fit(block.addresses);
    all_fit(block.children);
    let node = LentNode {
        nid: token.number(),
        inode,
        class: block.class,
        length: block.length,
        kind: block.kind,
        addresses: block.addresses,
        children: block.children,
    };
    encode_lent(shape, &node, bytes);
}

// Tells the proofs that numbers of 32 bits fit 32 bits.
fn all_fit(numbers: &[u32])
    ensures { All (λ number. number < 2 ^ 32) numbers.now }
{
    let _ = numbers;
}
