//! Nodes out of blocks.
ghost use Rattle.std.specs.Prelude.{◌≡◌, ◌<◌, ◌≤◌, ℕ, None, Some, length, map, slice_index_or, IfOk, IfErr, IfSome};
ghost use Rattle.geometry.specs.Refusals.{IsOfRead};
ghost use Rattle.device.specs.Parts.{IsBlockRun};
ghost use Rattle.geometry.specs.declared.error.Error.TheVariants.{Device};
ghost use Rattle.geometry.specs.Shape.{block_bytes};
ghost use Rattle.image.specs.declared.image.Node.{Node as Noded};
ghost use Rattle.image.specs.Image.{no_entry};
ghost use Rattle.image.specs.Node.{Spells};
ghost use Rattle.image.specs.Reading.{node_at as node_of_address, read_nodes as nodes_of_table};
ghost use Rattle.image.specs.View.{node_view, node_or_none};
ghost use Rattle.image_codec.specs.Blocks.{bytes_at};
ghost use Rattle.geometry.specs.Weights.{weigh};

use crate::decode_node;
use device::Block;
use geometry::{Error, Shape};
use image::{Node, NodeEntry};
use std::alloc::Global;

// The node in the block at an address, by a buffer of a block's bytes. None where the address is 0, and where no node stands.
fn node_at<B: Block>(
    alloc: Global,
    shape: Shape,
    blocks: &mut Vec<B>,
    buffer: &mut [u8],
    address: u32,
) -> Result<Option<Node>, Error>
    requires run { IsBlockRun B.address_of B.content_of (block_bytes shape) 1 blocks.old.items }
    requires buffer { length buffer.old ≡ block_bytes shape }
    ensures node { IfOk result (λ found. node_or_none found ≡ node_of_address shape (bytes_at B.content_of blocks.old.items) address) }
    ensures spelled { IfOk result (λ found. IfSome found (λ node. Spells shape (bytes_at B.content_of blocks.old.items address) (node_view node))) }
    ensures errors { IfErr result IsOfRead }
    ensures device { IfErr result (λ e. e ≡ Device → weigh B.failed blocks.old.items < weigh B.failed blocks.new.items) }
    ensures failures { weigh B.failed blocks.old.items ≤ weigh B.failed blocks.new.items }
    ensures run { IsBlockRun B.address_of B.content_of (block_bytes shape) 1 blocks.new.items }
    ensures contents { map B.content_of blocks.new.items ≡ map B.content_of blocks.old.items }
    ensures buffer { length buffer.new ≡ length buffer.old }
{
    if address == 0 {
        return Ok(None);
    }
    if address as usize > blocks.len() {
        return Ok(decode_node(alloc, shape, &[])?);
    }
    blocks[address as usize - 1].read(buffer)?;
    Ok(decode_node(alloc, shape, buffer)?)
}

/// The nodes that a node address table names in the blocks of a device, whose addresses are 1 and on; a block that spells no
/// node holds none. The blocks stay as they are.
///
/// Answers Device where a block failed, which counted it, and NoMemory where a growth was refused.
pub fn read_nodes<B: Block>(
    alloc: Global,
    shape: Shape,
    nat: &[NodeEntry],
    blocks: &mut Vec<B>,
) -> Result<Vec<Option<Node>>, Error>
    requires { IsBlockRun B.address_of B.content_of (block_bytes shape) 1 blocks.old.items }
    ensures nodes { IfOk result (λ nodes. map node_or_none nodes.items ≡ nodes_of_table shape (bytes_at B.content_of blocks.old.items) nat.now) }
    ensures spelled { IfOk result (λ nodes. (k : ℕ) (node : Noded) → slice_index_or nodes.items k None ≡ Some node
        → Spells shape (bytes_at B.content_of blocks.old.items (slice_index_or nat.now k no_entry).address) (node_view node)) }
    ensures errors { IfErr result IsOfRead }
    ensures device { IfErr result (λ e. e ≡ Device → weigh B.failed blocks.old.items < weigh B.failed blocks.new.items) }
    ensures failures { weigh B.failed blocks.old.items ≤ weigh B.failed blocks.new.items }
    ensures run { IsBlockRun B.address_of B.content_of (block_bytes shape) 1 blocks.new.items }
    ensures contents { map B.content_of blocks.new.items ≡ map B.content_of blocks.old.items }
{
    let mut buffer = vec![in alloc; 0u8; shape.block_bytes() as usize]?;
    let mut nodes = Vec::with_capacity(alloc, nat.len())?;
    for entry in nat {
        let node = node_at(alloc, shape, blocks, buffer.as_mut_slice(), entry.address)?;
        nodes.push_reserved(node);
    }
    Ok(nodes)
}
