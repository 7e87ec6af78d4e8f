//! A node is written into a block.
ghost use Rattle.std.specs.Prelude.{◌≡◌, ◌≤◌, ◌++◌, length};
ghost use Rattle.geometry.specs.Shape.{block_bytes};
ghost use Rattle.image.specs.Node.{IsNode, node_bytes};
ghost use Rattle.geometry.specs.Class.{class_code};
ghost use Rattle.image.specs.View.{node_view};
ghost use Rattle.image_codec.specs.Parts.{head_of, tail_of, lent_node};

use crate::kind::kind_code;
use byteorder::{ByteOrder, LittleEndian};
use geometry::{Class, Kind, Shape};
use image::Node;
use image::class::class_code;

/// What a node's block is to spell, its entries lent, where they stand in no `Node`.
#[derive(Clone, Copy)]
pub struct LentNode<'a> {
    pub nid: u32,
    /// The inode number of the node's file.
    pub inode: u32,
    pub class: Class,
    /// The file's blocks; 0 but in an inode.
    pub length: u32,
    /// What the file is; an ordinary one but in an inode.
    pub kind: Kind,
    /// The addresses of data blocks, of an inode and of a direct node.
    pub addresses: &'a [u32],
    /// The numbers of nodes, of an inode and of an indirect node.
    pub children: &'a [u32],
}

/// Writes the one spelling of a node over a block's bytes. It takes no memory.
pub fn encode_node(shape: Shape, node: &Node, out: &mut [u8])
    requires node { IsNode shape (node_view node.now) }
    requires len { length out.old ≡ block_bytes shape }
    ensures { out.new ≡ node_bytes shape (node_view node.now) }
{
    let lent = LentNode {
        nid: node.nid,
        inode: node.inode,
        class: node.class,
        length: node.length,
        kind: node.kind,
        addresses: &node.addresses,
        children: &node.children,
    };
    encode_lent(shape, &lent, out);
}

/// The same of a node whose entries are lent.
pub fn encode_lent(shape: Shape, node: &LentNode, out: &mut [u8])
    requires node { IsNode shape (lent_node node.now.nid node.now.inode node.now.class node.now.length node.now.kind node.now.addresses.now node.now.children.now) }
    requires len { length out.old ≡ block_bytes shape }
    ensures { out.new ≡ node_bytes shape (lent_node node.now.nid node.now.inode node.now.class node.now.length node.now.kind node.now.addresses.now node.now.children.now) }
{
    let head = match node.class {
        Class::Inode => {
            let head = shape.inode_head() as usize;
            write_head(node, &mut out[..head]);
            head
        }
        _ => 0,
    };
    let children = head + 4 * node.addresses.len();
    let tail = children + 4 * node.children.len();
    LittleEndian::write_u32_into(node.addresses, &mut out[head..children]);
    LittleEndian::write_u32_into(node.children, &mut out[children..tail]);
    write_tail(node, &mut out[tail..]);
}

fn write_head(node: &LentNode, out: &mut [u8])
    requires { 5 ≤ length out.old }
    ensures { out.new ≡ head_of (length out.old) node.now.length node.now.kind }
{
    LittleEndian::write_u32(out, node.length);
    out[4] = kind_code(node.kind);
    out[5..].fill(0);
}

fn write_tail(node: &LentNode, out: &mut [u8])
    requires { length out.old ≡ 24 }
    ensures { out.new ≡ tail_of node.now.nid node.now.inode (class_code node.now.class) }
{
    let numbers = [node.nid, node.inode, class_code(node.class)];
    LittleEndian::write_u32_into(&numbers, &mut out[..12]);
    out[12..].fill(0);
}
