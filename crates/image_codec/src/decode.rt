//! A node is read from a block.
ghost use Rattle.std.specs.Prelude.{◌≡◌, ◌≤◌, ◌<◌, ◌-◌, ◌+◌, ◌*◌, ◌%◌, ◌^◌, ◌++◌, ◌↔◌, ℕ, length, replicate, IsTrue, All, IfOk, IfSome, IfNone};
ghost use Rattle.geometry.specs.Shape.{block_bytes, inode_head};
ghost use Rattle.geometry.specs.declared.kind.Kind.{Kind as KindValue};
ghost use Rattle.image.specs.Node.{Spells, numbers};
ghost use Rattle.image.specs.Reading.{read_node};
ghost use Rattle.image.specs.View.{node_view, node_or_none};
ghost use Rattle.image_codec.specs.Parts.{IsDecoded, SpellsNone, SpellsNoHead, SpellsNoTail, head_of, tail_of};

use crate::kind::kind_of;
use byteorder::{ByteOrder, LittleEndian};
use geometry::{Class, Kind, Shape};
use image::Node;
use std::alloc::{AllocError, Global};

// The bytes at the end of each node's block.
const TAIL_BYTES: usize = 24;

// What stands in them: which node it is.
#[derive(Clone, Copy)]
struct Tail {
    nid: u32,
    inode: u32,
    class: u32,
}

// What an inode says of its file.
#[derive(Clone, Copy)]
struct Head {
    length: u32,
    kind: Kind,
}

/// The node that a block spells. None where no node does, so any stated zero that is another byte, a kind or a class
/// that there is not, a number of 0 and a block of another length all give None. Answers AllocError where memory was
/// refused, and no other error.
pub fn decode_node(alloc: Global, shape: Shape, block: &[u8]) -> Result<Option<Node>, AllocError>
    ensures node { IfOk result (λ found. IfSome found (λ node. Spells shape block.now (node_view node))) }
    ensures none { IfOk result (λ found. IfNone found (SpellsNone shape block.now)) }
    // What is answered is the node that a reader of an image finds in this block.
    ensures read { IfOk result (λ found. node_or_none found ≡ read_node shape block.now) }
{
    if block.len() != shape.block_bytes() as usize {
        return Ok(None);
    }
    let (front, tail) = block.split_at(block.len() - TAIL_BYTES);
    match read_tail(tail) {
        Some(tail) => decode_front(alloc, shape, tail, front),
        None => Ok(None),
    }
}

// The node of this tail, by what stands before it.
fn decode_front(
    alloc: Global,
    shape: Shape,
    tail: Tail,
    front: &[u8],
) -> Result<Option<Node>, AllocError>
    requires numbers { (1 ≤ tail.nid) × (1 ≤ tail.inode) }
    requires len { length front.now + 24 ≡ block_bytes shape }
    ensures { IfOk result (IsDecoded shape (front.now ++ tail_of tail.nid tail.inode tail.class)) }
{
    match tail.class {
        0 => decode_inode(alloc, shape, tail, front),
        1 => Ok(Some(Node {
            nid: tail.nid,
            inode: tail.inode,
            class: Class::Direct,
            length: 0,
            kind: Kind::File,
            addresses: read_numbers(alloc, front)?,
            children: Vec::new(alloc),
        })),
        2 => Ok(Some(Node {
            nid: tail.nid,
            inode: tail.inode,
            class: Class::Indirect,
            length: 0,
            kind: Kind::File,
            addresses: Vec::new(alloc),
            children: read_numbers(alloc, front)?,
        })),
        _ => Ok(None),
    }
}

fn decode_inode(
    alloc: Global,
    shape: Shape,
    tail: Tail,
    front: &[u8],
) -> Result<Option<Node>, AllocError>
    requires numbers { (1 ≤ tail.nid) × (1 ≤ tail.inode) }
    requires class { tail.class ≡ 0 }
    requires len { length front.now + 24 ≡ block_bytes shape }
    ensures { IfOk result (IsDecoded shape (front.now ++ tail_of tail.nid tail.inode tail.class)) }
{
    let (head, entries) = front.split_at(shape.inode_head() as usize);
    let Some(head) = read_head(head) else {
        return Ok(None);
    };
    let (addresses, children) = entries.split_at(4 * shape.inode_entries() as usize);
    Ok(Some(Node {
        nid: tail.nid,
        inode: tail.inode,
        class: Class::Inode,
        length: head.length,
        kind: head.kind,
        addresses: read_numbers(alloc, addresses)?,
        children: read_numbers(alloc, children)?,
    }))
}

fn read_head(bytes: &[u8]) -> Option<Head>
    requires { 5 ≤ length bytes.now }
    ensures head { IfSome result (λ head. bytes.now ≡ head_of (length bytes.now) head.length head.kind) }
    ensures none { IfNone result (SpellsNoHead bytes.now) }
{
    let kind = kind_of(bytes[4])?;
    if !is_zero(&bytes[5..]) {
        return None;
    }
    Some(Head {
        length: LittleEndian::read_u32(bytes),
        kind,
    })
}

fn read_tail(bytes: &[u8]) -> Option<Tail>
    requires { length bytes.now ≡ 24 }
    ensures numbers { IfSome result (λ tail. (1 ≤ tail.nid) × (1 ≤ tail.inode)) }
    ensures tail { IfSome result (λ tail. bytes.now ≡ tail_of tail.nid tail.inode tail.class) }
    ensures none { IfNone result (SpellsNoTail bytes.now) }
{
    let mut numbers = [0; 3];
    LittleEndian::read_u32_into(&bytes[..12], &mut numbers);
    let [nid, inode, class] = numbers;
    if nid == 0 || inode == 0 || !is_zero(&bytes[12..]) {
        return None;
    }
    Some(Tail { nid, inode, class })
}

fn is_zero(bytes: &[u8]) -> bool
    ensures { IsTrue result ↔ (bytes.now ≡ replicate (length bytes.now) 0) }
{
    bytes.iter().all(|byte| *byte == 0)
}

// The numbers that these bytes spell, four bytes each.
fn read_numbers(alloc: Global, bytes: &[u8]) -> Result<Vec<u32>, AllocError>
    requires { length bytes.now % 4 ≡ 0 }
    ensures bytes { IfOk result (λ xs. numbers xs.items ≡ bytes.now) }
    ensures fit { IfOk result (λ xs. All (λ x. x < 2 ^ 32) xs.items) }
{
    let mut xs = vec![in alloc; 0; bytes.len() / 4]?;
    LittleEndian::read_u32_into(bytes, &mut xs);
    Ok(xs)
}
