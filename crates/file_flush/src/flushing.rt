//! All marked nodes of a file are written.
ghost use Rattle.std.specs.Prelude.{◌≡◌, ◌≤◌, true, false, length, OnOk, OnErr, IfOk, IfErr};
ghost use Rattle.geometry.specs.Refusals.{IsOfAppend};
ghost use Rattle.geometry.specs.Path.{node_entries};
ghost use Rattle.geometry.specs.Shape.{block_bytes};
ghost use Rattle.rights_books.specs.declared.claim.TakenNumber.{TakenNumber};
ghost use Rattle.nodes.specs.Change.{TreeNode, each_marked};
ghost use Rattle.nodes_walks.specs.Writing.{WritesOne};
ghost use Rattle.nodes.specs.File.{IsFile, weight_of, file_of};
ghost use Rattle.nodes.specs.Held.{Others, AreHeldBeside};
ghost use Rattle.nodes.specs.Owners.{HasNumbers};
ghost use Rattle.nodes_law.specs.Law.{FileStateLaw, IsWritten};
ghost use Rattle.file_flush.specs.Written.{HasSwapped, IsWrittenTo};
ghost use Rattle.nodes_walks.specs.Kept.{KeepsFile};
ghost use Rattle.file_flush.specs.Flushed.{CanFlush, HasFlushed};

use crate::buffer::FlushBuffer;
use crate::node::Source;
use crate::writer::AreaWriter;
use area::MainArea;
use device::Block;
use geometry::Error;
use nodes::FileState;
use nodes_walks::flush_next;
use rights_books::CallAccount;
use rights_permits::VolumeName;
use std::sync::Wait;

/// Writes each marked node of a file, parents before what they name, each to the log of its class, and gives back the blocks
/// before them. Then no node is marked, each has a block that spells it, and the file shows what it showed.
///
/// Answers NoSpace where a log has no open segment and none is free, and Device where the device failed: the nodes that were
/// written before stay so, and the file shows what it showed. It takes no memory.
pub fn flush_file<R: Wait, V: VolumeName, B: Block + Drop>(
    rt: &R,
    area: &MainArea<V, B>,
    hand: &mut CallAccount,
    file: &mut FileState<B>,
    now: u64,
    buffer: &mut FlushBuffer,
) -> Result<(), Error>
    requires book { hand.old.book ≡ V.Books.books.book }
    requires buffer { buffer.old.shape ≡ V.Numbers.geometry.shape }
    requires shape { file.old.shape ≡ V.Numbers.geometry.shape }
    requires file { IsFile file.old }
    requires numbered { HasNumbers file.old }
    requires law { FileStateLaw V.Numbers.geometry.files file.old }
    requires held { (others : Others) × AreHeldBeside others file.old hand.old.tickets hand.old.tokens }
    ensures clean { OnOk result (weight_of file.new each_marked ≡ 0) }
    ensures written { OnOk result (IsWritten file.new) }
    ensures flushed { HasFlushed V.Numbers.geometry.files file.old file.new hand.old hand.new }
    ensures same { file_of file.new ≡ file_of file.old }
    ensures held { (others : Others) → AreHeldBeside others file.old hand.old.tickets hand.old.tokens
        → AreHeldBeside others file.new hand.new.tickets hand.new.tokens }
    ensures error { IfErr result IsOfAppend }
    ensures buffer { buffer.new.shape ≡ buffer.old.shape }
{
    let numbers = buffer.numbers.as_mut_slice();
    let bytes = buffer.bytes.as_mut_slice();
    flush_all(rt, area, hand, file, now, numbers, bytes)
}

// The same with room for the entries of a node and for a block.
fn flush_all<R: Wait, V: VolumeName, B: Block + Drop>(
    rt: &R,
    area: &MainArea<V, B>,
    hand: &mut CallAccount,
    file: &mut FileState<B>,
    now: u64,
    numbers: &mut [u32],
    bytes: &mut [u8],
) -> Result<(), Error>
    requires room { node_entries V.Numbers.geometry.shape ≤ length numbers.old }
    requires block { length bytes.old ≡ block_bytes V.Numbers.geometry.shape }
    requires file { CanFlush V.Numbers.geometry V.Books.books.book file.old hand.old }
    ensures clean { OnOk result (weight_of file.new each_marked ≡ 0) }
    ensures flushed { HasFlushed V.Numbers.geometry.files file.old file.new hand.old hand.new }
    ensures error { IfErr result IsOfAppend }
{
    // One walk writes them all. The next begins at the front, and so tells that none is left: it looks at the inode and at its entries alone.
    let mut from = 0;
    'walk: while flush_node(rt, area, hand, file, now, &mut from, numbers, bytes)? {}
    let mut front = 0;
    'marked: while flush_node(rt, area, hand, file, now, &mut front, numbers, bytes)? {
        front = 0;
    }
    Ok(())
}

// Writes the first marked node of a file that begins at or past an index. Answers whether there was one, and then where it begins.
fn flush_node<R: Wait, V: VolumeName, B: Block + Drop>(
    rt: &R,
    area: &MainArea<V, B>,
    hand: &mut CallAccount,
    file: &mut FileState<B>,
    now: u64,
    from: &mut usize,
    numbers: &mut [u32],
    bytes: &mut [u8],
) -> Result<bool, Error>
    requires room { node_entries V.Numbers.geometry.shape ≤ length numbers.old }
    requires block { length bytes.old ≡ block_bytes V.Numbers.geometry.shape }
    requires file { CanFlush V.Numbers.geometry V.Books.books.book file.old hand.old }
    ensures one { IfOk result (λ found. found ≡ true → (n : TreeNode) × (token : TakenNumber) × WritesOne (weight_of file.old) (weight_of file.new) n token
        × HasSwapped hand.old hand.new n.token token × IsWrittenTo file.old.shape file.old.token.number n token) }
    ensures none { IfOk result (λ found. found ≡ false → (from.old ≡ 0 → weight_of file.old each_marked ≡ 0) × (file.new ≡ file.old) × (hand.new ≡ hand.old)) }
    ensures refused { OnErr result ((file.new ≡ file.old) × (hand.new ≡ hand.old)) }
    ensures error { IfErr result IsOfAppend }
    ensures kept { KeepsFile file.old file.new }
{
    let source = Source {
        inode: file.number(),
        kind: file.kind(),
        now,
    };
    let mut writer = AreaWriter {
        rt,
        area,
        hand,
        source,
        bytes,
    };
    let found = flush_next(file, from, numbers, &mut writer);
    let AreaWriter {
        rt: _,
        area: _,
        hand: _,
        source: _,
        bytes: _,
    } = writer;
    found
}
