//! One block of a file is written.
ghost use Rattle.std.specs.Prelude.{◌≡◌, ◌<◌, ◌∷◌, ℕ, Some, length, OnOk, OnErr, IfErr};
ghost use Rattle.geometry.specs.Refusals.{IsOfAppend, IsOfPut};
ghost use Rattle.geometry.specs.File.{written};
ghost use Rattle.geometry.specs.Path.{path, largest_length};
ghost use Rattle.geometry.specs.Owner.{IsOwner};
ghost use Rattle.geometry.specs.Shape.{block_bytes};
ghost use Rattle.rights_books.specs.Accounts.{HandView};
ghost use Rattle.nodes.specs.File.{file_of, missing_to};
ghost use Rattle.nodes.specs.Held.{Others};
ghost use Rattle.nodes.specs.Lacking.{lacking_to};
ghost use Rattle.nodes.specs.Owners.{owner_at};
ghost use Rattle.nodes.specs.Useful.{IsUseful, each_node, is_off};
ghost use Rattle.nodes_law.specs.Law.{FileStateLaw};
ghost use Rattle.nodes_law.specs.Contents.{IsStored, InHand, Serves};
ghost use Rattle.file_cells.specs.Beside.{CanWriteBeside, ServesBeside, HasLawBeside};

use crate::path::{give_back, plant_path, prepare_path};
use area::{MainArea, Who, log_for};
use device::Block;
use geometry::{Class, Error, Owner};
use nodes::{FileState, SparePath};
use rights_books::CallAccount;
use rights_permits::VolumeName;
use std::alloc::Global;
use std::sync::Wait;
use tickets::Ticket;

/// What a write puts in a file: the bytes of one block, at which index, and the time of the write.
#[derive(Clone, Copy)]
pub struct NewBlock<'a> {
    pub index: u32,
    pub bytes: &'a [u8],
    pub time: u64,
}

/// Writes a block of a file at an index below the largest length: the bytes are appended to the log for data of the file's
/// kind, and the block that stood there is given back. The nodes on the way are made before that, beside the file.
///
/// Answers NoNode where a node is missing on the way and no number is free for it, NoMemory where a growth was refused,
/// NoSpace where the log has no open segment and no segment is free, and Device where the device failed. After each of them
/// the file, its nodes and their marks are as they were, and the numbers that were taken are given back.
pub fn write_block<V: VolumeName, B: Block + Drop, R: Wait>(
    rt: &R,
    alloc: Global,
    area: &MainArea<V, B>,
    hand: &mut CallAccount,
    file: &mut FileState<B>,
    block: &NewBlock<'_>,
) -> Result<(), Error>
    requires book { hand.old.book ≡ V.Books.books.book }
    requires shape { file.old.shape ≡ V.Numbers.geometry.shape }
    requires inside { block.now.index < largest_length file.old.shape }
    requires bytes { length block.now.bytes.now ≡ block_bytes file.old.shape }
    requires stored { IsStored file.old }
    requires law { FileStateLaw V.Numbers.geometry.files file.old }
    requires held { (others : Others) × InHand others file.old hand.old }
    ensures serves { Serves file.old file.new hand.old hand.new }
    ensures law { FileStateLaw V.Numbers.geometry.files file.new }
    ensures file { OnOk result (file_of file.new ≡ written (file_of file.old) block.now.index block.now.bytes.now) }
    ensures useful { IsUseful each_node file.old → IsUseful each_node file.new }
    ensures err { OnErr result (file.new ≡ file.old) }
    ensures error { IfErr result IsOfPut }
{
    if let Some(owner) = file.owner(block.index) {
        return append_over(rt, area, hand, file, owner, block);
    }
    let mut spares = SparePath::new();
    let done = write_with(rt, alloc, area, hand, file, &mut spares, block);
    give_back(rt, area, hand, spares);
    done
}

// The same, where what is left of the spare nodes is still to be given back.
fn write_with<V: VolumeName, B: Block + Drop, R: Wait>(
    rt: &R,
    alloc: Global,
    area: &MainArea<V, B>,
    hand: &mut CallAccount,
    file: &mut FileState<B>,
    spares: &mut SparePath<B>,
    block: &NewBlock<'_>,
) -> Result<(), Error>
    requires file { CanWriteBeside V.Numbers.geometry V.Books.books.book block.now.index file.old spares.old hand.old block.now.bytes.now }
    ensures serves { ServesBeside file.old file.new spares.old spares.new hand.old hand.new }
    ensures law { HasLawBeside V.Numbers.geometry.files file.new spares.new }
    ensures file { OnOk result (file_of file.new ≡ written (file_of file.old) block.now.index block.now.bytes.now) }
    ensures useful { IsUseful each_node file.old → IsUseful each_node file.new }
    ensures err { OnErr result (file.new ≡ file.old) }
    ensures error { IfErr result IsOfPut }
{
    prepare_path(rt, alloc, area, hand, file, spares, block.index)?;
    append_at(rt, area, hand, file, spares, block)
}

// Appends a block, puts the spare nodes and its ticket in the file, and gives back the ticket that stood there.
fn append_at<V: VolumeName, B: Block + Drop, R: Wait>(
    rt: &R,
    area: &MainArea<V, B>,
    hand: &mut CallAccount,
    file: &mut FileState<B>,
    spares: &mut SparePath<B>,
    block: &NewBlock<'_>,
) -> Result<(), Error>
    requires file { CanWriteBeside V.Numbers.geometry V.Books.books.book block.now.index file.old spares.old hand.old block.now.bytes.now }
    requires ready { lacking_to file.old block.now.index spares.old ≡ 0 }
    ensures serves { ServesBeside file.old file.new spares.old spares.new hand.old hand.new }
    ensures law { HasLawBeside V.Numbers.geometry.files file.new spares.new }
    ensures file { OnOk result (file_of file.new ≡ written (file_of file.old) block.now.index block.now.bytes.now) }
    ensures useful { IsUseful each_node file.old → IsUseful each_node file.new }
    ensures err { OnErr result (file.new ≡ file.old) }
    ensures error { IfErr result IsOfAppend }
{
    let owner = file.owner_with(block.index, spares);
    let log = log_for(file.kind(), Class::Data, false);
    let ticket = area.append(rt, hand, log, owner, block.time, block.bytes, Who::Ordinary)?;
    plant_path(file, spares, block.index);
    put_ticket(rt, area, hand, file, block.index, ticket);
    Ok(())
}

// The same where each node on the way is there, so that no spare nodes are wanted.
fn append_over<V: VolumeName, B: Block + Drop, R: Wait>(
    rt: &R,
    area: &MainArea<V, B>,
    hand: &mut CallAccount,
    file: &mut FileState<B>,
    owner: Owner,
    block: &NewBlock<'_>,
) -> Result<(), Error>
    requires book { hand.old.book ≡ V.Books.books.book }
    requires shape { file.old.shape ≡ V.Numbers.geometry.shape }
    requires inside { block.now.index < largest_length file.old.shape }
    requires bytes { length block.now.bytes.now ≡ block_bytes file.old.shape }
    requires stored { IsStored file.old }
    requires owner { IsOwner owner }
    requires names { owner_at file.old (path file.old.shape block.now.index) ≡ Some owner }
    requires held { (others : Others) × InHand others file.old hand.old }
    ensures serves { Serves file.old file.new hand.old hand.new }
    ensures law { (files : ℕ) → FileStateLaw files file.old → FileStateLaw files file.new }
    ensures file { OnOk result (file_of file.new ≡ written (file_of file.old) block.now.index block.now.bytes.now) }
    ensures useful { IsUseful each_node file.old → IsUseful each_node file.new }
    ensures err { OnErr result (file.new ≡ file.old) }
    ensures error { IfErr result IsOfAppend }
{
    let log = log_for(file.kind(), Class::Data, false);
    let ticket = area.append(rt, hand, log, owner, block.time, block.bytes, Who::Ordinary)?;
    put_ticket(rt, area, hand, file, block.index, ticket);
    Ok(())
}

// Puts a ticket that came into the hand in the file, and gives back the one that stood there.
fn put_ticket<V: VolumeName, B: Block + Drop, R: Wait>(
    rt: &R,
    area: &MainArea<V, B>,
    hand: &mut CallAccount,
    file: &mut FileState<B>,
    index: u32,
    ticket: Ticket<B>,
)
    requires book { hand.old.book ≡ V.Books.books.book }
    requires shape { file.old.shape ≡ V.Numbers.geometry.shape }
    requires inside { index < largest_length file.old.shape }
    requires stored { IsStored file.old }
    requires path { missing_to file.old index ≡ 0 }
    requires owner { owner_at file.old (path file.old.shape index) ≡ Some ticket.mark.owner }
    requires bytes { length ticket.content ≡ block_bytes file.old.shape }
    requires address { 0 < ticket.mark.address }
    requires held { (before : HandView) × (others : Others) × (hand.old ≡ record before { tickets = ticket.mark ∷ before.tickets }) × InHand others file.old before }
    ensures serves { (before : HandView) → hand.old ≡ record before { tickets = ticket.mark ∷ before.tickets } → Serves file.old file.new before hand.new }
    ensures law { (files : ℕ) → FileStateLaw files file.old → FileStateLaw files file.new }
    ensures file { file_of file.new ≡ written (file_of file.old) index ticket.content }
    ensures useful { IsUseful (is_off index) file.old → IsUseful each_node file.new }
{
    if let Some(before) = file.put(index, ticket) {
        area.release(rt, hand, before);
    }
}
