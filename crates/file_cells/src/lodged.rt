//! A call works on a file whose tickets and tokens are lodged in its account: it has them in hand meanwhile, and lodges them
//! again.
ghost use Rattle.std.specs.Prelude.{◌≡◌, ◌<◌, Some, length, OnOk, OnErr, IfErr};
ghost use Rattle.geometry.specs.Refusals.{IsOfPut};
ghost use Rattle.geometry.specs.File.{written, cut_to, erased};
ghost use Rattle.geometry.specs.Path.{largest_length};
ghost use Rattle.geometry.specs.Shape.{block_bytes};
ghost use Rattle.rights_books.specs.Contents.{as_content};
ghost use Rattle.nodes.specs.File.{IsFile, file_of};
ghost use Rattle.rights_permits.specs.Turns.{at_home};
ghost use Rattle.file_cells.specs.Cell.{IsLodged};

use crate::marks::{Marks, direct_node};
use crate::{NewBlock, cut_blocks, erase_blocks, give_up, write_block};
use area::MainArea;
use device::Block;
use geometry::{Error, Kind, Shape};
use nodes::FileState;
use rights_books::{Books, CallAccount, FileAccount, Noted, PassAccount};
use rights_permits::VolumeName;
use std::alloc::Global;
use std::sync::Wait;

// Counts the marked nodes of a file anew.
pub(crate) fn recount<V: VolumeName, B: Block + Drop>(
    area: &MainArea<V, B>,
    kind: Kind,
    marks: &mut Marks,
    after: Marks,
) {
    area.recount(kind, marks.nodes(), after.nodes());
    *marks = after;
}

// The same, but where a call was done.
pub(crate) fn recount_unless<V: VolumeName, B: Block + Drop>(
    is_done: bool,
    area: &MainArea<V, B>,
    kind: Kind,
    marks: &mut Marks,
    before: Marks,
) {
    if !is_done {
        recount(area, kind, marks, before);
    }
}

// Whether a node may be missing on the way to an index: no block stands there, nor one place before it in the same node.
fn may_lack_path<B: Block>(file: &FileState<B>, shape: Shape, index: u32) -> bool
    requires file { IsFile file.now }
    requires inside { index < largest_length file.now.shape }
{
    if file.slot(index) != 0 {
        return false;
    }
    if index == 0 {
        return true;
    }
    direct_node(shape, index - 1) != direct_node(shape, index) || file.slot(index - 1) == 0
}

// Writes a block of a file, as `write_block` does. Its nodes are counted before, and no more where it is refused.
pub(crate) fn write_lodged<V: VolumeName, B: Block + Drop, R: Wait>(
    rt: &R,
    alloc: Global,
    area: &MainArea<V, B>,
    hand: &mut CallAccount,
    account: &mut FileAccount,
    file: &mut FileState<B>,
    marks: &mut Marks,
    block: &NewBlock<'_>,
) -> Result<(), Error>
    requires hand { hand.old ≡ at_home V.Books.books.book }
    requires book { account.old.book ≡ V.Books.books.book }
    requires inside { block.now.index < largest_length V.Numbers.geometry.shape }
    requires bytes { length block.now.bytes.now ≡ block_bytes V.Numbers.geometry.shape }
    requires lodged { IsLodged V.Numbers.geometry account.old file.old }
    ensures lodged { IsLodged V.Numbers.geometry account.new file.new }
    ensures number { file.new.token.number ≡ file.old.token.number }
    ensures account { (account.new.book ≡ account.old.book) × (account.new.inode ≡ account.old.inode) × (account.new.content ≡ account.old.content) }
    ensures hand { hand.new ≡ hand.old }
    ensures file { OnOk result (file_of file.new ≡ written (file_of file.old) block.now.index block.now.bytes.now) }
    ensures err { OnErr result (file.new ≡ file.old) }
    ensures error { IfErr result IsOfPut }
{
    let before = *marks;
    let length = file.length().max(block.index.saturating_add(1));
    let shape = area.geometry().shape;
    let is_new = before.moves_on(shape, block.index) && may_lack_path(file, shape, block.index);
    let after = before.after_write(shape, block.index, length, is_new);
    recount(area, file.kind(), marks, after);
    area.books().unlodge_all(account, hand);
    let done = write_block(rt, alloc, area, hand, file, block);
    area.books().lodge_all(account, hand);
    recount_unless(done.is_ok(), area, file.kind(), marks, before);
    done
}

// Cuts a file, as `cut_blocks` does.
pub(crate) fn cut_lodged<V: VolumeName, B: Block + Drop, R: Wait>(
    rt: &R,
    area: &MainArea<V, B>,
    hand: &mut CallAccount,
    account: &mut FileAccount,
    file: &mut FileState<B>,
    marks: &mut Marks,
    length: u32,
)
    requires hand { hand.old ≡ at_home V.Books.books.book }
    requires book { account.old.book ≡ V.Books.books.book }
    requires lodged { IsLodged V.Numbers.geometry account.old file.old }
    ensures lodged { IsLodged V.Numbers.geometry account.new file.new }
    ensures number { file.new.token.number ≡ file.old.token.number }
    ensures account { (account.new.book ≡ account.old.book) × (account.new.inode ≡ account.old.inode) × (account.new.content ≡ account.old.content) }
    ensures hand { hand.new ≡ hand.old }
    ensures file { file_of file.new ≡ cut_to (file_of file.old) length }
{
    let after = marks.after_cut(area.geometry().shape, file.length());
    recount(area, file.kind(), marks, after);
    area.books().unlodge_all(account, hand);
    cut_blocks(rt, area, hand, file, length);
    area.books().lodge_all(account, hand);
}

// Gives back blocks of a file, as `erase_blocks` does.
pub(crate) fn erase_lodged<V: VolumeName, B: Block + Drop, R: Wait>(
    rt: &R,
    area: &MainArea<V, B>,
    hand: &mut CallAccount,
    account: &mut FileAccount,
    file: &mut FileState<B>,
    marks: &mut Marks,
    from: u32,
    to: u32,
)
    requires hand { hand.old ≡ at_home V.Books.books.book }
    requires book { account.old.book ≡ V.Books.books.book }
    requires lodged { IsLodged V.Numbers.geometry account.old file.old }
    ensures lodged { IsLodged V.Numbers.geometry account.new file.new }
    ensures number { file.new.token.number ≡ file.old.token.number }
    ensures account { (account.new.book ≡ account.old.book) × (account.new.inode ≡ account.old.inode) × (account.new.content ≡ account.old.content) }
    ensures hand { hand.new ≡ hand.old }
    ensures file { file_of file.new ≡ erased (file_of file.old) from to }
{
    let after = marks.after_erase(area.geometry().shape, file.length());
    recount(area, file.kind(), marks, after);
    area.books().unlodge_all(account, hand);
    erase_blocks(rt, area, hand, file, from, to);
    area.books().lodge_all(account, hand);
}

// Notes in the account and in the pass what the file is.
pub(crate) fn note_file<B: Block, N: Noted>(
    books: &Books,
    account: &mut FileAccount,
    pass: &mut PassAccount,
    file: &FileState<B>,
)
    requires books { (account.old.book ≡ books.now.book) × (pass.old.book ≡ books.now.book) }
    requires inode { account.old.inode ≡ pass.old.inode }
    requires noted { N.content ≡ as_content (file_of file.now) }
    ensures account { account.new ≡ record account.old { content = Some (as_content (file_of file.now)) } }
    ensures pass { pass.new ≡ record pass.old { content = as_content (file_of file.now) } }
{
    let _ = file;
    books.note::<N>(account, pass);
}
