//! The marked nodes of the file in a lock are written.
ghost use Rattle.std.specs.Prelude.{◌≡◌, OnOk, IfErr};
ghost use Rattle.geometry.specs.Refusals.{IsOfAppend};
ghost use Rattle.nodes.specs.Change.{each_marked};
ghost use Rattle.nodes.specs.File.{weight_of, file_of};
ghost use Rattle.rights_permits.specs.Turns.{at_home};
ghost use Rattle.file_cells.specs.Cell.{IsLodged};
ghost use Rattle.checkpoint_sync.specs.WrittenFiles.{IsWrittenCell};

use area::MainArea;
use device::Block;
use file_cells::FileCell;
use file_flush::{FlushBuffer, flush_file};
use geometry::Error;
use nodes::FileState;
use rights_books::{CallAccount, FileAccount};
use rights_permits::VolumeName;
use std::sync::Wait;

/// Writes each marked node of the file, as `flush_file` does. What the file is stays, whatever is answered.
///
/// Answers NoSpace where a log has no open segment and none is free, and Device where the device failed: the nodes that were
/// written before stay so.
pub fn flush_cell<V: VolumeName, B: Block + Drop, R: Wait>(
    rt: &R,
    area: &MainArea<V, B>,
    hand: &mut CallAccount,
    cell: &mut FileCell<V, B>,
    now: u64,
    buffer: &mut FlushBuffer,
) -> Result<(), Error>
    requires hand { hand.old ≡ at_home V.Books.books.book }
    requires buffer { buffer.old.shape ≡ V.Numbers.geometry.shape }
    ensures written { OnOk result (IsWrittenCell V.Books.books.book V.Numbers.geometry cell.new) }
    ensures file { cell.new.account.content ≡ cell.old.account.content }
    ensures number { cell.new.number ≡ cell.old.number }
    ensures hand { hand.new ≡ hand.old }
    ensures buffer { buffer.new.shape ≡ buffer.old.shape }
    ensures error { IfErr result IsOfAppend }
{
    let Some(file) = &mut cell.state else {
        return Ok(());
    };
    let account = &mut cell.account;
    let done = flush_lodged(rt, area, hand, account, file, now, buffer);
    if done.is_ok() {
        cell.forget_marks(area);
    }
    done
}

// Writes each marked node of a file whose tickets and tokens are lodged in its account.
fn flush_lodged<V: VolumeName, B: Block + Drop, R: Wait>(
    rt: &R,
    area: &MainArea<V, B>,
    hand: &mut CallAccount,
    account: &mut FileAccount,
    file: &mut FileState<B>,
    now: u64,
    buffer: &mut FlushBuffer,
) -> Result<(), Error>
    requires hand { hand.old ≡ at_home V.Books.books.book }
    requires book { account.old.book ≡ V.Books.books.book }
    requires buffer { buffer.old.shape ≡ V.Numbers.geometry.shape }
    requires lodged { IsLodged V.Numbers.geometry account.old file.old }
    ensures lodged { IsLodged V.Numbers.geometry account.new file.new }
    ensures clean { OnOk result (weight_of file.new each_marked ≡ 0) }
    ensures number { file.new.token.number ≡ file.old.token.number }
    ensures account { (account.new.book ≡ account.old.book) × (account.new.inode ≡ account.old.inode) × (account.new.content ≡ account.old.content) }
    ensures hand { hand.new ≡ hand.old }
    ensures file { file_of file.new ≡ file_of file.old }
    ensures buffer { buffer.new.shape ≡ buffer.old.shape }
    ensures error { IfErr result IsOfAppend }
{
    area.books().unlodge_all(account, hand);
    let done = flush_file(rt, area, hand, file, now, buffer);
    area.books().lodge_all(account, hand);
    done
}
