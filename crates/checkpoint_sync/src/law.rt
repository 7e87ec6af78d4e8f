//! A file in its lock, once its nodes are written.
ghost use Rattle.checkpoint_sync.specs.FileParts.{filed_of, IsFlushedOrNone};
ghost use Rattle.geometry.specs.declared.geometry.Geometry.{Geometry as Numbers};
ghost use Rattle.checkpoint_image.specs.Cells.{IsFiledAt};

use device::Block;
use nodes::FileState;
use rights_books::FileAccount;

/// A file under its law, none of whose nodes is marked, and whose account has its tickets and tokens, is a part of an image
/// under the law of its inode number; and so is a number without a file, where nothing is lodged.
///
/// It runs nothing: its contract is the law.
pub fn file_parts_law<B: Block>(account: &FileAccount, state: &Option<FileState<B>>)
    ensures { (geometry : Numbers) → IsFlushedOrNone geometry account.now.inode account.now state.now
        → IsFiledAt geometry account.now.inode (filed_of account.now state.now) }
{}
