//! Blocks in a file's middle are given back.
ghost use Rattle.std.specs.Prelude.{◌≡◌, ◌<◌, ◌≤◌, None};
ghost use Rattle.geometry.specs.Path.{largest_length};
ghost use Rattle.nodes.specs.Tree.{SetsAt};
ghost use Rattle.nodes.specs.File.{file_of, ticket_at};
ghost use Rattle.nodes.specs.Useful.{IsUseful, each_node};
ghost use Rattle.nodes_law.specs.Law.{FileStateLaw};
ghost use Rattle.nodes_law.specs.Contents.{Serves};
ghost use Rattle.geometry.specs.File.{erased};
ghost use Rattle.file_cells.specs.Serving.{CanServe};

use crate::node::give_node;
use area::MainArea;
use device::Block;
use nodes::{FileState, Spare};
use rights_books::CallAccount;
use rights_permits::VolumeName;
use std::sync::Wait;

/// Gives back the blocks of a file at the indexes from `from` up to `to`, which is not among them, and each node that names nothing
/// then: they read as zeros, and the length stays. It takes no memory, and is never refused (Linux `fallocate(2)`,
/// `FALLOC_FL_PUNCH_HOLE` with `FALLOC_FL_KEEP_SIZE`).
pub fn erase_blocks<V: VolumeName, B: Block + Drop, R: Wait>(
    rt: &R,
    area: &MainArea<V, B>,
    hand: &mut CallAccount,
    file: &mut FileState<B>,
    from: u32,
    to: u32,
)
    requires file { CanServe V.Numbers.geometry V.Books.books.book file.old hand.old }
    ensures serves { Serves file.old file.new hand.old hand.new }
    ensures law { FileStateLaw V.Numbers.geometry.files file.new }
    ensures file { file_of file.new ≡ erased (file_of file.old) from to }
    ensures useful { IsUseful each_node file.old → IsUseful each_node file.new }
{
    let end = to.min(file.length());
    for index in from..end {
        erase_block(rt, area, hand, file, index);
    }
}

// Gives back the block at one index, where there is one.
fn erase_block<V: VolumeName, B: Block + Drop, R: Wait>(
    rt: &R,
    area: &MainArea<V, B>,
    hand: &mut CallAccount,
    file: &mut FileState<B>,
    index: u32,
)
    requires file { CanServe V.Numbers.geometry V.Books.books.book file.old hand.old }
    requires inside { index < largest_length file.old.shape }
    ensures serves { Serves file.old file.new hand.old hand.new }
    ensures law { FileStateLaw V.Numbers.geometry.files file.new }
    ensures hole { SetsAt (ticket_at file.old) (ticket_at file.new) index None }
    ensures length { file.new.length ≡ file.old.length }
    ensures kind { file.new.kind ≡ file.old.kind }
    ensures useful { IsUseful each_node file.old → IsUseful each_node file.new }
{
    'spares: while let Some(spare) = file.erase(index) {
        match spare {
            Spare::Ticket(ticket) => area.release(rt, hand, ticket),
            Spare::Token(token) => give_node(rt, area, hand, token),
        }
    }
}
