//! A file is cut, and given up.
ghost use Rattle.std.specs.Prelude.{◌≡◌, ℕ};
ghost use Rattle.geometry.specs.declared.owner.Mark.{Mark};
ghost use Rattle.geometry.specs.File.{cut_to};
ghost use Rattle.rights_books.specs.declared.claim.TakenNumber.{TakenNumber};
ghost use Rattle.geometry.specs.Weights.{weigh};
ghost use Rattle.nodes.specs.File.{IsBare, file_of};
ghost use Rattle.nodes.specs.Held.{Others};
ghost use Rattle.nodes.specs.Useful.{IsUseful, each_node};
ghost use Rattle.nodes_law.specs.Law.{FileStateLaw};
ghost use Rattle.nodes_law.specs.Contents.{InHand, Serves};
ghost use Rattle.file_cells.specs.Serving.{CanServe};

use crate::node::give_node;
use area::MainArea;
use device::Block;
use nodes::{FileState, Spare};
use rights_books::CallAccount;
use rights_permits::VolumeName;
use std::sync::Wait;

/// Cuts a file to a length, in blocks, or leaves it where it is shorter: each block at or past the length, and each node
/// that names nothing then, is given back. It takes no memory, and is never refused.
pub fn cut_blocks<V: VolumeName, B: Block + Drop, R: Wait>(
    rt: &R,
    area: &MainArea<V, B>,
    hand: &mut CallAccount,
    file: &mut FileState<B>,
    length: u32,
)
    requires file { CanServe V.Numbers.geometry V.Books.books.book file.old hand.old }
    ensures serves { Serves file.old file.new hand.old hand.new }
    ensures law { FileStateLaw V.Numbers.geometry.files file.new }
    ensures file { file_of file.new ≡ cut_to (file_of file.old) length }
    ensures useful { IsUseful each_node file.old → IsUseful each_node file.new }
    ensures bare { length ≡ 0 → IsBare file.new }
{
    'spares: while let Some(spare) = file.cut(length) {
        match spare {
            Spare::Ticket(ticket) => area.release(rt, hand, ticket),
            Spare::Token(token) => give_node(rt, area, hand, token),
        }
    }
}

/// Gives up a file with all that it has, its inode's number too. What others have is still in hand, and nothing else.
pub fn give_up<V: VolumeName, B: Block + Drop, R: Wait>(
    rt: &R,
    area: &MainArea<V, B>,
    hand: &mut CallAccount,
    file: FileState<B>,
)
    requires file { CanServe V.Numbers.geometry V.Books.books.book file hand.old }
    ensures tickets { (others : Others) → InHand others file hand.old → (h : Mark → ℕ) → weigh h hand.new.tickets ≡ others.tickets h }
    ensures tokens { (others : Others) → InHand others file hand.old → (h : TakenNumber → ℕ) → weigh h hand.new.tokens ≡ others.tokens h }
    ensures book { hand.new.book ≡ hand.old.book }
{
    let mut file = file;
    cut_blocks(rt, area, hand, &mut file, 0);
    give_node(rt, area, hand, file.into_token());
}
