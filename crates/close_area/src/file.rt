//! A file's blocks and nodes come home.
ghost use Rattle.std.specs.Prelude.{◌≡◌, ◌<◌, ℕ, List};
ghost use Rattle.rights_books.specs.declared.claim.TakenNumber.{TakenNumber};
ghost use Rattle.checkpoint.specs.Files.{HoldContents};
ghost use Rattle.nodes.specs.File.{IsBare};
ghost use Rattle.nodes.specs.Held.{no_others};
ghost use Rattle.nodes_law.specs.Law.{FileStateLaw};
ghost use Rattle.nodes_law.specs.Contents.{IsStored, InHand, Serves};
ghost use Rattle.rights_permits.specs.Turns.{at_home};
ghost use Rattle.area_emptying.specs.Home.{AreAtHome};
ghost use Rattle.close_area.specs.HeldTokens.{HoldTokens};

use crate::node::return_node;
use area_emptying::OwnedArea;
use device::Block;
use nodes::{FileState, Spare};
use rights_books::CallAccount;
use rights_permits::VolumeName;

/// Gives back a file with all that it has, its inode's number too: each of its blocks is at home then, with the bytes that the
/// file's tickets and tokens show. It takes no memory, and is never refused.
pub fn return_file<V: VolumeName, B: Block + Drop>(
    area: &mut OwnedArea<V, B>,
    hand: &mut CallAccount,
    file: FileState<B>,
)
    requires book { hand.old.book ≡ V.Books.books.book }
    requires shape { file.shape ≡ V.Numbers.geometry.shape }
    requires stored { IsStored file }
    requires law { FileStateLaw V.Numbers.geometry.files file }
    requires held { InHand no_others file hand.old }
    ensures hand { hand.new ≡ at_home V.Books.books.book }
    ensures home { (bytes : ℕ → List ℕ) → AreAtHome bytes area.new.segments.items
        → AreAtHome bytes area.old.segments.items × HoldContents bytes file × HoldTokens bytes hand.old.tokens }
{
    let mut file = file;
    return_entries(area, hand, &mut file);
    return_node(area, hand, file.into_token());
}

// Gives back all that the file has but its inode.
fn return_entries<V: VolumeName, B: Block + Drop>(
    area: &mut OwnedArea<V, B>,
    hand: &mut CallAccount,
    file: &mut FileState<B>,
)
    requires book { hand.old.book ≡ V.Books.books.book }
    requires shape { file.old.shape ≡ V.Numbers.geometry.shape }
    requires stored { IsStored file.old }
    requires law { FileStateLaw V.Numbers.geometry.files file.old }
    requires held { InHand no_others file.old hand.old }
    ensures serves { Serves file.old file.new hand.old hand.new }
    ensures law { FileStateLaw V.Numbers.geometry.files file.new }
    ensures bare { IsBare file.new }
    ensures home { (bytes : ℕ → List ℕ) → AreAtHome bytes area.new.segments.items
        → AreAtHome bytes area.old.segments.items × HoldContents bytes file.old × (HoldTokens bytes hand.new.tokens → HoldTokens bytes hand.old.tokens) }
{
    'spares: while let Some(spare) = file.cut(0) {
        match spare {
            Spare::Ticket(ticket) => area.release(hand, ticket),
            Spare::Token(token) => return_node(area, hand, token),
        }
    }
}
