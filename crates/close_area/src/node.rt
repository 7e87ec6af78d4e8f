//! A node's number and its block come home.
ghost use Rattle.std.specs.Prelude.{◌≡◌, ◌<◌, ℕ, List};
ghost use Rattle.geometry.specs.Shape.{block_bytes};
ghost use Rattle.rights_books.specs.Lists.{times, without};
ghost use Rattle.rights_books.specs.Sameness.{same_entry};
ghost use Rattle.nodes_law.specs.Law.{ragged};
ghost use Rattle.area_emptying.specs.Home.{AreAtHome};

use area_emptying::OwnedArea;
use device::Block;
use rights_books::CallAccount;
use rights_permits::VolumeName;
use tickets::NidToken;

/// Gives back a node's number that is in hand, and the node's block where it has one, which is whole and is at home then with
/// the bytes that the token shows. It takes no memory, and is never refused.
pub fn return_node<V: VolumeName, B: Block + Drop>(
    area: &mut OwnedArea<V, B>,
    hand: &mut CallAccount,
    token: NidToken,
)
    requires book { hand.old.book ≡ V.Books.books.book }
    requires held { 0 < times same_entry token hand.old.tokens }
    requires whole { ragged (block_bytes V.Numbers.geometry.shape) token ≡ 0 }
    ensures hand { hand.new ≡ record hand.old { tokens = without same_entry token hand.old.tokens } }
    ensures home { (bytes : ℕ → List ℕ) → AreAtHome bytes area.new.segments.items
        → AreAtHome bytes area.old.segments.items × (0 < token.address → bytes token.address ≡ token.bytes) }
{
    if let Some(ticket) = area.give(hand, token) {
        area.release(hand, ticket);
    }
}
