//! A node's number is given back.
ghost use Rattle.std.specs.Prelude.{◌≡◌, ◌<◌};
ghost use Rattle.geometry.specs.Shape.{block_bytes};
ghost use Rattle.rights_books.specs.Lists.{times, without};
ghost use Rattle.rights_books.specs.Sameness.{same_entry};
ghost use Rattle.nodes_law.specs.Law.{ragged};

use area::MainArea;
use device::Block;
use rights_books::CallAccount;
use rights_permits::VolumeName;
use std::sync::Wait;
use tickets::NidToken;

/// Gives back a node's number that is in hand, and the node's block where it has one, which is whole.
pub fn give_node<V: VolumeName, B: Block + Drop, R: Wait>(
    rt: &R,
    area: &MainArea<V, B>,
    hand: &mut CallAccount,
    token: NidToken,
)
    requires book { hand.old.book ≡ V.Books.books.book }
    requires held { 0 < times same_entry token hand.old.tokens }
    requires whole { ragged (block_bytes V.Numbers.geometry.shape) token ≡ 0 }
    ensures hand { hand.new ≡ record hand.old { tokens = without same_entry token hand.old.tokens } }
{
    if let Some(ticket) = area.give(rt, hand, token) {
        area.release(rt, hand, ticket);
    }
}
