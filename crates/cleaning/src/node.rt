//! A node's block is moved.
ghost use Rattle.std.specs.Prelude.{◌≡◌, ◌≢◌, ◌<◌, ◌⊎◌, length, OnOk, OnErr, IfOk, IfErr};
ghost use Rattle.geometry.specs.Refusals.{IsOfAppend};
ghost use Rattle.geometry.specs.declared.owner.Owner.TheVariants.{Node};
ghost use Rattle.geometry.specs.Shape.{block_bytes};
ghost use Rattle.rights_books.specs.Lists.{times};
ghost use Rattle.rights_books.specs.Sameness.{same_entry};
ghost use Rattle.cleaning.specs.Moves.{HasMoved, IsGone, MovesToken, KeepsWeights};
ghost use Rattle.cleaning.specs.Served.{CanMove, HasServed};
ghost use Rattle.cleaning.specs.declared.fate.Fate.TheVariants.{Moved, Gone};

use crate::fate::Fate;
use crate::place::append_elsewhere;
use area::{Log, MainArea, log_for};
use device::Block;
use geometry::{Class, Error, Kind, Mark, Owner};
use nodes::FileState;
use nodes_walks::{NodeVisitor, visit_node};
use rights_books::CallAccount;
use rights_permits::VolumeName;
use std::sync::Wait;
use tickets::NidToken;

/// Moves the block of a node of a file, where the file still has a node of this number and its block is at this address:
/// the bytes are read and appended to the log of the node's class, and the node's entry and token get the new block; the
/// old one is given back. The new block has the old bytes even where the node is marked, as changed since they were
/// written, and the mark stays. The file stays as it was, whatever the call answers. `bytes` has room for one block.
///
/// Answers Device where the device failed, and NoSpace where the log has no open segment and none is free; then nothing has
/// changed, and what is in hand is as before.
pub fn migrate_node<V: VolumeName, B: Block + Drop, R: Wait>(
    rt: &R,
    area: &MainArea<V, B>,
    hand: &mut CallAccount,
    file: &mut FileState<B>,
    address: u32,
    nid: u32,
    now: u64,
    bytes: &mut [u8],
) -> Result<Fate, Error>
    requires file { CanMove V.Numbers.geometry V.Books.books.book address file.old hand.old bytes.old }
    ensures served { HasServed V.Numbers.geometry.files file.old file.new hand.old hand.new }
    ensures moved { IfOk result (λ fate. fate ≡ Moved → HasMoved address (Node nid) file.old file.new) }
    ensures gone { IfOk result (λ fate. fate ≡ Gone → IsGone address (Node nid) file.old × KeepsWeights file.old file.new × (hand.new ≡ hand.old)) }
    ensures err { OnErr result ((file.new ≡ file.old) × (hand.new ≡ hand.old)) }
    ensures error { IfErr result IsOfAppend }
{
    let mut mover = NodeMover {
        rt,
        area,
        hand,
        nid,
        address,
        kind: file.kind(),
        now,
        bytes,
        fate: Fate::Gone,
    };
    match visit_node(file, nid, &mut mover) {
        Ok(_) => Ok(mover.fate),
        Err(error) => Err(error),
    }
}

// Who moves the block of the node of a number, where it stands at an address.
#[derive(Drop)]
struct NodeMover<'a, V: VolumeName, B: Block + Drop, R> {
    rt: &'a R,
    area: &'a MainArea<V, B>,
    hand: &'a mut CallAccount,
    nid: u32,
    address: u32,
    kind: Kind,
    now: u64,
    bytes: &'a mut [u8],
    // What became of the block.
    fate: Fate,
}

impl<V: VolumeName, B: Block + Drop, R: Wait> NodeVisitor for NodeMover<'_, V, B, R> {
    ghost use Rattle.cleaning.specs.Moves.{IsMovable};

    ghost ready = { λ m token. (m.hand.now.book ≡ V.Books.books.book) × (0 < m.address) × (length m.bytes.now ≡ block_bytes V.Numbers.geometry.shape)
        × (m.fate ≡ Gone) × (token.number ≡ m.nid) × IsMovable (block_bytes V.Numbers.geometry.shape) token m.hand.now };

    ghost visited = { λ m old new n. (n.hand.ghost_name ≡ m.hand.ghost_name) × (old.number ≡ m.nid)
        × (((n.fate ≡ Gone) × (old.address ≢ m.address) × (new ≡ old) × (n.hand.now ≡ m.hand.now))
        ⊎ ((n.fate ≡ Moved) × MovesToken m.address old new m.hand.now n.hand.now)) };

    ghost refused = { λ m old e n. (n.hand.ghost_name ≡ m.hand.ghost_name) × (n.hand.now ≡ m.hand.now) × IsOfAppend e };

    fn visit(&mut self, class: Class, token: &mut NidToken) -> Result<(), Error> {
        if token.address() != self.address {
            return Ok(());
        }
        let log = log_for(self.kind, class, true);
        let hand = &mut *self.hand;
        let bytes = &mut *self.bytes;
        match move_node(self.rt, self.area, hand, token, log, self.now, bytes) {
            Ok(()) => {
                self.fate = Fate::Moved;
                Ok(())
            }
            Err(error) => Err(error),
        }
    }
}

// Moves the block of a node that has one.
fn move_node<V: VolumeName, B: Block + Drop, R: Wait>(
    rt: &R,
    area: &MainArea<V, B>,
    hand: &mut CallAccount,
    token: &mut NidToken,
    log: Log,
    now: u64,
    bytes: &mut [u8],
) -> Result<(), Error>
    requires book { hand.old.book ≡ V.Books.books.book }
    requires number { 0 < token.old.number }
    requires some { 0 < token.old.address }
    requires held { 0 < times same_entry token.old hand.old.tokens }
    requires bytes { length bytes.old ≡ block_bytes V.Numbers.geometry.shape }
    requires whole { length token.old.bytes ≡ block_bytes V.Numbers.geometry.shape }
    ensures moved { OnOk result (MovesToken token.old.address token.old token.new hand.old hand.new) }
    ensures number { token.new.number ≡ token.old.number }
    ensures err { OnErr result ((token.new ≡ token.old) × (hand.new ≡ hand.old)) }
    ensures error { IfErr result IsOfAppend }
{
    area.read_node(rt, hand, token, bytes)?;
    let mark = Mark {
        address: token.address(),
        owner: Owner::Node(token.number()),
    };
    let ticket = append_elsewhere(rt, area, hand, log, mark, now, bytes)?;
    match area.swap_ticket(rt, hand, token, ticket) {
        Some(before) => {
            area.release(rt, hand, before);
            Ok(())
        }
        None => unreachable!(),
    }
}
