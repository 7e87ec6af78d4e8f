//! A data block is moved.
ghost use Rattle.std.specs.Prelude.{◌≡◌, ◌<◌, Some, None, length, OnOk, OnErr, IfOk, IfErr};
ghost use Rattle.geometry.specs.Refusals.{IsOfAppend};
ghost use Rattle.geometry.specs.declared.owner.Owner.TheVariants.{Data};
ghost use Rattle.geometry.specs.Path.{path};
ghost use Rattle.tickets.specs.Placed.{Placed};
ghost use Rattle.nodes.specs.File.{address_of, ticket_at};
ghost use Rattle.nodes.specs.Owners.{owner_at};
ghost use Rattle.cleaning.specs.Moves.{HasMoved, IsGone, MovesAt};
ghost use Rattle.cleaning.specs.Served.{CanMove, HasServed};
ghost use Rattle.cleaning.specs.declared.fate.Fate.TheVariants.{Moved, Gone};

use crate::fate::Fate;
use crate::place::append_elsewhere;
use area::{Log, MainArea};
use device::Block;
use geometry::{Error, Mark, Owner};
use nodes::FileState;
use nodes_walks::index_of;
use rights_books::CallAccount;
use rights_permits::VolumeName;
use std::sync::Wait;

/// A data block as its summary tells of it: where it stands, and the node and the slot there that named it.
#[derive(Clone, Copy)]
pub struct DataBlock {
    pub address: u32,
    pub nid: u32,
    pub slot: u32,
}

/// Moves a data block of a file, where its node still names its address at its slot: its bytes are read and appended to
/// the log of data that cleaning has moved, and the slot gets the new block; the old one is given back. The file stays as
/// it was, whatever the call answers. `bytes` has room for one block.
///
/// Answers Device where the device failed, and NoSpace where the log has no open segment and none is free; then nothing has
/// changed, and what is in hand is as before.
pub fn migrate_block<V: VolumeName, B: Block + Drop, R: Wait>(
    rt: &R,
    area: &MainArea<V, B>,
    hand: &mut CallAccount,
    file: &mut FileState<B>,
    block: DataBlock,
    now: u64,
    bytes: &mut [u8],
) -> Result<Fate, Error>
    requires file { CanMove V.Numbers.geometry V.Books.books.book block.address file.old hand.old bytes.old }
    ensures served { HasServed V.Numbers.geometry.files file.old file.new hand.old hand.new }
    ensures moved { IfOk result (λ fate. fate ≡ Moved → HasMoved block.address (Data block.nid block.slot) file.old file.new) }
    ensures gone { IfOk result (λ fate. fate ≡ Gone → IsGone block.address (Data block.nid block.slot) file.old × (file.new ≡ file.old) × (hand.new ≡ hand.old)) }
    ensures err { OnErr result ((file.new ≡ file.old) × (hand.new ≡ hand.old)) }
    ensures error { IfErr result IsOfAppend }
{
    let DataBlock { address, nid, slot } = block;
    match index_of(file, nid, slot, address) {
        Some(index) => {
            let owner = Owner::Data(nid, slot);
            let mark = Mark { address, owner };
            match move_block(rt, area, hand, file, index, mark, now, bytes) {
                Ok(()) => Ok(Fate::Moved),
                Err(error) => Err(error),
            }
        }
        None => Ok(Fate::Gone),
    }
}

// Moves the block at an index of a file, which has this mark.
fn move_block<V: VolumeName, B: Block + Drop, R: Wait>(
    rt: &R,
    area: &MainArea<V, B>,
    hand: &mut CallAccount,
    file: &mut FileState<B>,
    index: u32,
    mark: Mark,
    now: u64,
    bytes: &mut [u8],
) -> Result<(), Error>
    requires file { CanMove V.Numbers.geometry V.Books.books.book mark.address file.old hand.old bytes.old }
    requires inside { index < file.old.length }
    requires there { address_of (ticket_at file.old index) ≡ mark.address }
    requires owner { owner_at file.old (path file.old.shape index) ≡ Some mark.owner }
    ensures served { HasServed V.Numbers.geometry.files file.old file.new hand.old hand.new }
    ensures moved { OnOk result ((before : Placed) × (after : Placed) × MovesAt mark file.old file.new index before after) }
    ensures err { OnErr result ((file.new ≡ file.old) × (hand.new ≡ hand.old)) }
    ensures error { IfErr result IsOfAppend }
{
    file.read(index, bytes)?;
    let log = Log::ColdData;
    let ticket = append_elsewhere(rt, area, hand, log, mark, now, bytes)?;
    match file.put(index, ticket) {
        Some(before) => {
            area.release(rt, hand, before);
            Ok(())
        }
        None => unreachable!(),
    }
}
