//! How a clean comes to a file.
ghost use Rattle.std.specs.Prelude.{◌≡◌, ◌<◌, length, OnErr, IfOk, IfErr};
ghost use Rattle.geometry.specs.Refusals.{IsOfAppend};
ghost use Rattle.geometry.specs.Shape.{block_bytes};
ghost use Rattle.nodes.specs.File.{file_of};
ghost use Rattle.nodes.specs.Held.{Others};
ghost use Rattle.nodes.specs.Useful.{IsUseful, each_node};
ghost use Rattle.nodes_law.specs.Law.{FileStateLaw};
ghost use Rattle.nodes_law.specs.Contents.{IsStored, InHand, Serves};
ghost use Rattle.rights_permits.specs.Turns.{at_home};
ghost use Rattle.cleaning.specs.Moves.{HasMoved, IsGone, KeepsWeights};
ghost use Rattle.cleaning.specs.declared.fate.Fate.TheVariants.{Moved, Gone};

use crate::block::{DataBlock, migrate_block};
use crate::fate::Fate;
use crate::node::migrate_node;
use area::MainArea;
use device::Block;
use geometry::{Error, Owner};
use nodes::FileState;
use rights_books::CallAccount;
use rights_permits::VolumeName;
use std::sync::Wait;

/// The files of a volume, each under a lock of its own.
pub trait Files<V: VolumeName> {
    /// Moves a block of the file of this inode number by `migrate`, under the file's lock, with what is lodged in the file in
    /// hand. Where there is no such file the block is gone. A call has nothing in hand before it and after it.
    fn migrate<R: Wait>(
        &self,
        rt: &R,
        hand: &mut CallAccount,
        inode: u32,
        address: u32,
        owner: Owner,
        now: u64,
        bytes: &mut [u8],
    ) -> Result<Fate, Error>
        requires home { hand.old ≡ at_home V.Books.books.book }
        requires address { 0 < address }
        requires bytes { length bytes.old ≡ block_bytes V.Numbers.geometry.shape }
        ensures hand { hand.new ≡ hand.old }
        ensures error { IfErr result IsOfAppend };
}

/// Moves the block at an address, data or a node's, where the file still names it there as its summary says: see
/// `migrate_block` and `migrate_node`. The file stays as it was, whatever the call answers.
pub fn migrate<V: VolumeName, B: Block + Drop, R: Wait>(
    rt: &R,
    area: &MainArea<V, B>,
    hand: &mut CallAccount,
    file: &mut FileState<B>,
    address: u32,
    owner: Owner,
    now: u64,
    bytes: &mut [u8],
) -> Result<Fate, Error>
    requires book { hand.old.book ≡ V.Books.books.book }
    requires shape { file.old.shape ≡ V.Numbers.geometry.shape }
    requires address { 0 < address }
    requires bytes { length bytes.old ≡ block_bytes file.old.shape }
    requires stored { IsStored file.old }
    requires law { FileStateLaw V.Numbers.geometry.files file.old }
    requires held { (others : Others) × InHand others file.old hand.old }
    ensures serves { Serves file.old file.new hand.old hand.new }
    ensures law { FileStateLaw V.Numbers.geometry.files file.new }
    ensures useful { IsUseful each_node file.old → IsUseful each_node file.new }
    ensures file { file_of file.new ≡ file_of file.old }
    ensures moved { IfOk result (λ fate. fate ≡ Moved → HasMoved address owner file.old file.new) }
    ensures gone { IfOk result (λ fate. fate ≡ Gone → IsGone address owner file.old × KeepsWeights file.old file.new × (hand.new ≡ hand.old)) }
    ensures err { OnErr result ((file.new ≡ file.old) × (hand.new ≡ hand.old)) }
    ensures error { IfErr result IsOfAppend }
{
    match owner {
        Owner::Data(nid, slot) => {
            let block = DataBlock { address, nid, slot };
            migrate_block(rt, area, hand, file, block, now, bytes)
        }
        Owner::Node(nid) => migrate_node(rt, area, hand, file, address, nid, now, bytes),
    }
}
