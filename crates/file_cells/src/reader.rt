//! A file as it was.
ghost use Rattle.std.specs.Prelude.{◌≡◌, ◌<◌, ◌≤◌, [], true, false, length};
ghost use Rattle.geometry.specs.Shape.{block_bytes};
ghost use Rattle.geometry.specs.File.{bytes_at};

use crate::holder::Holder;
use crate::seat::Seat;
use device::Block;
use nodes::FileState;
use rights_books::Remembered;
use rights_permits::VolumeName;
use std::convert::AsSlice;
use std::marker::Model;
use words::Words;

/// A file as it was when the snapshot was taken, whatever was written, cleaned or synced since. Its bytes are leases of the
/// file's blocks, and its seat has a pin on the segment of each of them, so that none of these segments is opened again
/// while the reader lives. It may go to another thread. The pins of a reader that is dropped stay for ever, and its seat is
/// lost.
///
/// To contracts it is the file, the segment of each of its blocks, and the pins.
#[derive(Drop)]
pub struct Reader<'a, V: VolumeName, B: Block> {
    pub(crate) words: &'a Words,
    pub(crate) file: Remembered<FileState<B>>,
    pub(crate) length: u32,
    // The indexes at which the file has blocks, rising, and the lease of each.
    pub(crate) indexes: Vec<u32>,
    pub(crate) leases: Vec<B::Lease>,
    pub(crate) pinned: Vec<bool>,
    pub(crate) seat: Holder<V>,
}

impl<'a, V: VolumeName, B: Block> Model for Reader<'a, V, B> {
    ghost use Rattle.std.specs.Coded.{codes};
    ghost use Rattle.geometry.specs.File.{blocks_code};
    ghost use Rattle.nodes.specs.File.{file_of};
    ghost use Rattle.file_cells.specs.Reader.{SnapshotOf, segments_code, segments_of};
    ghost use Rattle.file_cells.specs.Law.{ReaderLaw};

    ghost Value = { SnapshotOf };

    ghost coded = { Prim.hlevel (codes, blocks_code, segments_code) };

    ghost view = { λ r. record { file = file_of r.file.value; segments = segments_of r.file.value; held = r.seat.held } };

    ghost invariant = { λ r. ReaderLaw B.Lease.items V.Numbers.geometry V.Words.words r.words.now r.file.value r.length r.indexes.items r.leases.items r.pinned.items r.seat.held };
}

impl<'a, V: VolumeName, B: Block> Reader<'a, V, B> {
    /// The length in blocks.
    pub fn length(&self) -> u32
        ensures { result ≡ self.now.file.length }
    {
        self.length
    }

    /// Reads the block at an index into `out`, which has a block's bytes. Answers true below the length, where an index
    /// without a block has zeros; at or past the length it answers false, and `out` is untouched. It takes no memory, and
    /// waits for nothing.
    pub fn block(&self, index: u32, out: &mut [u8]) -> bool
        requires { length out.old ≡ block_bytes V.Numbers.geometry.shape }
        ensures below { result ≡ true → (index < self.now.file.length) × (out.new ≡ bytes_at (block_bytes V.Numbers.geometry.shape) self.now.file index) }
        ensures past { result ≡ false → (self.now.file.length ≤ index) × (out.new ≡ out.old) }
    {
        if index >= self.length {
            return false;
        }
        match self.indexes.as_slice().binary_search(&index) {
            Ok(rank) => out.copy_from_slice(self.leases[rank].as_slice()),
            Err(_) => out.fill(0),
        }
        true
    }

    /// Gives the seat back, which has no pin any more. It takes no memory, and waits for nothing.
    pub fn close(self) -> Seat<V>
        ensures { result.held ≡ [] }
    {
        let Reader {
            words,
            file: _,
            length: _,
            indexes: _,
            leases: _,
            pinned,
            mut seat,
        } = self;
        for segment in 0..pinned.len() as u32 {
            if pinned[segment as usize] {
                seat.unpin(words, segment);
            }
        }
        Seat { holder: seat }
    }
}
