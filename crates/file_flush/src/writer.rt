//! The writer of a file's nodes.
ghost use Rattle.std.specs.Prelude.{◌≡◌};
ghost use Rattle.geometry.specs.Refusals.{IsOfAppend};

use crate::node::{Source, write_block};
use area::MainArea;
use device::Block;
use geometry::Error;
use nodes_walks::{NodeBlock, NodeWriter};
use rights_books::CallAccount;
use rights_permits::VolumeName;
use std::sync::Wait;
use tickets::NidToken;

/// Writes nodes of a file to a main area, with what a call has in hand.
pub(crate) struct AreaWriter<'a, R: Wait, V: VolumeName, B: Block + Drop> {
    pub(crate) rt: &'a R,
    pub(crate) area: &'a MainArea<V, B>,
    pub(crate) hand: &'a mut CallAccount,
    pub(crate) source: Source,
    pub(crate) bytes: &'a mut [u8],
}

impl<'a, R: Wait, V: VolumeName, B: Block + Drop> NodeWriter for AreaWriter<'a, R, V, B> {
    ghost use Rattle.std.specs.Prelude.{◌≡◌, ◌⊎◌, length};
    ghost use Rattle.geometry.specs.declared.error.Error.TheVariants.{Device, NoSpace};
    ghost use Rattle.geometry.specs.Shape.{block_bytes};
    ghost use Rattle.file_flush.specs.Written.{IsWritable, IsInHand, HasSwapped, IsWrittenTo};

    ghost ready = { λ w n. IsWritable V.Numbers.geometry.shape w.source.inode n × IsInHand V.Numbers.geometry.shape V.Books.books.book w.hand.now n.token
        × (length w.bytes.now ≡ block_bytes V.Numbers.geometry.shape) };

    ghost wrote = { λ w n token v. HasSwapped w.hand.now v.hand.now n.token token × IsWrittenTo V.Numbers.geometry.shape w.source.inode n token
        × (v.hand.ghost_name ≡ w.hand.ghost_name) × (v.bytes.ghost_name ≡ w.bytes.ghost_name) };

    ghost refused = { λ w n error v. (v.hand.now ≡ w.hand.now) × IsOfAppend error
        × (v.hand.ghost_name ≡ w.hand.ghost_name) × (v.bytes.ghost_name ≡ w.bytes.ghost_name) };

    fn write_node(&mut self, token: &mut NidToken, block: &NodeBlock) -> Result<(), Error> {
        write_block(
            self.rt,
            self.area,
            self.hand,
            self.source,
            token,
            block,
            self.bytes,
        )
    }
}
