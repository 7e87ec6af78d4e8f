//! What shows that an image was written.
ghost use Rattle.std.specs.Prelude.{◌≡◌, All};
ghost use Rattle.image.specs.Free.{free_count};
ghost use Rattle.image.specs.Pack.{pack_body};
ghost use Rattle.checkpoint_image.specs.View.{taken_view};
ghost use Rattle.packs.specs.Area.{reading_of};
ghost use Rattle.packs.specs.Device.{body_of};

use crate::Recorded;
use checkpoint_image::TakenImage;
use device::{Block, Meta};
use geometry::Geometry;
use image::Image;

/// Shows that an image was written, with which files, and into which packs: only an Ok of `ImagePacks::write` makes one.
///
/// A clause reads `stored.taken`, and `stored.pack.shown.items`: one entry, with the packs as they were right after the
/// write, and the version. The body that counted then is the image's.
#[derive(Drop)]
pub struct Stored<M: Meta, B: Block> {
    pub(crate) taken: Recorded<B>,
    pub(crate) geometry: Geometry,
    pub(crate) pack: packs::WrittenPack<M>,
    ghost written: { All (λ entry. body_of (reading_of entry.0.geometry) M.seen entry.0
        ≡ pack_body geometry.shape (taken_view taken.image)) pack.shown.items },
}

impl<M: Meta, B: Block> Stored<M, B> {
    /// Of the tables that were written, version and total, the logs and the node address table. The other tables are empty.
    pub fn tables(&self) -> &Image
        ensures { result.now ≡ self.now.taken.image.tables }
    {
        self.taken.tables()
    }

    /// How many segments a mount finds free.
    pub fn free(&self) -> u32
        ensures { result ≡ free_count self.now.taken.image.geometry (taken_view self.now.taken.image) }
    {
        self.taken.image.free
    }

    /// Gives up all but what was written.
    pub fn into_image(self) -> TakenImage
        ensures { result ≡ self.taken.image }
    {
        let Stored {
            taken,
            geometry: _,
            pack: _,
        } = self;
        let Recorded { image, added: _ } = taken;
        image
    }
}
