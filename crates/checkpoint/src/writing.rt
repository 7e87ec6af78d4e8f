//! An image is written as the pack that counts.
ghost use Rattle.std.specs.Prelude.{◌≡◌, ◌⊎◌, ◌<◌, ◌+◌, ℕ, [], ◌∷◌, OnOk, IfOk, IfErr};
ghost use Rattle.geometry.specs.declared.error.Error.TheVariants.{BadGeometry, Device};
ghost use Rattle.geometry.specs.File.{Block};
ghost use Rattle.device.specs.Disk.{Leaves, LeavesOnly};
ghost use Rattle.image.specs.Pack.{body_bytes, pack_body};
ghost use Rattle.packs_journal.specs.Pages.{ChangesIn};
ghost use Rattle.image.specs.Reading.{image_in};
ghost use Rattle.image.specs.Rules.{IsInRange};
ghost use Rattle.checkpoint_image.specs.View.{taken_view};
ghost use Rattle.packs.specs.Pack.{Between};
ghost use Rattle.packs.specs.Area.{reading_of};
ghost use Rattle.packs.specs.Device.{IsSameArea, KeepsArea};
ghost use Rattle.pack_tables.specs.Grammar.{SpellsTables};
ghost use Rattle.checkpoint.specs.Holding.{AreWhole, counting_body, read_with};
ghost use Rattle.pack_tables.specs.Holding.{HoldsTables};

use crate::{ImagePacks, Recorded, Stored};
use checkpoint_image::{TakenImage, TouchedBody};
use device::{Block, Meta};
use geometry::Error;

impl<M: Meta> ImagePacks<M> {
    /// Writes an image, which a body spells, as the next pack: of its tables only what changed. After an Ok it is the one that counts whatever crash
    /// comes.
    ///
    /// Answers BadGeometry where the image was spelled for another shape than that of these packs, and then nothing has changed; and
    /// Device where the device failed: then it is not known which of the two packs counts, and the area has to be opened again.
    /// It takes no memory.
    pub fn write<B: Block>(
        &mut self,
        taken: Recorded<B>,
        body: &TouchedBody,
    ) -> Result<Stored<M, B>, Error>
        requires whole { AreWhole M.seen M.may_leave self.old }
        requires range { IsInRange self.old.geometry (taken_view taken.image) }
        requires next { taken.image.tables.version ≡ self.old.area.version + 1 }
        requires spelled { body.now.bytes.items ≡ pack_body self.old.geometry.shape (taken_view taken.image) }
        requires touched { ChangesIn body.now.touched (body_bytes self.old.geometry) (counting_body M.seen self.old) body.now.bytes.items }

        ensures whole { OnOk result (AreWhole M.seen M.may_leave self.new) }
        ensures body { OnOk result (counting_body M.seen self.new ≡ body.now.bytes.items) }
        ensures held { OnOk result (Leaves M.may_leave self.new.area.meta (HoldsTables self.old.geometry (taken_view taken.image))) }
        ensures read_back { OnOk result ((blocks : ℕ → Block) → image_in self.old.geometry (counting_body M.seen self.new) blocks
            ≡ read_with self.old.geometry.shape blocks (taken_view taken.image)) }
        ensures taken { IfOk result (λ stored. stored.taken ≡ taken) }
        ensures area { IfOk result (λ stored. stored.pack.shown.items ≡ (self.new.area, self.new.area.version) ∷ []) }

        // A crash at any moment of the call leaves the old pack or the new one, also where it fails.
        ensures any_moment { LeavesOnly M.moment M.left_since self.old.area.meta self.new.area.meta
            (KeepsArea (M.seen self.old.area.meta) (Between (reading_of self.old.area.geometry)
            (counting_body M.seen self.old) (pack_body self.old.geometry.shape (taken_view taken.image)))) }

        ensures errors { IfErr result (λ e. (e ≡ BadGeometry) ⊎ (e ≡ Device)) }
        ensures other { IfErr result (λ e. e ≡ BadGeometry → taken.image.geometry.shape ≡ self.old.geometry.shape → ⊥) }
        ensures unchanged { IfErr result (λ e. e ≡ BadGeometry → self.new ≡ self.old) }
        ensures device { IfErr result (λ e. e ≡ Device → M.failed self.old.area.meta < M.failed self.new.area.meta) }
        ensures same { IsSameArea (M.seen self.old.area.meta) (M.seen self.new.area.meta) }
        ensures geometry { self.new.geometry ≡ self.old.geometry }
        ensures numbers { self.new.area.geometry ≡ self.old.area.geometry }
    {
        let pack = self.store(&taken.image, body)?;
        let geometry = self.geometry;
        Ok(Stored {
            taken,
            geometry,
            pack,
        })
    }

    // The body spells the image.
    fn store(
        &mut self,
        image: &TakenImage,
        body: &TouchedBody,
    ) -> Result<packs::WrittenPack<M>, Error>
        requires whole { AreWhole M.seen M.may_leave self.old }
        requires range { IsInRange self.old.geometry (taken_view image.now) }
        requires next { image.now.tables.version ≡ self.old.area.version + 1 }
        requires spelled { body.now.bytes.items ≡ pack_body self.old.geometry.shape (taken_view image.now) }
        requires touched { ChangesIn body.now.touched (body_bytes self.old.geometry) (counting_body M.seen self.old) body.now.bytes.items }

        ensures whole { OnOk result (AreWhole M.seen M.may_leave self.new) }
        ensures body { OnOk result (counting_body M.seen self.new ≡ body.now.bytes.items) }
        ensures spelled { OnOk result (SpellsTables self.old.geometry (counting_body M.seen self.new) (taken_view image.now)) }
        ensures stored { IfOk result (λ stored. stored.shown.items ≡ (self.new.area, self.new.area.version) ∷ []) }
        ensures any_moment { LeavesOnly M.moment M.left_since self.old.area.meta self.new.area.meta
            (KeepsArea (M.seen self.old.area.meta) (Between (reading_of self.old.area.geometry)
            (counting_body M.seen self.old) (pack_body self.old.geometry.shape (taken_view image.now)))) }

        ensures errors { IfErr result (λ e. (e ≡ BadGeometry) ⊎ (e ≡ Device)) }
        ensures other { IfErr result (λ e. e ≡ BadGeometry → image.now.geometry.shape ≡ self.old.geometry.shape → ⊥) }
        ensures unchanged { IfErr result (λ e. e ≡ BadGeometry → self.new ≡ self.old) }
        ensures device { IfErr result (λ e. e ≡ Device → M.failed self.old.area.meta < M.failed self.new.area.meta) }
        ensures same { IsSameArea (M.seen self.old.area.meta) (M.seen self.new.area.meta) }
        ensures geometry { self.new.geometry ≡ self.old.geometry }
        ensures numbers { self.new.area.geometry ≡ self.old.area.geometry }
    {
        // A version fits its field.
        let _version = image.tables.version;
        if image.geometry.shape != self.geometry.shape {
            return Err(Error::BadGeometry);
        }
        match self.area.write(body.bytes.as_slice(), &body.touched) {
            Ok(stored) => Ok(stored),
            Err(_) => Err(Error::Device),
        }
    }
}
