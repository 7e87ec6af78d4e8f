//! The tables that the pack that counts spells.
ghost use Rattle.std.specs.Prelude.{◌≡◌, ◌⊎◌, ◌<◌, [], OnErr, IfOk, IfErr};
ghost use Rattle.geometry.specs.declared.error.Error.TheVariants.{NoMemory, Device, BadImage};
ghost use Rattle.device.specs.Disk.{IsQuiet};
ghost use Rattle.image.specs.View.{image_view};
ghost use Rattle.packs.specs.Parts.{format_of};
ghost use Rattle.pack_tables.specs.Grammar.{SpellsTables, SpellsNoTables};
ghost use Rattle.checkpoint.specs.Holding.{AreWhole, counting_body};

use crate::ImagePacks;
use device::Meta;
use geometry::Error;
use image::Image;
use pack_tables::decode;
use std::alloc::Global;

// The bytes of a footer.
const FOOTER: u64 = 4;

impl<M: Meta> ImagePacks<M> {
    /// Reads the tables that the pack that counts spells. The image has no nodes yet: they stand in the main blocks that
    /// its node address table names.
    ///
    /// Answers BadImage(1) where the pack spells no tables, Device where the device failed, and NoMemory where a growth was
    /// refused. The packs stay as they are.
    pub fn read(&mut self, alloc: Global) -> Result<Image, Error>
        requires { AreWhole M.seen M.may_leave self.old }
        ensures tables { IfOk result (λ image. SpellsTables self.old.geometry (counting_body M.seen self.old) (image_view image)) }
        ensures no_nodes { IfOk result (λ image. image.nodes.items ≡ []) }
        ensures errors { IfErr result (λ e. (e ≡ NoMemory) ⊎ ((e ≡ Device)
            ⊎ ((e ≡ BadImage 1) × SpellsNoTables self.old.geometry (counting_body M.seen self.old)))) }
        ensures device { IfErr result (λ e. e ≡ Device → M.failed self.old.area.meta < M.failed self.new.area.meta) }
        ensures whole { AreWhole M.seen M.may_leave self.new }
        ensures same { self.new ≡ record self.old { area = record self.old.area { meta = self.new.area.meta } } }
        ensures quiet { IsQuiet M.seen M.may_leave M.moment M.left_since self.old.area.meta self.new.area.meta }
    {
        let len = self.geometry.pack_bytes() - FOOTER;
        let mut body = vec![in alloc; 0u8; len as usize]?;
        match self.area.read(body.as_mut_slice()) {
            Ok(true) => decode(alloc, &self.geometry, body.as_slice()),
            Ok(false) => Err(Error::BadImage(1)),
            Err(_) => Err(Error::Device),
        }
    }

    /// The format of the pack that counts: 1 where it was written whole, 2 where in parts, 3 where in pages.
    pub fn format(&self) -> u32
        ensures { result ≡ format_of self.now.area.geometry.packing self.now.area.known.map }
    {
        self.area.format()
    }
}
