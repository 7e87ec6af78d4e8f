//! The image that a device holds.
ghost use Rattle.std.specs.Prelude.{◌≡◌, ◌⊎◌, ◌<◌, length, map, IfOk, IfErr};
ghost use Rattle.device.specs.Disk.{IsQuiet};
ghost use Rattle.device.specs.Parts.{IsBlockRun};
ghost use Rattle.geometry.specs.declared.error.Error.TheVariants.{Device};
ghost use Rattle.geometry.specs.Area.{block_count};
ghost use Rattle.geometry.specs.Shape.{block_bytes};
ghost use Rattle.image.specs.Reading.{read_nodes as nodes_of_table};
ghost use Rattle.image.specs.Rules.{IsLawful};
ghost use Rattle.image.specs.View.{image_view};
ghost use Rattle.checkpoint.specs.Holding.{AreWhole, counting_body};
ghost use Rattle.geometry.specs.Weights.{weigh};
ghost use Rattle.pack_tables.specs.Grammar.{SpellsTables};
ghost use Rattle.image_codec.specs.Blocks.{AreBlocks, bytes_at};
ghost use Rattle.mount_reading.specs.Held.{IsBodyRefusal};

use checkpoint::ImagePacks;
use device::{Block, Meta};
use geometry::Error;
use image::Image;
use image_checker::check;
use image_codec::read_nodes;
use std::alloc::Global;

/// The image that the pack that counts and the blocks hold, which is lawful.
///
/// Answers BadImage with the least fault that is there, which is 1 where the pack spells no tables; Device where the device
/// failed, and NoMemory where a growth was refused. Packs and blocks stay as they are.
pub(crate) fn read_image<M: Meta, B: Block>(
    alloc: Global,
    packs: &mut ImagePacks<M>,
    blocks: &mut Vec<B>,
) -> Result<Image, Error>
    requires whole { AreWhole M.seen M.may_leave packs.old }
    requires run { IsBlockRun B.address_of B.content_of (block_bytes packs.old.geometry.shape) 1 blocks.old.items }
    requires count { length blocks.old.items ≡ block_count packs.old.geometry }
    ensures tables { IfOk result (λ image. SpellsTables packs.old.geometry (counting_body M.seen packs.old) (image_view image)) }
    ensures nodes { IfOk result (λ image. (image_view image).nodes
        ≡ nodes_of_table packs.old.geometry.shape (bytes_at B.content_of blocks.old.items) (image_view image).node_table) }
    ensures lawful { IfOk result (λ image. IsLawful packs.old.geometry (image_view image)) }
    ensures blocks { IfOk result (λ image. AreBlocks packs.old.geometry (image_view image) (bytes_at B.content_of blocks.old.items)) }
    ensures refused { IfErr result (IsBodyRefusal packs.old.geometry (counting_body M.seen packs.old) (bytes_at B.content_of blocks.old.items)) }
    ensures device { IfErr result (λ e. e ≡ Device → (M.failed packs.old.area.meta < M.failed packs.new.area.meta)
        ⊎ (weigh B.failed blocks.old.items < weigh B.failed blocks.new.items)) }
    ensures whole { AreWhole M.seen M.may_leave packs.new }
    ensures quiet { IsQuiet M.seen M.may_leave M.moment M.left_since packs.old.area.meta packs.new.area.meta }
    ensures same { (packs.new.geometry ≡ packs.old.geometry) × (packs.new.area.version ≡ packs.old.area.version) }
    ensures run { IsBlockRun B.address_of B.content_of (block_bytes packs.old.geometry.shape) 1 blocks.new.items }
    ensures contents { map B.content_of blocks.new.items ≡ map B.content_of blocks.old.items }
{
    let mut image = packs.read(alloc)?;
    let geometry = packs.geometry;
    image.nodes = read_nodes(alloc, geometry.shape, &image.nat, blocks)?;
    check(alloc, &geometry, &image)?;
    Ok(image)
}
