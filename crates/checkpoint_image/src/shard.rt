//! A node number's row of an image.
ghost use Rattle.std.specs.Prelude.{◌≡◌, ◌%◌};
ghost use Rattle.nat.specs.Shard.{HasOwnNodes};
ghost use Rattle.image_law.specs.Parts.{found};
ghost use Rattle.checkpoint_image.specs.Cells.{shard_part};

use device::Block;
use image::NodeEntry;
use nat::Shard;

/// Its entry of the node address table, of zeros where the number is free.
pub(crate) fn entry_of<B: Block + Drop>(shard: &Shard<B>, number: u32) -> NodeEntry
    requires home { number % 16 ≡ shard.now.shard }
    requires own { HasOwnNodes shard.now }
    ensures { result ≡ found number (shard_part shard.now) }
{
    match shard.locate(number) {
        Some((inode, address)) => NodeEntry { inode, address },
        None => NodeEntry {
            inode: 0,
            address: 0,
        },
    }
}
