//! What a loaded state is.
ghost use Rattle.std.specs.Prelude.{◌≡◌, ◌≢◌, ◌<◌, ℕ, Some, None, slice_index_or};
ghost use Rattle.tickets.specs.Placed.{Placed};
ghost use Rattle.nodes.specs.Change.{each_marked};
ghost use Rattle.nodes.specs.File.{IsFile, address_of, ticket_at, weight_of};
ghost use Rattle.nodes.specs.Owners.{AreNamed};
ghost use Rattle.image.specs.View.{image_view};
ghost use Rattle.image.specs.Files.{data_address};
ghost use Rattle.mount_blocks.specs.FileLoaded.{FitsFile, IsLoadedFile};

use crate::Stock;
use device::Block;
use image::Image;
use nodes::FileState;
use tickets::Ticket;

/// Tells what a state is that was loaded as the file of an inode, where no address stands past the length: it is a file, at
/// each index it has the address that the image has there, who owns a block is who names it, each ticket is the one of the
/// stock at its address, and no node is marked.
pub fn tell_loaded<B: Block>(
    image: &Image,
    inode: u32,
    stock: &Stock<Ticket<B>>,
    file: &FileState<B>,
)
    requires loaded { IsLoadedFile (image_view image.now) file.now.shape stock.now.all inode file.now }
    requires fits { FitsFile (image_view image.now) file.now.shape inode }
    requires lengths { (index : ℕ) → data_address file.now.shape (image_view image.now) inode index ≢ 0 → index < file.now.length }
    ensures file { IsFile file.now }
    ensures slots { (index : ℕ) → address_of (ticket_at file.now index) ≡ data_address file.now.shape (image_view image.now) inode index }
    ensures named { AreNamed file.now }
    ensures contents { (index : ℕ) (t : Placed) → ticket_at file.now index ≡ Some t → (0 < t.mark.address) × (slice_index_or stock.now.all.tickets t.mark.address None ≡ Some t) }
    ensures clean { weight_of file.now each_marked ≡ 0 }
{
    let _image = image;
    let _inode = inode;
    let _stock = stock;
    let _file = file;
}
