//! What a file is that came out of a stock.
ghost use Rattle.std.specs.Prelude.{◌≡◌, ◌<◌, ◌≤◌, ℕ, List, Some, length};
ghost use Rattle.std.specs.FinMap.{len};
ghost use Rattle.geometry.specs.Path.{largest_length};
ghost use Rattle.geometry.specs.Shape.{block_bytes};
ghost use Rattle.image.specs.Files.{data_address};
ghost use Rattle.image.specs.Image.{node_of};
ghost use Rattle.image.specs.Rules.{IsLawful};
ghost use Rattle.image.specs.View.{image_view};
ghost use Rattle.tickets.specs.Placed.{Placed};
ghost use Rattle.nodes.specs.Change.{of_tickets, each_marked};
ghost use Rattle.nodes.specs.File.{IsFile, ticket_at, address_of, weight_of, file_of};
ghost use Rattle.nodes.specs.Owners.{HasNumbers, AreNamed};
ghost use Rattle.nodes_law.specs.Law.{FileStateLaw};
ghost use Rattle.mount_blocks.specs.FileLoaded.{IsLoadedFile};
ghost use Rattle.mount_blocks.specs.Goods.{AreGoods};
ghost use Rattle.mount.specs.MountFiles.{HasFile};
ghost use Rattle.image_codec.specs.Blocks.{AreBlocks};

use device::Block;
use geometry::Geometry;
use image::Image;
use mount_blocks::{Stock, tell_lawful, tell_loaded};
use nodes::FileState;
use tickets::Ticket;

/// Tells of the file of an inode of a lawful image, which came out of a stock with all its tickets and tokens: it is a file of
/// whole blocks, each named by who owns it, and as many as it has tickets. Each of its nodes has a block that spells it, and
/// none is marked. At each index it has the block that the image names there.
pub fn tell_file<B: Block>(
    geometry: &Geometry,
    image: &Image,
    inode: u32,
    stock: &Stock<Ticket<B>>,
    file: &FileState<B>,
)
    requires lawful { IsLawful geometry.now (image_view image.now) }
    requires has { HasFile geometry.now (image_view image.now) inode }
    requires loaded { IsLoadedFile (image_view image.now) geometry.now.shape stock.now.all inode file.now }
    requires blocks { (bytes : ℕ → List ℕ) × AreBlocks geometry.now (image_view image.now) bytes × AreGoods geometry.now (image_view image.now) bytes stock.now.all.tickets stock.now.all.tokens }
    ensures number { file.now.token.number ≡ inode }
    ensures shape { file.now.shape ≡ geometry.now.shape }
    ensures file { IsFile file.now }
    ensures short { file.now.length ≤ largest_length file.now.shape }
    ensures numbered { HasNumbers file.now }
    ensures named { AreNamed file.now }
    ensures whole { (index : ℕ) (t : Placed) → ticket_at file.now index ≡ Some t → length t.content ≡ block_bytes file.now.shape }
    ensures counted { weight_of file.now (of_tickets (λ (t : Placed). 1)) ≡ len (file_of file.now).blocks }
    ensures clean { weight_of file.now each_marked ≡ 0 }
    ensures law { FileStateLaw geometry.now.files file.now }
    ensures kind { file.now.kind ≡ (node_of (image_view image.now) inode).kind }
    ensures size { file.now.length ≡ (node_of (image_view image.now) inode).length }
    ensures slots { (index : ℕ) → address_of (ticket_at file.now index) ≡ data_address file.now.shape (image_view image.now) inode index }
    ensures contents { (bytes : ℕ → List ℕ) → AreGoods geometry.now (image_view image.now) bytes stock.now.all.tickets stock.now.all.tokens
        → (index : ℕ) (t : Placed) → ticket_at file.now index ≡ Some t → (0 < t.mark.address) × (bytes t.mark.address ≡ t.content) }
{
    tell_lawful(geometry, image, inode);
    tell_loaded(image, inode, stock, file);
}
