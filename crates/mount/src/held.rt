//! What the accounts of the files have, once all rights are lodged.
ghost use Rattle.std.specs.Prelude.{◌≡◌, ◌+◌, ℕ, List};
ghost use Rattle.rights_books.specs.declared.claim.TakenNumber.{TakenNumber};
ghost use Rattle.geometry.specs.declared.owner.Mark.{Mark};
ghost use Rattle.image.specs.Rules.{IsLawful};
ghost use Rattle.image.specs.View.{image_view};
ghost use Rattle.mount_blocks.specs.TreeGoods.{in_place};
ghost use Rattle.mount_blocks.specs.Loaded.{of_rights};
ghost use Rattle.nodes.specs.File.{weight_of};
ghost use Rattle.geometry.specs.Weights.{weigh};
ghost use Rattle.tickets.specs.Placed.{Placed};
ghost use Rattle.mount_blocks.specs.Goods.{AreGoods};
ghost use Rattle.mount.specs.MountFiles.{AreFiles};
ghost use Rattle.mount_blocks.specs.Lodging.{file_of, of_some};

use device::Block;
use geometry::Geometry;
use image::Image;
use mount_blocks::Stock;
use nodes::FileState;
use tickets::Ticket;

/// Tells that each ticket and each token of a stock is of a file, where all of them went into files: none stays in hand that
/// is to be lodged.
pub fn tell_all_lodged<B: Block>(
    geometry: &Geometry,
    image: &Image,
    stock: &Stock<Ticket<B>>,
    files: &[Option<FileState<B>>],
)
    requires lawful { IsLawful geometry.now (image_view image.now) }
    requires goods { (bytes : ℕ → List ℕ) × AreGoods geometry.now (image_view image.now) bytes stock.now.all.tickets stock.now.all.tokens }
    requires files { AreFiles geometry.now (image_view image.now) stock.now.all files.now }
    requires all { (ticket : Placed → ℕ) (token : TakenNumber → ℕ) → weigh (in_place (λ f. weight_of f (of_rights ticket token))) files.now
        ≡ weigh (in_place ticket) stock.now.all.tickets + weigh (in_place token) stock.now.all.tokens }
    ensures tickets { (h : Mark → ℕ) → weigh (in_place (λ (t : Placed). of_some geometry.now.files (file_of (image_view image.now) t.mark.owner) (h t.mark))) stock.now.all.tickets
        ≡ weigh (in_place (λ (t : Placed). h t.mark)) stock.now.all.tickets }
    ensures tokens { (h : TakenNumber → ℕ) → weigh (in_place (λ e. of_some geometry.now.files e.inode (h e))) stock.now.all.tokens ≡ weigh (in_place h) stock.now.all.tokens }
{
    let _geometry = geometry;
    let _image = image;
    let _stock = stock;
    let _files = files;
}
