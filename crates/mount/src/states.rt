//! The files of an image.
ghost use Rattle.std.specs.Prelude.{◌≡◌, ℕ, ◌+◌, length, None, replicate, slice_index_or};
ghost use Rattle.rights_books.specs.declared.claim.TakenNumber.{TakenNumber};
ghost use Rattle.geometry.specs.declared.owner.Mark.{Mark};
ghost use Rattle.image.specs.Rules.{IsLawful};
ghost use Rattle.image.specs.View.{image_view};
ghost use Rattle.image.specs.Walk.{names};
ghost use Rattle.mount_blocks.specs.TreeGoods.{ArePlaced, goods_weight, marks_weight, in_place};
ghost use Rattle.mount_blocks.specs.Loaded.{of_rights};
ghost use Rattle.nodes.specs.File.{weight_of};
ghost use Rattle.geometry.specs.Weights.{weigh};
ghost use Rattle.tickets.specs.Placed.{Placed};
ghost use Rattle.mount.specs.MountFiles.{AreRooms, AreFiles};

use crate::rooms::free_file_rooms;
use device::Block;
use geometry::Geometry;
use image::Image;
use mount_blocks::{FileRoom, Stock, load_file, put_at, take_at, tell_lawful};
use nodes::FileState;
use tickets::Ticket;

/// The files of a lawful image come out of the stock into a table, each at the number of its inode, where none stands. The
/// stock weighs what they name, and nothing is left of it. It takes no memory.
pub fn load_files<B: Block>(
    geometry: &Geometry,
    image: &Image,
    mut rooms: Vec<Option<FileRoom<B>>>,
    stock: &mut Stock<Ticket<B>>,
    files: &mut Vec<Option<FileState<B>>>,
)
    requires lawful { IsLawful geometry.now (image_view image.now) }
    requires rooms { AreRooms geometry.now (image_view image.now) rooms.items }
    requires placed { ArePlaced (λ (t : Placed). t.mark) stock.old.all }
    requires marks { (h : Mark → ℕ) → marks_weight (λ (t : Placed). t.mark) h stock.old ≡ weigh h (names geometry.now (image_view image.now)) }
    requires none { files.old.items ≡ replicate (geometry.now.files + 1) None }
    ensures files { AreFiles geometry.now (image_view image.now) stock.old.all files.new.items }
    ensures all { stock.new.all ≡ stock.old.all }
    ensures nothing { goods_weight (λ _. 1) (λ _. 1) stock.new ≡ 0 }
    ensures trades { (ticket : Placed → ℕ) (token : TakenNumber → ℕ) → weigh (in_place (λ file. weight_of file (of_rights ticket token))) files.new.items ≡ goods_weight ticket token stock.old }
{
    for before in 0..geometry.files {
        let inode = before + 1;
        if image.entry(inode).address != 0 {
            tell_lawful(geometry, image, inode);
            let room = take_at(&mut rooms, inode);
            let file = load_file(image, geometry.shape, inode, room, stock);
            put_at(files, inode, file);
        }
    }
    free_file_rooms(rooms);
}
