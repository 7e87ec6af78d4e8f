//! The main area of a volume is closed.
ghost use Rattle.std.specs.Prelude.{◌≡◌, ◌≤◌, map, vec_len, vec_capacity};
ghost use Rattle.device.specs.Parts.{IsBlockRun};
ghost use Rattle.checkpoint_image.specs.View.{taken_view};
ghost use Rattle.checkpoint_sync.specs.FileParts.{filed_of};
ghost use Rattle.geometry.specs.Area.{block_count};
ghost use Rattle.geometry.specs.Shape.{block_bytes};
ghost use Rattle.checkpoint_sync.specs.WrittenFiles.{AreWritten};
ghost use Rattle.image.specs.Files.{files as files_of};
ghost use Rattle.image.specs.Reading.{read_nodes};
ghost use Rattle.checkpoint_sync.specs.TakenFrom.{IsTakenFrom};
ghost use Rattle.image_codec.specs.Blocks.{bytes_at};
ghost use Rattle.rights_permits.specs.Turns.{at_home};
ghost use Rattle.close_area.specs.Returned.{living};
ghost use Rattle.close_area.specs.Shown.{AreShown};

use crate::returning::{into_accounts, return_files};
use crate::written::WrittenFile;
use area::MainArea;
use area_emptying::{CloseRows, OwnedArea};
use checkpoint_image::TakenImage;
use device::Block;
use file_cells::FilePass;
use rights_books::FileAccount;
use rights_permits::{AllPermits, VolumeName};
use std::sync::Wait;

/// All blocks of a main area in the order of their addresses, where each file that lives has its pass here. An image that was
/// taken of the files, with what lay in the locks, has its nodes in these blocks, and its files over them are exactly what the
/// passes show. It takes no memory.
pub fn close_area<V: VolumeName, B: Block + Drop, R: Wait>(
    rt: &R,
    area: MainArea<V, B>,
    spare: CloseRows<V, B>,
    all: AllPermits<V::Books, V::Turns>,
    files: Vec<WrittenFile<V, B>>,
    accounts: Vec<FileAccount>,
    passes: Vec<FilePass<V>>,
    image: &TakenImage,
) -> Vec<B>
    requires home { all.hand ≡ at_home V.Books.books.book }
    requires files { AreWritten V.Books.books.book V.Numbers.geometry files.items }
    requires every { vec_len files ≡ V.Numbers.geometry.files }
    requires enough { living files.items ≤ vec_len passes }
    requires no_accounts { vec_len accounts ≡ 0 }
    requires room { vec_len files ≤ vec_capacity accounts }
    requires taken { IsTakenFrom V.Numbers.geometry (map (λ c. filed_of c.account c.state) files.items) (taken_view image.now) }
    ensures run { IsBlockRun B.address_of B.content_of (block_bytes V.Numbers.geometry.shape) 1 result.items }
    ensures count { vec_len result ≡ block_count V.Numbers.geometry }
    ensures nodes { (taken_view image.now).nodes ≡ read_nodes V.Numbers.geometry.shape (bytes_at B.content_of result.items) (taken_view image.now).node_table }
    ensures files { AreShown (files_of V.Numbers.geometry (taken_view image.now) (bytes_at B.content_of result.items)) passes.items }
{
    let mut files = files;
    let mut all = all;
    let _image = image;
    let mut owned = OwnedArea::own(rt, area, spare);
    return_files(&mut owned, &mut all.hand, &mut files, passes);
    owned.empty(all, into_accounts(files, accounts))
}
