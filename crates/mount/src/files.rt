//! What was loaded of the files comes into their locks.
ghost use Rattle.std.specs.Prelude.{◌≡◌, ◌+◌, ◌<◌, ◌≤◌, ◌++◌, ℕ, List, None, Some, true, false, map, vec_capacity, vec_len, MatchOption};
ghost use Rattle.std.specs.Option.{option_to_list};
ghost use Rattle.rights_books.specs.Accounts.{FileView};
ghost use Rattle.mount.specs.MountFiles.{AreFiles, StandsFor};
ghost use Rattle.mount_blocks.specs.FileLoaded.{IsLoadedFile};
ghost use Rattle.image.specs.Files.{file_of as image_file, files as image_files};
ghost use Rattle.image.specs.Rules.{IsLawful};
ghost use Rattle.image.specs.View.{image_view};
ghost use Rattle.image.specs.Walk.{is_taken};
ghost use Rattle.mount_blocks.specs.Goods.{AreGoods};
ghost use Rattle.image_codec.specs.Blocks.{AreBlocks};
ghost use Rattle.nodes.specs.Held.{AreHeld};
ghost use Rattle.std.specs.Prelude.{[]};
ghost use Rattle.mount.specs.Lodged.{HaveLodged};
ghost use Rattle.mount_blocks.specs.Loaded.{of_rights};
ghost use Rattle.mount_blocks.specs.TreeGoods.{in_place};
ghost use Rattle.nodes.specs.File.{weight_of};
ghost use Rattle.geometry.specs.Weights.{weigh};
ghost use Rattle.tickets.specs.Placed.{Placed};
ghost use Rattle.rights_books.specs.declared.claim.TakenNumber.{TakenNumber};

use crate::frames::FileFrames;
use crate::law::tell_file;
use device::Block;
use file_cells::{FileCell, FilePass};
use geometry::Geometry;
use image::Image;
use mount_blocks::{Stock, free_table};
use nodes::FileState;
use rights_books::{Books, FileAccount};
use rights_permits::VolumeName;
use std::sync::Mutex;
use tickets::Ticket;

/// A lock for each file in the order of their numbers, and the passes of those that are there: they show the files of the
/// image. It takes no memory.
pub(crate) fn lock_loaded_files<V: VolumeName, B: Block + Drop>(
    books: &Books,
    geometry: &Geometry,
    image: &Image,
    stock: &Stock<Ticket<B>>,
    accounts: Vec<FileAccount>,
    files: Vec<Option<FileState<B>>>,
    frames: FileFrames<V, B>,
) -> (Vec<Mutex<FileCell<V, B>>>, Vec<FilePass<V>>)
    requires books { books.now ≡ V.Books.books }
    requires geometry { geometry.now ≡ V.Numbers.geometry }
    requires lawful { IsLawful geometry.now (image_view image.now) }
    requires blocks { (bytes : ℕ → List ℕ) × AreBlocks geometry.now (image_view image.now) bytes × AreGoods geometry.now (image_view image.now) bytes stock.now.all.tickets stock.now.all.tokens }
    requires files { AreFiles geometry.now (image_view image.now) stock.now.all files.items }
    requires all { (ticket : Placed → ℕ) (token : TakenNumber → ℕ) → weigh (in_place (λ f. weight_of f (of_rights ticket token))) files.items
        ≡ weigh (in_place ticket) stock.now.all.tickets + weigh (in_place token) stock.now.all.tokens }
    requires every_account { vec_len accounts ≡ geometry.now.files }
    requires accounts { HaveLodged books.now.book (image_view image.now) stock.now.all accounts.items }
    ensures every_file { vec_len result.0 ≡ V.Numbers.geometry.files }
    ensures passes { (bytes : ℕ → List ℕ) → AreGoods geometry.now (image_view image.now) bytes stock.now.all.tickets stock.now.all.tokens
        → map (λ pass. (pass.number, pass.file)) result.1.items ≡ image_files geometry.now (image_view image.now) bytes }
{
    let FileFrames {
        mut cells,
        mut passes,
    } = frames;
    let mut rest = files;
    'accounts: for account in accounts {
        let number = cells.len() as u32 + 1;
        let found = rest[number as usize].take();
        let (cell, pass) = own_file(books, geometry, image, stock, number, account, found);
        cells.push_reserved(Mutex::new(cell));
        keep_pass(&mut passes, pass);
    }
    free_table(rest);
    (cells, passes)
}

// Adds a pass where there is one, in room that was made for it.
fn keep_pass<V: VolumeName>(passes: &mut Vec<FilePass<V>>, pass: Option<FilePass<V>>)
    requires { vec_len passes.old < vec_capacity passes.old }
    ensures items { passes.new.items ≡ passes.old.items ++ option_to_list pass }
    ensures length { vec_len passes.new ≤ vec_len passes.old + 1 }
    ensures capacity { vec_capacity passes.new ≡ vec_capacity passes.old }
{
    match pass {
        Some(pass) => passes.push_reserved(pass),
        None => {}
    }
}

// What lies in the lock of an inode's file, and its pass, where there is a file.
fn own_file<V: VolumeName, B: Block + Drop>(
    books: &Books,
    geometry: &Geometry,
    image: &Image,
    stock: &Stock<Ticket<B>>,
    number: u32,
    account: FileAccount,
    found: Option<FileState<B>>,
) -> (FileCell<V, B>, Option<FilePass<V>>)
    requires books { books.now ≡ V.Books.books }
    requires geometry { geometry.now ≡ V.Numbers.geometry }
    requires lawful { IsLawful geometry.now (image_view image.now) }
    requires blocks { (bytes : ℕ → List ℕ) × AreBlocks geometry.now (image_view image.now) bytes × AreGoods geometry.now (image_view image.now) bytes stock.now.all.tickets stock.now.all.tokens }
    requires number { (1 ≤ number) × (number ≤ geometry.now.files) }
    requires account { (account.book ≡ V.Books.books.book) × (account.inode ≡ number) × (account.content ≡ None) }
    requires found { StandsFor geometry.now (image_view image.now) (λ i f. IsLoadedFile (image_view image.now) geometry.now.shape stock.now.all i f) number found }
    requires lodged { MatchOption found ((account.tickets ≡ []) × (account.tokens ≡ [])) (λ file. AreHeld file account.tickets account.tokens) }
    ensures number { result.0.number ≡ number }
    ensures pass { (bytes : ℕ → List ℕ) → AreGoods geometry.now (image_view image.now) bytes stock.now.all.tickets stock.now.all.tokens
        → MatchOption result.1 (is_taken (image_view image.now) number ≡ false) (λ pass. (is_taken (image_view image.now) number ≡ true)
        × (pass ≡ record { number = number; file = image_file geometry.now.shape (image_view image.now) bytes number })) }
{
    match found {
        Some(file) => {
            tell_file(geometry, image, number, stock, &file);
            let (cell, pass) = FileCell::load(books, account, file);
            (cell, Some(pass))
        }
        None => (FileCell::of(number, account, None), None),
    }
}
