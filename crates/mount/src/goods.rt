//! The memory for what comes out of an image: its tickets, its tokens and its files. None of it can be dropped.
ghost use Rattle.std.specs.Prelude.{◌≡◌, ◌+◌, None, replicate, IfOk};
ghost use Rattle.geometry.specs.Area.{block_count};
ghost use Rattle.image.specs.Rules.{IsLawful};
ghost use Rattle.image.specs.View.{image_view};
ghost use Rattle.mount.specs.MountFiles.{AreRooms};

use crate::rooms::{free_file_rooms, new_file_rooms};
use device::Block;
use geometry::Geometry;
use image::Image;
use mount_blocks::{FileRoom, free_table, new_table};
use nodes::FileState;
use std::alloc::{AllocError, Global};
use tickets::{NidToken, Ticket};

/// Places for all tickets, all tokens and all files, where nothing stands, and the memory of each file.
pub(crate) struct Goods<B: Block> {
    pub(crate) rooms: Vec<Option<FileRoom<B>>>,
    pub(crate) tickets: Vec<Option<Ticket<B>>>,
    pub(crate) tokens: Vec<Option<NidToken>>,
    pub(crate) files: Vec<Option<FileState<B>>>,
}

/// The memory for a lawful image. Where memory is missing nothing is kept.
#[tactic(auto, using(crate::proofs::Tables::empty_table))]
pub(crate) fn new_goods<B: Block>(
    alloc: Global,
    geometry: &Geometry,
    image: &Image,
) -> Result<Goods<B>, AllocError>
    requires { IsLawful geometry.now (image_view image.now) }
    ensures rooms { IfOk result (λ goods. AreRooms geometry.now (image_view image.now) goods.rooms.items) }
    ensures tickets { IfOk result (λ goods. goods.tickets.items ≡ replicate (block_count geometry.now + 1) None) }
    ensures tokens { IfOk result (λ goods. goods.tokens.items ≡ replicate (geometry.now.nodes + 1) None) }
    ensures files { IfOk result (λ goods. goods.files.items ≡ replicate (geometry.now.files + 1) None) }
{
    let tickets = new_table(alloc, geometry.blocks() as usize + 1)?;
    let tokens = match new_table(alloc, geometry.nodes as usize + 1) {
        Ok(tokens) => tokens,
        Err(error) => {
            free_table::<Ticket<B>>(tickets);
            return Err(error);
        }
    };
    let files = match new_table(alloc, geometry.files as usize + 1) {
        Ok(files) => files,
        Err(error) => {
            free_table::<Ticket<B>>(tickets);
            free_table::<NidToken>(tokens);
            return Err(error);
        }
    };
    match new_file_rooms(alloc, geometry, image) {
        Ok(rooms) => Ok(Goods {
            rooms,
            tickets,
            tokens,
            files,
        }),
        Err(error) => {
            free_table::<Ticket<B>>(tickets);
            free_table::<NidToken>(tokens);
            free_table::<FileState<B>>(files);
            Err(error)
        }
    }
}

/// Frees the memory for a lawful image, before anything stands in it.
#[tactic(auto, using(crate::proofs::Tables::empty_table))]
pub(crate) fn free_goods<B: Block>(geometry: &Geometry, image: &Image, goods: Goods<B>)
    requires rooms { AreRooms geometry.now (image_view image.now) goods.rooms.items }
    requires tickets { goods.tickets.items ≡ replicate (block_count geometry.now + 1) None }
    requires tokens { goods.tokens.items ≡ replicate (geometry.now.nodes + 1) None }
    requires files { goods.files.items ≡ replicate (geometry.now.files + 1) None }
{
    let _geometry = geometry;
    let _image = image;
    let Goods {
        rooms,
        tickets,
        tokens,
        files,
    } = goods;
    free_file_rooms(rooms);
    free_table(tickets);
    free_table(tokens);
    free_table(files);
}
