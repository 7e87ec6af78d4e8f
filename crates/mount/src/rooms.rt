//! The memory of all files of an image.
ghost use Rattle.std.specs.Prelude.{ℕ, IfOk};
ghost use Rattle.image.specs.Image.{Image as Imaged};
ghost use Rattle.image.specs.Rules.{IsLawful};
ghost use Rattle.image.specs.View.{image_view};
ghost use Rattle.mount_blocks.specs.FileLoaded.{IsFileRoom};
ghost use Rattle.mount.specs.MountFiles.{AreOfFiles, AreRooms};

use device::Block;
use geometry::Geometry;
use image::Image;
use mount_blocks::{FileRoom, free_node_room, make_file_room, new_table, put_at, tell_lawful};
use nodes::Branch;
use std::alloc::{AllocError, Global};
use tickets::Ticket;

// Frees the memory of a file.
fn free_file_room<B: Block>(room: FileRoom<B>)
    requires { (image : Imaged) × (inode : ℕ) × IsFileRoom image inode room }
{
    let FileRoom {
        tickets,
        direct,
        indirect,
        double,
    } = room;
    free_node_room::<Ticket<B>>(tickets);
    free_node_room::<Branch<Ticket<B>>>(direct);
    free_node_room::<Branch<Branch<Ticket<B>>>>(indirect);
    free_node_room::<Branch<Branch<Branch<Ticket<B>>>>>(double);
}

/// Frees the memory of files.
pub fn free_file_rooms<B: Block>(mut rooms: Vec<Option<FileRoom<B>>>)
    requires { AreOfFiles rooms.items }
{
    while let Some(place) = rooms.pop() {
        match place {
            Some(room) => free_file_room(room),
            None => {}
        }
    }
    rooms.destroy_empty();
}

/// Makes the memory of each file of a lawful image, at the number of its inode. Where memory is missing nothing is kept.
pub fn new_file_rooms<B: Block>(
    alloc: Global,
    geometry: &Geometry,
    image: &Image,
) -> Result<Vec<Option<FileRoom<B>>>, AllocError>
    requires { IsLawful geometry.now (image_view image.now) }
    ensures { IfOk result (λ rooms. AreRooms geometry.now (image_view image.now) rooms.items) }
{
    let mut rooms = new_table(alloc, geometry.files as usize + 1)?;
    for before in 0..geometry.files {
        let inode = before + 1;
        if image.entry(inode).address != 0 {
            tell_lawful(geometry, image, inode);
            match make_file_room(alloc, image, geometry.shape, inode) {
                Ok(room) => put_at(&mut rooms, inode, room),
                Err(error) => {
                    free_file_rooms(rooms);
                    return Err(error);
                }
            }
        }
    }
    Ok(rooms)
}
