//! The tables of a checkpoint pack and the superblock as bytes, and an image file as an image (Linux `filesystems/f2fs`,
//! on-disk layout; how the bytes lie is this project's own). What a device holds is one volume's image.
#![tactic(auto)]

mod decoding;
mod encoding;
mod file;
mod law;
mod one_image;
mod rows;
mod superblock;

pub use decoding::decode;
pub use encoding::{encode, spell_entry, spell_head, spell_info, spell_summaries};
pub use file::{ReadImage, file_bytes};
pub use law::reading_law;
pub use one_image::one_image_law;
pub use superblock::{read_super, write_super};
