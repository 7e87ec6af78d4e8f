//! The image of a volume, and its files, read where they stand in an image file: no block is kept.
//!
//! And a volume of any format, written anew in format 3: the new image file has the same numbers, the same tables but for the
//! version, and the same main blocks, byte for byte; its meta area is new, with one pack in pages. The bytes are written in
//! order, a piece at a time.
#![tactic(auto)]

mod address;
mod area;
mod blocks;
mod fault;
mod file;
mod reading;
mod seen;
mod source;
mod upgrading;

pub use address::{address_at, length_of};
pub use blocks::hand_out;
pub use fault::ReadFault;
pub use file::FileSource;
pub use reading::read_image;
pub use seen::SeenBytes;
pub use source::ImageSource;
pub use upgrading::upgrade;
