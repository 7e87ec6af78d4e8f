//! An image that was taken.
ghost use Rattle.std.specs.Prelude.{◌≡◌};
ghost use Rattle.image.specs.Free.{free_count};
ghost use Rattle.pack_tables.specs.Grammar.{HasSmallNumbers};
ghost use Rattle.checkpoint_image.specs.Rows.{with_rows};

use crate::row_log::RowLog;
use geometry::Geometry;
use image::Image;

/// An image that was taken of a volume, as `taken_view` has it. What it has of each node number, each segment and each block is in
/// memory as a kept body spells it; its nodes are not, since no byte of them is written.
#[derive(Drop)]
pub struct TakenImage {
    /// The numbers of the volume.
    pub geometry: Geometry,
    /// Its version and total, and its logs; its other tables are empty here.
    pub tables: Image,
    /// The other tables, which only proofs read.
    pub rows: RowLog,
    /// How many segments a mount finds free.
    pub free: u32,
    pub ghost small: { HasSmallNumbers (with_rows tables rows.rows) },
    pub ghost counted: { free ≡ free_count geometry (with_rows tables rows.rows) },
}
