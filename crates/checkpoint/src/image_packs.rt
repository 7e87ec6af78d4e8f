//! The two packs of a volume's meta area, as images.
use geometry::Geometry;
use packs::Packs;

/// The two packs of a volume's meta area, of which one counts, and the numbers by which their bodies spell images.
#[derive(Drop)]
pub struct ImagePacks<M> {
    /// The packs as bytes.
    pub area: Packs<M>,
    pub geometry: Geometry,
}
