//! What a script runs in.
use crate::disk::Faults;
use crate::gate::Gate;
use flash_volume::{HoleReuse, Packing};

/// By which rules a script's volume is made and written.
#[derive(Clone, Copy)]
pub struct Rules {
    /// How its checkpoint packs lie.
    pub packing: Packing,
    /// When it threads used segments.
    pub hole_reuse: HoleReuse,
}

/// What a script runs in beside its volume: what lets calls of its device fail, when the volume threads used segments, and the gate that
/// its workers' calls go through.
#[derive(Drop)]
pub struct Setting<'g, G: Gate> {
    pub faults: Faults,
    pub hole_reuse: HoleReuse,
    pub gate: &'g G,
}
