//! How the blocks of a main area come back out of it, once nothing is valid in it.
#![tactic(auto)]

mod emptied_area;
mod owned;
mod owned_area;
mod spare;

pub use owned_area::OwnedArea;
pub use spare::{CloseRows, SpareRows};
