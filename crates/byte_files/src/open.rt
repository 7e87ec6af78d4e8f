//! A volume in use.
use flash_volume::{Block, Meta, Volume, VolumeName};
use std::alloc::Global;
use std::sync::Wait;

/// A volume in use: who waits, who allocates, the volume. It is lent by `&`.
#[derive(Drop)]
pub struct Open<'a, V: VolumeName, M: Meta, B: Block + Drop, R: Wait> {
    pub rt: &'a R,
    pub alloc: Global,
    pub volume: &'a Volume<V, M, B>,
}
