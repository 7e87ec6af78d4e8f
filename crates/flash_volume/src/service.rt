//! What many threads do on one volume, for as long as they like.
use crate::pass_table::PassTable;
use device::{Block, Meta};
use geometry::Error;
use rights_permits::VolumeName;
use std::alloc::Global;
use std::sync::Wait;
use volume::Volume;

/// What many threads do on one volume, over any device: they share the passes of its files by the files' numbers.
pub trait Service<M: Meta, B: Block + Drop> {
    /// What one of the threads does, from the first to the last of its requests. `thread` is its number, from 0 on. An error ends
    /// this thread alone. Passes that are in the pass table when all threads have ended are those with which the volume is left.
    fn serve<V: VolumeName, R: Wait>(
        &self,
        rt: &R,
        alloc: Global,
        volume: &Volume<V, M, B>,
        pass_table: &PassTable<V>,
        thread: usize,
    ) -> Result<(), Error>;
}
