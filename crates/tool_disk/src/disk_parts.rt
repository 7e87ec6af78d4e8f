//! The files of a new disk, all of them or none.
use flash_volume::{Block, Error, Meta, Rights, Volume, VolumeName, Work};
use named_files::{NewFile, PutAll};
use std::alloc::Global;
use std::cell::Cell;
use std::sync::Wait;

/// Puts the files of a new disk. Where one is refused, the work fails with NoSpace, and then, as after each other error, the volume is given
/// up: a later run finds none of them.
#[derive(Clone, Copy, Drop)]
pub(crate) struct PutParts<'a, 'b> {
    pub files: &'a [NewFile<'b>],
    /// The time of the writes, in seconds.
    pub now: u64,
}

impl<'a, 'b, M: Meta, B: Block + Drop> Work<M, B> for PutParts<'a, 'b> {
    type Output = ();

    fn run<V: VolumeName, R: Wait>(
        self,
        rt: &R,
        alloc: Global,
        volume: &Volume<V, M, B>,
        rights: &mut Rights<V>,
    ) -> Result<(), Error> {
        let count = Cell::new(0);
        let put = PutAll {
            files: self.files,
            count: &count,
            now: self.now,
        };
        match put.run(rt, alloc, volume, rights)? {
            Ok(()) => Ok(()),
            Err(_) => Err(Error::NoSpace),
        }
    }
}
