//! The folder of a new volume.
use crate::walk::write_folder;
use flash_volume::{Block, Error, Kind, Meta, Rights, Volume, VolumeName, Work};
use named_folder::FOLDER;
use std::alloc::Global;
use std::sync::Wait;

/// Makes the folder, without rows, on a volume without files.
#[derive(Drop)]
pub struct MakeFolder;

impl<M: Meta, B: Block + Drop> Work<M, B> for MakeFolder {
    ghost use Rattle.std.specs.Prelude.{[]};
    ghost use Rattle.flash_volume.specs.Worked.{IsOfCall};
    ghost use Rattle.geometry.specs.Shape.{block_bytes};
    ghost use Rattle.named_files.specs.Files.{HasFolder};

    type Output = ();

    // There is a folder without rows.
    ghost post = { λ made geometry before output after. HasFolder (block_bytes geometry.shape) after [] };

    ghost failed = { λ made geometry before error. IsOfCall error };

    fn run<V: VolumeName, R: Wait>(
        self,
        rt: &R,
        alloc: Global,
        volume: &Volume<V, M, B>,
        rights: &mut Rights<V>,
    ) -> Result<(), Error> {
        let pass = volume.create(rt, Kind::Dir)?;
        if pass.number() != FOLDER {
            // There are files already.
            return Err(Error::NoFile);
        }
        rights.passes.push(pass)?;
        write_folder(rt, alloc, volume, rights.passes.as_mut_slice(), &[], 0)
    }
}
