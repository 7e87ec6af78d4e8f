//! The rows of the folder are read.
use crate::walk::read_rows;
use flash_volume::{Block, Error, Geometry, Meta, Rights, Volume, VolumeName, Work};
use named_folder::FolderRow;
use named_reading::NameRefusal;
use std::alloc::Global;
use std::sync::Wait;

/// The rows of a volume's folder, and the volume's numbers.
#[derive(Drop)]
pub struct FolderRows {
    pub entries: Vec<FolderRow>,
    pub geometry: Geometry,
}

/// Reads the folder, and changes nothing. Refused as NoFolder where there is none, as LostFile where it names a file that is not there.
#[derive(Clone, Copy, Drop)]
pub struct ReadFolder;

impl<M: Meta, B: Block + Drop> Work<M, B> for ReadFolder {
    ghost use Rattle.std.specs.Prelude.{◌≡◌, IfOk, map};
    ghost use Rattle.flash_volume.specs.Worked.{IsOfCall};
    ghost use Rattle.geometry.specs.Shape.{block_bytes};
    ghost use Rattle.named_files.specs.Files.{HasFolder};
    ghost use Rattle.named_folder.specs.Rows.{row_of};

    type Output = Result<FolderRows, NameRefusal>;

    // The rows are the folder's, the numbers the volume's, and nothing changes.
    ghost post = { λ work geometry before output after.
        IfOk output (λ rows. HasFolder (block_bytes geometry.shape) before (map row_of rows.entries.items) × (rows.geometry ≡ geometry))
        × (after ≡ before) };

    ghost failed = { λ work geometry before error. IsOfCall error };

    fn run<V: VolumeName, R: Wait>(
        self,
        rt: &R,
        alloc: Global,
        volume: &Volume<V, M, B>,
        rights: &mut Rights<V>,
    ) -> Result<Result<FolderRows, NameRefusal>, Error> {
        let passes = rights.passes.as_slice();
        let entries = match read_rows(rt, alloc, volume, passes)? {
            Ok(entries) => entries,
            Err(refusal) => return Ok(Err(refusal)),
        };
        let geometry = volume.geometry();
        Ok(Ok(FolderRows { entries, geometry }))
    }
}
