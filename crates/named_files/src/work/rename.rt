//! A file gets another name.
use crate::walk::{NamedRow, find_named, write_folder};
use flash_volume::{Block, Error, Meta, Rights, Volume, VolumeName, Work};
use named_folder::{is_name, rename_row, row_at};
use named_reading::NameRefusal;
use std::alloc::Global;
use std::sync::Wait;

/// A file gets another name, which no file has.
#[derive(Clone, Copy, Drop)]
pub struct Rename<'a> {
    pub name: &'a str,
    pub to: &'a str,
    /// The time of the writes, in seconds.
    pub now: u64,
}

impl<'a, M: Meta, B: Block + Drop> Work<M, B> for Rename<'a> {
    ghost use Rattle.std.specs.Prelude.{◌≡◌, MatchResult};
    ghost use Rattle.flash_volume.specs.Worked.{IsOfCall};
    ghost use Rattle.geometry.specs.Shape.{block_bytes};
    ghost use Rattle.named_files.specs.Files.{WasRenamed};

    type Output = Result<(), NameRefusal>;

    // The file has the new name, and no file changes but the folder; or nothing does.
    ghost post = { λ rename geometry before output after. MatchResult output
        (λ _. WasRenamed (block_bytes geometry.shape) rename.name.now rename.to.now before after)
        (λ refusal. after ≡ before) };

    ghost failed = { λ rename geometry before error. IsOfCall error };

    fn run<V: VolumeName, R: Wait>(
        self,
        rt: &R,
        alloc: Global,
        volume: &Volume<V, M, B>,
        rights: &mut Rights<V>,
    ) -> Result<Result<(), NameRefusal>, Error> {
        if !is_name(self.to) {
            return Ok(Err(NameRefusal::BadName));
        }
        let passes = rights.passes.as_slice();
        let found = match find_named(rt, alloc, volume, passes, self.name)? {
            Ok(found) => found,
            Err(refusal) => return Ok(Err(refusal)),
        };
        let NamedRow { mut entries, row } = found;
        if row_at(entries.as_slice(), self.to).is_some() {
            return Ok(Err(NameRefusal::NameTaken));
        }
        rename_row(alloc, entries.as_mut_slice(), row, self.to)?;
        let passes = rights.passes.as_mut_slice();
        write_folder(rt, alloc, volume, passes, entries.as_slice(), self.now)?;
        Ok(Ok(()))
    }
}
