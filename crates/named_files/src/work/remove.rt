//! A file goes, with its name or before it.
ghost use Rattle.std.specs.Prelude.{◌≡◌, ◌≢◌, ℕ, None, IfErr, IfOk, OnOk, map};
ghost use Rattle.flash_volume.specs.Worked.{IsOfCall};
ghost use Rattle.geometry.specs.Shape.{block_bytes};
ghost use Rattle.named_files.specs.Files.{file_at, WasTaken};
ghost use Rattle.named_folder.specs.Rows.{row_of};

use crate::walk::{NamedRow, find_named, place_of, write_folder};
use flash_volume::{Block, Error, FilePass, Meta, Rights, Volume, VolumeName, Work};
use named_folder::{FolderRow, take_row};
use named_reading::NameRefusal;
use std::alloc::Global;
use std::sync::Wait;

/// Removes a name from the folder, and deletes its file.
#[derive(Clone, Copy, Drop)]
pub struct Remove<'a> {
    pub name: &'a str,
    /// The time of the writes, in seconds.
    pub now: u64,
}

impl<'a, M: Meta, B: Block + Drop> Work<M, B> for Remove<'a> {
    ghost use Rattle.std.specs.Prelude.{◌≡◌, MatchResult};
    ghost use Rattle.flash_volume.specs.Worked.{IsOfCall};
    ghost use Rattle.geometry.specs.Shape.{block_bytes};
    ghost use Rattle.named_files.specs.Files.{WasRemoved};

    type Output = Result<(), NameRefusal>;

    // The name is gone and its file too, and no other file changes; or nothing does.
    ghost post = { λ remove geometry before output after. MatchResult output
        (λ _. WasRemoved (block_bytes geometry.shape) remove.name.now before after)
        (λ refusal. after ≡ before) };

    ghost failed = { λ remove geometry before error. IsOfCall error };

    fn run<V: VolumeName, R: Wait>(
        self,
        rt: &R,
        alloc: Global,
        volume: &Volume<V, M, B>,
        rights: &mut Rights<V>,
    ) -> Result<Result<(), NameRefusal>, Error> {
        let entries = match take_named(rt, alloc, volume, &mut rights.passes, self.name)? {
            Ok(entries) => entries,
            Err(refusal) => return Ok(Err(refusal)),
        };
        let passes = rights.passes.as_mut_slice();
        write_folder(rt, alloc, volume, passes, entries.as_slice(), self.now)?;
        Ok(Ok(()))
    }
}

/// Deletes the file of a name, and leaves the name: it takes no room, and what the file had comes free with the next checkpoint. Then
/// `Remove` takes the name away.
#[derive(Clone, Copy, Drop)]
pub struct DeleteFile<'a> {
    pub name: &'a str,
}

impl<'a, M: Meta, B: Block + Drop> Work<M, B> for DeleteFile<'a> {
    ghost use Rattle.std.specs.Prelude.{◌≡◌, MatchResult};
    ghost use Rattle.flash_volume.specs.Worked.{IsOfCall};
    ghost use Rattle.geometry.specs.Shape.{block_bytes};
    ghost use Rattle.named_files.specs.Files.{WasDeleted};

    type Output = Result<(), NameRefusal>;

    // It fails only as a call on the volume may.
    ghost failed = { λ work geometry before error. IsOfCall error };

    // The name's file is gone, and no other changes, the folder neither; or nothing does.
    ghost post = { λ work geometry before output after. MatchResult output
        (λ _. WasDeleted (block_bytes geometry.shape) work.name.now before after)
        (λ refusal. after ≡ before) };

    fn run<V: VolumeName, R: Wait>(
        self,
        rt: &R,
        alloc: Global,
        volume: &Volume<V, M, B>,
        rights: &mut Rights<V>,
    ) -> Result<Result<(), NameRefusal>, Error> {
        match take_named(rt, alloc, volume, &mut rights.passes, self.name)? {
            Ok(_left) => Ok(Ok(())),
            Err(refusal) => Ok(Err(refusal)),
        }
    }
}

// Deletes the file of a name, and answers the rows of the folder without the name's. The folder's file is left as it is.
fn take_named<V: VolumeName, M: Meta, B: Block + Drop, R: Wait>(
    rt: &R,
    alloc: Global,
    volume: &Volume<V, M, B>,
    passes: &mut Vec<FilePass<V>>,
    name: &str,
) -> Result<Result<Vec<FolderRow>, NameRefusal>, Error>
    ensures taken { IfOk result (λ answer. IfOk answer (λ left. WasTaken (block_bytes V.Numbers.geometry.shape) name.now passes.old.items passes.new.items (map row_of left.items))) }
    ensures refused { IfOk result (λ answer. IfErr answer (λ refusal. passes.new ≡ passes.old)) }
    ensures error { IfErr result IsOfCall }
{
    let found = match find_named(rt, alloc, volume, passes.as_slice(), name)? {
        Ok(found) => found,
        Err(refusal) => return Ok(Err(refusal)),
    };
    let NamedRow { mut entries, row } = found;
    let number = take_row(&mut entries, row);
    delete_file(rt, volume, passes, number)?;
    Ok(Ok(entries))
}

// Deletes the file of a number, where there is one.
fn delete_file<V: VolumeName, M: Meta, B: Block + Drop, R: Wait>(
    rt: &R,
    volume: &Volume<V, M, B>,
    passes: &mut Vec<FilePass<V>>,
    number: u32,
) -> Result<(), Error>
    ensures others { OnOk result ((n : ℕ) → n ≢ number → file_at n passes.new.items ≡ file_at n passes.old.items) }
    ensures gone { OnOk result (file_at number passes.new.items ≡ None) }
    ensures error { IfErr result IsOfCall }
{
    let Some(place) = place_of(passes.as_slice(), number) else {
        return Ok(());
    };
    let pass = passes.remove(place);
    if let Err((_pass, error)) = volume.delete(rt, pass) {
        return Err(error);
    }
    match place_of(passes.as_slice(), number) {
        // Nothing says that the passes are of different files, so it is looked at; no other pass has the number.
        Some(_) => Err(Error::NoFile),
        None => Ok(()),
    }
}
