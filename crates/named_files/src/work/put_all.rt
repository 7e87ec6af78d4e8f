//! Files get their bytes, one after the other, and the folder its rows once.
ghost use Rattle.std.specs.Prelude.{◌≡◌, ◌≤◌, All, length, map, take, IfOk, IfErr};
ghost use Rattle.flash_volume.specs.Worked.{IsOfCall};
ghost use Rattle.geometry.specs.Shape.{block_bytes};
ghost use Rattle.named_files.specs.Files.{IsThere};
ghost use Rattle.named_files.specs.Many.{WereEntered};
ghost use Rattle.named_folder.specs.Folder.{IsRow};
ghost use Rattle.named_folder.specs.Rows.{row_of};

use crate::walk::{read_rows, write_folder};
use crate::work::put::{Put, enter_file};
use flash_volume::{Block, Error, FilePass, Meta, Rights, Volume, VolumeName, Work};
use named_folder::FolderRow;
use named_reading::NameRefusal;
use std::alloc::Global;
use std::cell::Cell;
use std::sync::Wait;

/// A file that is to be put: its name and its bytes.
#[derive(Clone, Copy, Drop)]
pub struct NewFile<'a> {
    pub name: &'a str,
    pub bytes: &'a [u8],
}

/// Puts files one after the other, each as `Put`, and writes the folder once behind them. Where one is refused it ends, and those before
/// it are put.
///
/// An error gives the volume up: then a later run finds what it was, with none of them. `count` is then how many had their bytes before.
#[derive(Clone, Copy, Drop)]
pub struct PutAll<'a, 'b, 'c> {
    pub files: &'a [NewFile<'b>],
    /// How many have their bytes so far. No contract speaks of it.
    pub count: &'c Cell<usize>,
    /// The time of the writes, in seconds.
    pub now: u64,
}

impl<'a, 'b, 'c, M: Meta, B: Block + Drop> Work<M, B> for PutAll<'a, 'b, 'c> {
    ghost use Rattle.std.specs.Prelude.{◌≡◌, ℕ, MatchResult, take};
    ghost use Rattle.flash_volume.specs.Worked.{IsOfCall};
    ghost use Rattle.geometry.specs.Shape.{block_bytes};
    ghost use Rattle.named_files.specs.Many.{WerePut};

    type Output = Result<(), NameRefusal>;

    // The files are put, one after the other, and nothing else changes; or those in front of the one that was refused.
    ghost post = { λ put geometry before output after. MatchResult output
        (λ _. WerePut (block_bytes geometry.shape) put.files.now before after)
        (λ refusal. (count : ℕ) × WerePut (block_bytes geometry.shape) (take count put.files.now) before after) };

    ghost failed = { λ put geometry before error. IsOfCall error };

    fn run<V: VolumeName, R: Wait>(
        self,
        rt: &R,
        alloc: Global,
        volume: &Volume<V, M, B>,
        rights: &mut Rights<V>,
    ) -> Result<Result<(), NameRefusal>, Error> {
        let mut entries = match read_rows(rt, alloc, volume, rights.passes.as_slice())? {
            Ok(entries) => entries,
            Err(refusal) => return Ok(Err(refusal)),
        };
        let entered = enter_all(rt, alloc, volume, &mut rights.passes, &mut entries, self)?;
        if entered.files == 0 {
            return Ok(entered.outcome);
        }
        let passes = rights.passes.as_mut_slice();
        write_folder(rt, alloc, volume, passes, entries.as_slice(), self.now)?;
        Ok(entered.outcome)
    }
}

// How many files were put whose rows the folder is to have, and whether these are all or the next was refused.
#[derive(Drop)]
struct Entered {
    files: usize,
    outcome: Result<(), NameRefusal>,
}

// Puts files, and leaves the folder's file as it is: it is to be written from the rows.
fn enter_all<V: VolumeName, M: Meta, B: Block + Drop, R: Wait>(
    rt: &R,
    alloc: Global,
    volume: &Volume<V, M, B>,
    passes: &mut Vec<FilePass<V>>,
    entries: &mut Vec<FolderRow>,
    work: PutAll<'_, '_, '_>,
) -> Result<Entered, Error>
    requires rows { All IsRow (map row_of entries.old.items) }
    requires folder { IsThere passes.old.items 1 }
    requires there { All (λ row. IsThere passes.old.items row.number) (map row_of entries.old.items) }
    ensures entered { IfOk result (λ entered. WereEntered (block_bytes V.Numbers.geometry.shape) (take entered.files work.entry.files.now) (map row_of entries.old.items) (map row_of entries.new.items) passes.old.items passes.new.items) }
    ensures few { IfOk result (λ entered. entered.files ≤ length work.entry.files.now) }
    ensures all { IfOk result (λ entered. IfOk entered.outcome (λ done. entered.files ≡ length work.entry.files.now)) }
    ensures rows { IfOk result (λ entered. All IsRow (map row_of entries.new.items)) }
    ensures error { IfErr result IsOfCall }
{
    for (index, file) in work.files.iter().enumerate() {
        let put = Put {
            name: file.name,
            bytes: file.bytes,
            replaces: true,
            now: work.now,
        };
        match enter_file(rt, alloc, volume, passes, entries, put)? {
            Ok(_) => work.count.set(work.count.get().saturating_add(1)),
            Err(refusal) => {
                return Ok(Entered {
                    files: index,
                    outcome: Err(refusal),
                });
            }
        }
    }
    Ok(Entered {
        files: work.files.len(),
        outcome: Ok(()),
    })
}
