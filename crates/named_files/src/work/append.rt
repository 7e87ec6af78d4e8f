//! Bytes are put behind those that a file has.
ghost use Rattle.std.specs.Prelude.{◌≡◌, IfOk, IfErr};
ghost use Rattle.geometry.specs.Refusals.{IsOfRead};
ghost use Rattle.geometry.specs.Shape.{block_bytes};
ghost use Rattle.named_files.specs.Files.{IsRead};

use crate::content::read_all;
use crate::walk::{place_of, read_folder};
use crate::work::Put;
use flash_volume::{Block, Error, FilePass, Meta, Rights, Volume, VolumeName, Work};
use named_folder::row_at;
use named_reading::NameRefusal;
use std::alloc::Global;
use std::sync::Wait;

/// The file of a name gets these bytes behind those that it has. Answers its number. It is refused, and fails, as `Put` of all its bytes
/// is; and as NoSuchFile where the name is not there, as LostFile where its file is not.
#[derive(Clone, Copy, Drop)]
pub struct Append<'a> {
    pub name: &'a str,
    pub bytes: &'a [u8],
    /// The time of the writes, in seconds.
    pub now: u64,
}

impl<'a, M: Meta, B: Block + Drop> Work<M, B> for Append<'a> {
    ghost use Rattle.std.specs.Prelude.{◌≡◌, ◌++◌, ℕ, List, MatchResult};
    ghost use Rattle.flash_volume.specs.Worked.{IsOfCall};
    ghost use Rattle.geometry.specs.Shape.{block_bytes};
    ghost use Rattle.named_files.specs.Files.{IsRead, WasPut};

    type Output = Result<u32, NameRefusal>;

    // The file of the name has the bytes behind those that it had, and nothing else changes; or nothing does.
    ghost post = { λ append geometry before output after. MatchResult output
        (λ number. (front : List ℕ) × IsRead (block_bytes geometry.shape) append.name.now front before
        × WasPut (block_bytes geometry.shape) append.name.now (front ++ append.bytes.now) number before after)
        (λ refusal. after ≡ before) };

    ghost failed = { λ append geometry before error. IsOfCall error };

    fn run<V: VolumeName, R: Wait>(
        self,
        rt: &R,
        alloc: Global,
        volume: &Volume<V, M, B>,
        rights: &mut Rights<V>,
    ) -> Result<Result<u32, NameRefusal>, Error> {
        let passes = rights.passes.as_slice();
        let mut bytes = match read_named(rt, alloc, volume, passes, self.name)? {
            Ok(bytes) => bytes,
            Err(refusal) => return Ok(Err(refusal)),
        };
        bytes.extend_from_slice(self.bytes)?;
        let put = Put {
            name: self.name,
            bytes: bytes.as_slice(),
            replaces: true,
            now: self.now,
        };
        put.run(rt, alloc, volume, rights)
    }
}

// The bytes of the file of a name: as many as the folder tells. Answers NoMemory, or Device where the device failed.
fn read_named<V: VolumeName, M: Meta, B: Block + Drop, R: Wait>(
    rt: &R,
    alloc: Global,
    volume: &Volume<V, M, B>,
    passes: &[FilePass<V>],
    name: &str,
) -> Result<Result<Vec<u8>, NameRefusal>, Error>
    ensures read { IfOk result (λ found. IfOk found (λ bytes. IsRead (block_bytes V.Numbers.geometry.shape) name.now bytes.items passes.now)) }
    ensures error { IfErr result IsOfRead }
{
    let Some(entries) = read_folder(rt, alloc, volume, passes)? else {
        return Ok(Err(NameRefusal::NoFolder));
    };
    let held = entries.as_slice();
    let Some(row) = row_at(held, name) else {
        return Ok(Err(NameRefusal::NoSuchFile));
    };
    let entry = &held[row];
    let Some(place) = place_of(passes, entry.number) else {
        return Ok(Err(NameRefusal::LostFile));
    };
    let mut bytes = read_all(rt, alloc, volume, &passes[place])?;
    bytes.truncate(entry.bytes as usize);
    Ok(Ok(bytes))
}
