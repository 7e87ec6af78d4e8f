//! A work that reads: the first byte of each file.
use flash_volume::{Block, Error, Meta, Rights, Volume, VolumeName, Work};
use std::alloc::Global;
use std::sync::Wait;

#[derive(Drop)]
pub struct ReadAll;

impl<M: Meta, B: Block + Drop> Work<M, B> for ReadAll {
    ghost use Rattle.std.specs.Prelude.{◌≡◌};
    ghost use Rattle.flash_volume.specs.Worked.{IsOfCall};

    type Output = Vec<u8>;
    // It changes no file: the check proves that.
    ghost post = { λ work geometry before bytes after. after ≡ before };
    // It fails only as a call on the volume does.
    ghost failed = { λ work geometry before error. IsOfCall error };

    fn run<V: VolumeName, R: Wait>(
        self,
        rt: &R,
        alloc: Global,
        volume: &Volume<V, M, B>,
        rights: &mut Rights<V>,
    ) -> Result<Vec<u8>, Error> {
        let mut bytes = Vec::new(alloc);
        for pass in &rights.passes {
            let mut block = vec![in alloc; 0; volume.geometry().shape.block_bytes() as usize]?;
            volume.read(rt, pass, 0, block.as_mut_slice())?;
            bytes.push(block[0])?;
        }
        Ok(bytes)
    }
}
