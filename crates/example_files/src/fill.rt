//! A work that writes: it makes a file for each letter, of one block that is full of it.
use flash_volume::{Block, Error, Kind, Meta, Rights, Volume, VolumeName, Work};
use std::alloc::Global;
use std::sync::Wait;

#[derive(Drop)]
pub struct Fill(pub &'static [u8]);

impl<M: Meta, B: Block + Drop> Work<M, B> for Fill {
    type Output = ();

    fn run<V: VolumeName, R: Wait>(
        self,
        rt: &R,
        alloc: Global,
        volume: &Volume<V, M, B>,
        rights: &mut Rights<V>,
    ) -> Result<(), Error> {
        for letter in self.0 {
            let mut pass = volume.create(rt, Kind::File)?;
            let block = vec![in alloc; *letter; volume.geometry().shape.block_bytes() as usize]?;
            volume.write(rt, &mut pass, 0, block.as_slice(), 0)?; // the time of the write is 0
            rights.passes.push(pass)?;
        }
        let _stored = volume.sync(rt, &[])?;
        Ok(())
    }
}
