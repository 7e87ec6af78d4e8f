//! A share of a session: what tasks name of it, on its own.
ghost use Rattle.std.specs.Prelude.{◌≡◌, length, IfOk, IfErr, OnOk, OnErr};
ghost use Rattle.geometry.specs.declared.error.Error.TheVariants.{NoMemory};
ghost use Rattle.program_run.specs.Files.{AreInOrder};
ghost use Rattle.program_run.specs.Share.{IsPutBack, IsShare};

use super::Session;
use crate::moves::{files_named, join_items, move_items, readers_named};
use crate::places::{no_items, place_passes};
use flash_volume::{Block, Error, Lent, Meta, VolumeName};
use program_script::WorkerTask;

impl<'a, V: VolumeName, M: Meta, B: Block + Drop> Session<'a, V, M, B> {
    /// A session over the same volume at the same time, to which the passes of the files and the readers move that these tasks
    /// name, where they are there. The only error is NoMemory, and then nothing has moved.
    pub fn take_share(&mut self, tasks: &[WorkerTask]) -> Result<Session<'a, V, M, B>, Error>
        ensures share { IfOk result (λ share. IsShare tasks.now self.old share self.new) }
        ensures error { IfErr result (λ error. error ≡ NoMemory) }
        ensures err { OnErr result (self.new ≡ self.old) }
    {
        let alloc = self.alloc;
        let files = files_named(alloc, tasks)?;
        let shown = readers_named(alloc, tasks)?;
        let block = vec![in alloc; 0; self.block.len()]?;
        let mut passes = no_items(alloc, self.passes.len())?;
        let mut readers = no_items(alloc, self.readers.len())?;
        move_items(&mut self.passes, &mut passes, files.as_slice());
        move_items(&mut self.readers, &mut readers, shown.as_slice());
        Ok(Session {
            volume: self.volume,
            seats: Vec::new(alloc),
            passes,
            readers,
            time: self.time,
            alloc,
            block,
        })
    }

    /// What a share handed on comes back to its places. The only error is NoMemory, and then nothing is back.
    pub fn put_back(&mut self, share: Lent<'a, V, B>) -> Result<(), Error>
        requires in_order { AreInOrder V.Numbers.geometry.files share.passes }
        requires readers { length share.readers ≡ length self.old.readers }
        ensures joined { OnOk result (IsPutBack V.Numbers.geometry self.old share.entry self.new) }
        ensures error { IfErr result (λ error. error ≡ NoMemory) }
        ensures err { OnErr result (self.new ≡ self.old) }
    {
        let (rights, readers) = share.split();
        let files = self.volume.geometry().files;
        let passes = place_passes(self.alloc, files, rights.passes)?;
        join_items(passes, &mut self.passes);
        join_items(readers, &mut self.readers);
        Ok(())
    }
}
