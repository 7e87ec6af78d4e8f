//! The calls of one worker, which go through a gate.
ghost use Rattle.std.specs.Prelude.{◌≡◌};
ghost use Rattle.program_run.specs.Work.{IsCut, IsFilled, IsFound, IsSynced, IsTidied, IsWritten};

use crate::gate::Gate;
use crate::{Content, Session, Synced, policy_of};
use flash_volume::{Block, Cleaned, Error, Meta, VolumeName};
use program_script::Cleaning;
use std::sync::Wait;

/// A worker with the number of the calls that it has made.
#[derive(Drop)]
pub(crate) struct Calls<'g, G: Gate> {
    gate: &'g G,
    pub(crate) worker: usize,
    count: u64,
}

impl<'g, G: Gate> Calls<'g, G> {
    /// A worker that has made no call.
    pub(crate) fn new(gate: &'g G, worker: usize) -> Calls<'g, G>
        ensures { result.worker ≡ worker }
    {
        Calls {
            gate,
            worker,
            count: 0,
        }
    }

    /// The worker is about to make its next call.
    pub(crate) fn begin(&mut self)
        ensures { self.new.worker ≡ self.old.worker }
    {
        self.count = self.count.saturating_add(1);
        self.gate.before(self.worker, self.count);
    }

    /// The call has answered.
    pub(crate) fn end(&self) {
        self.gate.after(self.worker, self.count);
    }

    /// Writes a block of equal bytes at an index of a file.
    pub(crate) fn write<V: VolumeName, M: Meta, B: Block + Drop, R: Wait>(
        &mut self,
        rt: &R,
        share: &mut Session<'_, V, M, B>,
        file: u32,
        index: u32,
        byte: u8,
    ) -> Result<(), Error>
        ensures worker { self.new.worker ≡ self.old.worker }
        ensures written { IsWritten share.old file index byte result share.new }
    {
        self.begin();
        let written = share.write(rt, file, index, byte);
        self.end();
        written
    }

    /// Writes such a block at each index from `first` to the one before `last`, up to the first refusal.
    pub(crate) fn fill<V: VolumeName, M: Meta, B: Block + Drop, R: Wait>(
        &mut self,
        rt: &R,
        share: &mut Session<'_, V, M, B>,
        file: u32,
        first: u32,
        last: u32,
        byte: u8,
    ) -> Result<(), Error>
        ensures worker { self.new.worker ≡ self.old.worker }
        ensures filled { IsFilled share.old file first last byte result share.new }
    {
        // To fill no index is refused where there is no such file, and makes no call of the volume.
        share.fill(rt, file, first, first, byte)?;
        for index in first..last {
            self.write(rt, share, file, index, byte)?;
        }
        Ok(())
    }

    /// What the block at an index of a file is.
    pub(crate) fn read<V: VolumeName, M: Meta, B: Block + Drop, R: Wait>(
        &mut self,
        rt: &R,
        share: &mut Session<'_, V, M, B>,
        file: u32,
        index: u32,
    ) -> Result<Option<Content>, Error>
        ensures worker { self.new.worker ≡ self.old.worker }
        ensures found { IsFound share.old file index result }
        ensures same { share.new ≡ share.old }
    {
        self.begin();
        let read = share.read(rt, file, index);
        self.end();
        read
    }

    /// Cuts a file to a length in blocks.
    pub(crate) fn cut<V: VolumeName, M: Meta, B: Block + Drop, R: Wait>(
        &mut self,
        rt: &R,
        share: &mut Session<'_, V, M, B>,
        file: u32,
        length: u32,
    ) -> Result<(), Error>
        ensures worker { self.new.worker ≡ self.old.worker }
        ensures cut { IsCut share.old file length result share.new }
    {
        self.begin();
        let cut = share.cut(rt, file, length);
        self.end();
        cut
    }

    /// Cleans a section.
    pub(crate) fn clean<V: VolumeName, M: Meta, B: Block + Drop, R: Wait>(
        &mut self,
        rt: &R,
        share: &Session<'_, V, M, B>,
        cleaning: Cleaning,
    ) -> Result<Cleaned, Error>
        ensures worker { self.new.worker ≡ self.old.worker }
        ensures tidied { IsTidied share.now cleaning result }
    {
        self.begin();
        let cleaned = share.clean(rt, policy_of(cleaning));
        self.end();
        cleaned
    }

    /// Writes a checkpoint, and lends the passes of the share to it.
    pub(crate) fn sync<V: VolumeName, M: Meta, B: Block + Drop, R: Wait>(
        &mut self,
        rt: &R,
        share: &Session<'_, V, M, B>,
    ) -> Result<Synced, Error>
        ensures worker { self.new.worker ≡ self.old.worker }
        ensures synced { IsSynced share.now result }
    {
        self.begin();
        let synced = share.sync(rt);
        self.end();
        synced
    }
}
