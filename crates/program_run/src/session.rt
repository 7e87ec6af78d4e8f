//! A volume under a script.
ghost use Rattle.std.specs.Prelude.{◌≡◌, ◌≢◌, ◌+◌, ◌-◌, ◌^◌, ◌<◌, length, min, IfOk, IfErr, OnErr};
ghost use Rattle.geometry.specs.declared.error.Error.TheVariants.{NoFile, NoMemory};
ghost use Rattle.geometry.specs.File.{bytes_at};
ghost use Rattle.geometry.specs.Shape.{block_bytes};
ghost use Rattle.cleaning.specs.Cleaning.{IsCleaned};
ghost use Rattle.file_cells.specs.Status.{all};
ghost use Rattle.program_run.specs.Contents.{content_of};
ghost use Rattle.program_run.specs.Files.{AreInOrder, ArePlaced, HasFile, HasReader, Lends, file_at, open_count, reader_at, shown_by};
ghost use Rattle.program_run.specs.Work.{IsClosed, IsCreated, IsCut, IsDeleted, IsFilled, IsFound, IsSynced, IsTaken, IsWritten};

mod share;

use crate::content::Content;
use crate::places::{
    count_there, fill_block, first_free, keep_passes, lend_all, place_of, place_passes,
    reader_place,
};
use crate::synced::Synced;
use flash_volume::{
    Block, Cleaned, Error, FilePass, Kind, Lent, Meta, Policy, Reader, Rights, Seat, Status,
    Volume, VolumeName,
};
use std::alloc::Global;
use std::marker::Model;
use std::sync::Wait;
use words::SEATS;

/// A volume with the passes of its files, the readers that were taken, and the time that a script has set. A caller
/// sees the volume's numbers, the time, the files and the readers.
#[derive(Drop)]
pub struct Session<'a, V: VolumeName, M: Meta, B: Block + Drop> {
    volume: &'a Volume<V, M, B>,
    // Those that no reader has.
    seats: Vec<Seat<V>>,
    // A place for each inode number, in order.
    passes: Vec<Option<FilePass<V>>>,
    // A place for each reader that was taken, in order.
    readers: Vec<Option<Reader<'a, V, B>>>,
    time: u64,
    alloc: Global,
    // The bytes of one block on their way.
    block: Vec<u8>,
}

impl<'a, V: VolumeName, M: Meta, B: Block + Drop> Model for Session<'a, V, M, B> {
    ghost use Rattle.std.specs.Prelude.{◌≡◌, length};
    ghost use Rattle.std.specs.Coded.{codes};
    ghost use Rattle.geometry.specs.File.{blocks_code};
    ghost use Rattle.geometry.specs.Shape.{block_bytes};
    ghost use Rattle.file_cells.specs.Reader.{segments_code};
    ghost use Rattle.program_run.specs.Files.{Files, ArePlaced};

    ghost Value = { Files };

    ghost coded = { Prim.hlevel (codes, blocks_code, segments_code) };

    ghost view = { λ s. record { geometry = V.Numbers.geometry; time = s.time; passes = s.passes.items; readers = s.readers.items } };

    ghost invariant = { λ s. ArePlaced (record { geometry = V.Numbers.geometry; time = s.time; passes = s.passes.items; readers = s.readers.items })
        × (length s.block.items ≡ block_bytes V.Numbers.geometry.shape) };
}

impl<'a, V: VolumeName, M: Meta, B: Block + Drop> Session<'a, V, M, B> {
    /// A session over a volume with the files and the readers that are lent, at a time. The only error is NoMemory.
    pub fn of(
        alloc: Global,
        volume: &'a Volume<V, M, B>,
        lent: Lent<'a, V, B>,
        time: u64,
    ) -> Result<Session<'a, V, M, B>, Error>
        requires in_order { AreInOrder V.Numbers.geometry.files lent.passes }
        ensures lends { IfOk result (λ session. Lends V.Numbers.geometry time session lent.entry) }
        ensures error { IfErr result (λ error. error ≡ NoMemory) }
    {
        let geometry = volume.geometry();
        let (Rights { seats, passes }, readers) = lent.split();
        let block = vec![in alloc; 0; geometry.shape.block_bytes() as usize]?;
        let passes = place_passes(alloc, geometry.files, passes)?;
        Ok(Session {
            volume,
            seats,
            passes,
            readers,
            time,
            alloc,
            block,
        })
    }

    /// The time that was set last.
    pub fn time(&self) -> u64
        ensures { result ≡ self.now.time }
    {
        self.time
    }

    /// Sets the time that later writes carry, and by which a section is chosen.
    pub fn set_time(&mut self, now: u64)
        ensures { self.new ≡ record self.old { time = now } }
    {
        self.time = now;
    }

    /// How many segments are in each state.
    pub fn status<R: Wait>(&self, rt: &R) -> Status
        ensures { all result ≡ self.now.geometry.segments }
    {
        self.volume.status(rt)
    }

    /// Makes a file, and answers its number, the least that is free.
    pub fn create<R: Wait>(&mut self, rt: &R, kind: Kind) -> Result<u32, Error>
        ensures { IsCreated self.old kind result self.new }
    {
        let free = first_free(&self.passes);
        match self.volume.create(rt, kind) {
            Ok(pass) => {
                if let Some(place) = free
                    && pass.number() as usize == place + 1
                {
                    self.passes[place] = Some(pass);
                    return Ok(place as u32 + 1);
                }
            }
            Err(error) => {
                if error != Error::NoFile || free.is_none() {
                    return Err(error);
                }
            }
        }
        // No contract of the volume tells which number a new file gets, nor when none is free, so both were compared with the
        // passes that are here. They always agree.
        for _ in rt.forever() {}
        unreachable!()
    }

    /// Writes a block of equal bytes at an index of a file.
    pub fn write<R: Wait>(&mut self, rt: &R, file: u32, index: u32, byte: u8) -> Result<(), Error>
        ensures { IsWritten self.old file index byte result self.new }
    {
        let place = place_of(&self.passes, file)?;
        fill_block(&mut self.block, byte);
        match &mut self.passes[place] {
            Some(pass) => self
                .volume
                .write(rt, pass, index, self.block.as_slice(), self.time),
            None => unreachable!(),
        }
    }

    /// Writes such a block at each index from `first` to the one before `last`, up to the first refusal.
    pub fn fill<R: Wait>(
        &mut self,
        rt: &R,
        file: u32,
        first: u32,
        last: u32,
        byte: u8,
    ) -> Result<(), Error>
        ensures { IsFilled self.old file first last byte result self.new }
    {
        place_of(&self.passes, file)?;
        for index in first..last {
            self.write(rt, file, index, byte)?;
        }
        Ok(())
    }

    /// What the block at an index of a file is. None at or past the file's length.
    pub fn read<R: Wait>(&mut self, rt: &R, file: u32, index: u32) -> Result<Option<Content>, Error>
        ensures found { IsFound self.old file index result }
        ensures same { self.new ≡ self.old }
    {
        let place = place_of(&self.passes, file)?;
        let block = self.block.as_mut_slice();
        match &self.passes[place] {
            Some(pass) => {
                if self.volume.read(rt, pass, index, block)? {
                    Ok(Some(Content::of(block)))
                } else {
                    Ok(None)
                }
            }
            None => unreachable!(),
        }
    }

    /// Cuts a file to a length in blocks.
    pub fn cut<R: Wait>(&mut self, rt: &R, file: u32, length: u32) -> Result<(), Error>
        ensures { IsCut self.old file length result self.new }
    {
        let place = place_of(&self.passes, file)?;
        match &mut self.passes[place] {
            Some(pass) => self.volume.cut(rt, pass, length),
            None => unreachable!(),
        }
    }

    /// Deletes a file. Its number is free again.
    pub fn delete<R: Wait>(&mut self, rt: &R, file: u32) -> Result<(), Error>
        ensures { IsDeleted self.old file result self.new }
    {
        let place = place_of(&self.passes, file)?;
        match self.passes[place].take() {
            Some(pass) => match self.volume.delete(rt, pass) {
                Ok(()) => Ok(()),
                Err((pass, error)) => {
                    self.passes[place] = Some(pass);
                    Err(error)
                }
            },
            None => unreachable!(),
        }
    }

    /// Chooses a section by the policy, and moves its valid blocks.
    pub fn clean<R: Wait>(&self, rt: &R, policy: Policy) -> Result<Cleaned, Error>
        ensures cleaned { IfOk result (λ c. IsCleaned self.now.geometry policy self.now.time c.rows.items c.section c.moved c.gone) }
        ensures error { IfErr result (λ error. error ≢ NoFile) }
    {
        self.volume.clean(rt, policy, self.time)
    }

    /// Writes a checkpoint, and lends the passes of all files to it.
    pub fn sync<R: Wait>(&self, rt: &R) -> Result<Synced, Error>
        ensures { IsSynced self.now result }
    {
        let passes = lend_all(self.alloc, self.passes.as_slice())?;
        let stored = self.volume.sync(rt, passes.as_slice())?;
        let tables = stored.tables();
        Ok(Synced {
            version: tables.version,
            total: tables.total,
            free: stored.free(),
        })
    }

    /// Takes a reader of a file as it is now, and answers its number. Answers SeatsOut with all seats where none is left.
    pub fn snap<R: Wait>(&mut self, rt: &R, file: u32) -> Result<usize, Error>
        ensures { IsTaken self.old file result self.new }
    {
        let place = place_of(&self.passes, file)?;
        self.readers.reserve(1)?;
        let Some(seat) = self.seats.pop() else {
            return Err(Error::SeatsOut(SEATS));
        };
        match &self.passes[place] {
            Some(pass) => match self.volume.snapshot(rt, pass, seat) {
                Ok(reader) => {
                    self.readers.push_reserved(Some(reader));
                    Ok(self.readers.len())
                }
                Err((seat, error)) => {
                    self.seats.push_reserved(seat);
                    Err(error)
                }
            },
            None => unreachable!(),
        }
    }

    /// The length in blocks of the file that a reader shows. The only error is NoFile, where no such reader is open.
    pub fn shown_length(&self, reader: u32) -> Result<u32, Error>
        ensures length { IfOk result (λ length. HasReader self.now reader × (length ≡ (shown_by (reader_at self.now reader)).length)) }
        ensures error { IfErr result (λ error. error ≡ NoFile) }
        ensures none { OnErr result (¬ (HasReader self.now reader)) }
    {
        let place = reader_place(&self.readers, reader)?;
        match &self.readers[place] {
            Some(reader) => Ok(reader.length()),
            None => unreachable!(),
        }
    }

    /// What the block at an index of the file is that a reader shows.
    pub fn look(&mut self, reader: u32, index: u32) -> Content
        requires there { HasReader self.old reader }
        requires below { index < (shown_by (reader_at self.old reader)).length }
        ensures content { result ≡ content_of (bytes_at (block_bytes self.old.geometry.shape) (shown_by (reader_at self.old reader)) index) }
        ensures same { self.new ≡ self.old }
    {
        let block = self.block.as_mut_slice();
        match &self.readers[reader as usize - 1] {
            Some(reader) => {
                reader.block(index, block);
                Content::of(block)
            }
            None => unreachable!(),
        }
    }

    /// Closes a reader, whose seat serves for the next.
    pub fn close(&mut self, reader: u32) -> Result<(), Error>
        ensures { IsClosed self.old reader result self.new }
    {
        let place = reader_place(&self.readers, reader)?;
        self.seats.reserve(1)?;
        match self.readers[place].take() {
            Some(reader) => {
                self.seats.push_reserved(reader.close());
                Ok(())
            }
            None => unreachable!(),
        }
    }

    /// How many readers are open, or the largest number there is where they are more.
    pub fn open_readers(&self) -> u32
        ensures { result ≡ min (open_count self.now.readers) (2 ^ 32 - 1) }
    {
        count_there(self.readers.as_slice())
    }

    /// Hands on what the session has: the passes in the order of their numbers, and the readers. The only error is NoMemory.
    pub fn end(self) -> Result<Lent<'a, V, B>, Error>
        ensures lends { IfOk result (Lends V.Numbers.geometry self.entry.time self.entry) }
        ensures error { IfErr result (λ error. error ≡ NoMemory) }
    {
        let Session {
            volume: _,
            seats,
            passes,
            readers,
            time: _,
            alloc,
            block: _,
        } = self;
        let passes = keep_passes(alloc, passes)?;
        Ok(Lent::new(Rights { seats, passes }, readers))
    }
}
