//! The calls that change a file. Each has a permit for its whole length, and gives it back with nothing in hand.
ghost use Rattle.std.specs.Prelude.{◌≡◌, ◌≢◌, ◌<◌, ◌≤◌, ◌↔◌, ◌⊎◌, length, OnOk, OnErr, IfOk, IfErr, IsErrOf};
ghost use Rattle.geometry.specs.Refusals.{IsOfPut, IsOfWrite};
ghost use Rattle.geometry.specs.declared.error.Error.TheVariants.{NoMemory, NoFile, TooFar, BadLength, Wounded};
ghost use Rattle.geometry.specs.File.{new_file, written, cut_to, erased};
ghost use Rattle.geometry.specs.Path.{largest_length};
ghost use Rattle.geometry.specs.Shape.{block_bytes};
ghost use Rattle.rights_permits.specs.Turns.{at_home};

use crate::volume::Volume;
use device::{Block, Meta};
use file_cells::{FilePass, NewBlock};
use geometry::{Error, Kind};
use rights_books::CallAccount;
use rights_permits::VolumeName;
use std::sync::Wait;

impl<V: VolumeName, M: Meta, B: Block + Drop> Volume<V, M, B> {
    /// Makes an empty file, and its pass. Inode numbers are tried in ascending order.
    ///
    /// Answers Wounded where a checkpoint failed while it was written, then NoFile where every inode number was seen taken,
    /// and NoMemory where a growth was refused.
    pub fn create<R: Wait>(&self, rt: &R, kind: Kind) -> Result<FilePass<V>, Error>
        ensures file { IfOk result (λ pass. pass.file ≡ new_file kind) }
        ensures error { IfErr result (λ error. (error ≡ Wounded) ⊎ ((error ≡ NoFile) ⊎ (error ≡ NoMemory))) }
    {
        let mut permit = self.area.turnstile().enter(rt)?;
        let made = self.create_by(rt, &mut permit.hand, kind);
        self.area.turnstile().leave(rt, permit);
        made
    }

    fn create_by<R: Wait>(
        &self,
        rt: &R,
        hand: &mut CallAccount,
        kind: Kind,
    ) -> Result<FilePass<V>, Error>
        requires hand { hand.old ≡ at_home V.Books.books.book }
        ensures hand { hand.new ≡ hand.old }
        ensures file { IfOk result (λ pass. pass.file ≡ new_file kind) }
        ensures error { IfErr result (λ error. (error ≡ NoFile) ⊎ (error ≡ NoMemory)) }
    {
        let token = self.area.new_inode(rt, hand)?;
        let mut cell = self.lock_file(rt, token.number());
        let made = cell.begin(rt, self.alloc, &self.area, hand, kind, token)?;
        Ok(made)
    }

    /// Writes a block of a file at an index: the bytes are appended to a log, and the block that stood there is given back.
    ///
    /// Answers BadLength where the bytes are not one block, then TooFar where the index is at or past the largest length, then
    /// Wounded where a checkpoint failed while it was written, then NoMemory where a growth was refused, NoNode where a node is
    /// missing on the way and every number was seen taken, NoSpace where the log is full and no segment was free or could be
    /// threaded, or, by the careful rule, where the next checkpoint could lack places for its nodes (see `area::HoleReuse`), or
    /// Device where the device failed. After each of them the file is as before.
    pub fn write<R: Wait>(
        &self,
        rt: &R,
        pass: &mut FilePass<V>,
        index: u32,
        bytes: &[u8],
        now: u64,
    ) -> Result<(), Error>
        ensures file { OnOk result (pass.new ≡ record pass.old { file = written pass.old.file index bytes.now }) }
        ensures err { OnErr result (pass.new ≡ pass.old) }
        ensures bad_length { IsErrOf result BadLength ↔ (length bytes.now ≢ block_bytes V.Numbers.geometry.shape) }
        ensures too_far { IsErrOf result TooFar ↔ ((length bytes.now ≡ block_bytes V.Numbers.geometry.shape) × (largest_length V.Numbers.geometry.shape ≤ index)) }
        ensures error { IfErr result (λ error. (error ≡ BadLength) ⊎ IsOfWrite error) }
    {
        let shape = self.area.geometry().shape;
        if bytes.len() != shape.block_bytes() as usize {
            return Err(Error::BadLength);
        }
        if index >= shape.largest_length() {
            return Err(Error::TooFar);
        }
        let number = pass.number();
        let mut permit = self.area.turnstile().enter_by(rt, number)?;
        let block = NewBlock {
            index,
            bytes,
            time: now,
        };
        let done = self.write_by(rt, &mut permit.hand, pass, &block);
        self.area.turnstile().leave_by(rt, number, permit);
        done
    }

    fn write_by<R: Wait>(
        &self,
        rt: &R,
        hand: &mut CallAccount,
        pass: &mut FilePass<V>,
        block: &NewBlock<'_>,
    ) -> Result<(), Error>
        requires hand { hand.old ≡ at_home V.Books.books.book }
        requires inside { block.now.index < largest_length V.Numbers.geometry.shape }
        requires bytes { length block.now.bytes.now ≡ block_bytes V.Numbers.geometry.shape }
        ensures hand { hand.new ≡ hand.old }
        ensures file { OnOk result (pass.new ≡ record pass.old { file = written pass.old.file block.now.index block.now.bytes.now }) }
        ensures err { OnErr result (pass.new ≡ pass.old) }
        ensures error { IfErr result IsOfPut }
    {
        let mut cell = self.lock_file(rt, pass.number());
        cell.write(rt, self.alloc, &self.area, hand, pass, block)
    }

    /// Cuts a file: its length becomes the lesser of `length`, in blocks, and itself, and what stood at or past it is given
    /// back. It takes no memory.
    ///
    /// The only error is Wounded, where a checkpoint failed while it was written; then the file is as before.
    pub fn cut<R: Wait>(&self, rt: &R, pass: &mut FilePass<V>, length: u32) -> Result<(), Error>
        ensures file { OnOk result (pass.new ≡ record pass.old { file = cut_to pass.old.file length }) }
        ensures err { OnErr result (pass.new ≡ pass.old) }
        ensures error { IfErr result (λ error. error ≡ Wounded) }
    {
        let number = pass.number();
        let mut permit = self.area.turnstile().enter_by(rt, number)?;
        self.cut_by(rt, &mut permit.hand, pass, length);
        self.area.turnstile().leave_by(rt, number, permit);
        Ok(())
    }

    fn cut_by<R: Wait>(&self, rt: &R, hand: &mut CallAccount, pass: &mut FilePass<V>, length: u32)
        requires hand { hand.old ≡ at_home V.Books.books.book }
        ensures hand { hand.new ≡ hand.old }
        ensures file { pass.new ≡ record pass.old { file = cut_to pass.old.file length } }
    {
        let mut cell = self.lock_file(rt, pass.number());
        cell.cut(rt, &self.area, hand, pass, length);
    }

    /// Gives back the blocks of a file at the indexes from `from` up to `to`, which is not among them: they become holes, which read as
    /// zeros, and the length stays. It takes no memory (Linux `fallocate(2)`, `FALLOC_FL_PUNCH_HOLE`).
    ///
    /// Nodes that keep some of their blocks are marked, and written by the next checkpoint; `checkpoint_room` tells whether they find
    /// places. The only error is Wounded, where a checkpoint failed while it was written; then the file is as before.
    pub fn erase<R: Wait>(
        &self,
        rt: &R,
        pass: &mut FilePass<V>,
        from: u32,
        to: u32,
    ) -> Result<(), Error>
        ensures file { OnOk result (pass.new ≡ record pass.old { file = erased pass.old.file from to }) }
        ensures err { OnErr result (pass.new ≡ pass.old) }
        ensures error { IfErr result (λ error. error ≡ Wounded) }
    {
        let number = pass.number();
        let mut permit = self.area.turnstile().enter_by(rt, number)?;
        self.erase_by(rt, &mut permit.hand, pass, from, to);
        self.area.turnstile().leave_by(rt, number, permit);
        Ok(())
    }

    fn erase_by<R: Wait>(
        &self,
        rt: &R,
        hand: &mut CallAccount,
        pass: &mut FilePass<V>,
        from: u32,
        to: u32,
    )
        requires hand { hand.old ≡ at_home V.Books.books.book }
        ensures hand { hand.new ≡ hand.old }
        ensures file { pass.new ≡ record pass.old { file = erased pass.old.file from to } }
    {
        let mut cell = self.lock_file(rt, pass.number());
        cell.erase(rt, &self.area, hand, pass, from, to);
    }

    /// Deletes a file, and spends its pass: all that the file has is given back, its inode's number too. It takes no memory.
    ///
    /// The only error is Wounded, where a checkpoint failed while it was written; then the pass is handed back as it was.
    pub fn delete<R: Wait>(&self, rt: &R, pass: FilePass<V>) -> Result<(), (FilePass<V>, Error)>
        ensures pass { IfErr result (λ fault. fault.0 ≡ pass) }
        ensures error { IfErr result (λ fault. fault.1 ≡ Wounded) }
    {
        let mut permit = match self.area.turnstile().enter(rt) {
            Ok(permit) => permit,
            Err(error) => return Err((pass, error)),
        };
        self.delete_by(rt, &mut permit.hand, pass);
        self.area.turnstile().leave(rt, permit);
        Ok(())
    }

    fn delete_by<R: Wait>(&self, rt: &R, hand: &mut CallAccount, pass: FilePass<V>)
        requires hand { hand.old ≡ at_home V.Books.books.book }
        ensures hand { hand.new ≡ hand.old }
    {
        let mut cell = self.lock_file(rt, pass.number());
        cell.end(rt, &self.area, hand, pass);
    }
}
