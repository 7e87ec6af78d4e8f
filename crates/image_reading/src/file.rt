//! An image file of the system.
ghost use Rattle.std.specs.Prelude.{◌≡◌, [], ◌∷◌, IfOk, OnOk, OnErr};

use crate::seen::SeenBytes;
use device::log::History;
use std::fs::File;
use std::io;
use std::os::unix::fs::FileExt;

/// A file of the system that is read as an image, and what it answered so far, for the proofs alone: each part that was read of
/// it, with its place, and each length.
#[derive(Drop)]
pub struct FileSource {
    file: File,
    pub(crate) reads: History<u64, SeenBytes>,
    pub(crate) sizes: History<u64, ()>,
}

impl FileSource {
    /// A file, of which nothing was read.
    pub fn of(file: File) -> FileSource
        ensures reads { result.reads.items ≡ [] }
        ensures sizes { result.sizes.items ≡ [] }
    {
        let reads = History::new();
        let sizes = History::new();
        FileSource { file, reads, sizes }
    }

    // Asks the system for its length, and keeps the answer.
    pub(crate) fn ask_size(&mut self) -> io::Result<u64>
        ensures told { IfOk result (λ size. self.new.sizes.items ≡ (size, tt) ∷ self.old.sizes.items) }
        ensures failed { OnErr result (self.new.sizes.items ≡ self.old.sizes.items) }
        ensures reads { self.new.reads.items ≡ self.old.reads.items }
    {
        let size = self.file.metadata()?.len();
        self.sizes = self.sizes.and(&size, &());
        Ok(size)
    }

    // Asks the system for the bytes at a place, and keeps the answer.
    pub(crate) fn ask_part(&mut self, at: u64, out: &mut [u8]) -> io::Result<()>
        ensures read { OnOk result (self.new.reads.items ≡ (at, record { items = out.new }) ∷ self.old.reads.items) }
        ensures failed { OnErr result (self.new.reads.items ≡ self.old.reads.items) }
        ensures sizes { self.new.sizes.items ≡ self.old.sizes.items }
    {
        self.file.read_exact_at(out, at)?;
        self.reads = self.reads.and(&at, &SeenBytes::of(out));
        Ok(())
    }
}
