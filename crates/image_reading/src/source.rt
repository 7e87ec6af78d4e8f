//! Where the bytes of an image file are read.
ghost use Rattle.std.specs.Prelude.{◌≡◌, ℕ, List, length, IfOk, OnOk};
ghost use Rattle.device.specs.Disk.{part};
ghost use Rattle.image_reading.specs.Told.{HaveLengths, HaveParts, Narrows};

use crate::file::FileSource;
use std::io;

/// Where the bytes of an image file are read, at any place. What a source shows are the bytes that all of its answers so far are
/// true of; each further answer leaves fewer of them, and a call that fails no more.
pub trait ImageSource {
    /// All that it answered is true of these bytes.
    ghost shows: { Self → List ℕ → Type 0 };

    /// How many bytes there are.
    fn size(&mut self) -> io::Result<u64>
        ensures told { IfOk result (λ size. (bytes : List ℕ) → shows self.new bytes → length bytes ≡ size) }
        ensures kept { Narrows (shows self.old) (shows self.new) };

    /// Reads the bytes from a place on, as many as find room.
    fn read_at(&mut self, at: u64, out: &mut [u8]) -> io::Result<()>
        ensures read { OnOk result ((bytes : List ℕ) → shows self.new bytes → out.new ≡ part at (length out.old) bytes) }
        ensures kept { Narrows (shows self.old) (shows self.new) };
}

impl ImageSource for FileSource {
    // No contract tells what a file of the system gives: these are any bytes of which it gave those parts and that length.
    ghost shows = { λ source bytes. HaveParts source.reads.items bytes × HaveLengths source.sizes.items bytes };

    fn size(&mut self) -> io::Result<u64> {
        self.ask_size()
    }

    fn read_at(&mut self, at: u64, out: &mut [u8]) -> io::Result<()> {
        self.ask_part(at, out)
    }
}

impl ImageSource for &[u8] {
    ghost shows = { λ file bytes. file.now ≡ bytes };

    fn size(&mut self) -> io::Result<u64> {
        Ok(self.len() as u64)
    }

    fn read_at(&mut self, at: u64, out: &mut [u8]) -> io::Result<()> {
        let file: &[u8] = *self;
        let at = at as usize;
        if at > file.len() || file.len() - at < out.len() {
            return Err(io::Error::from(io::ErrorKind::UnexpectedEof));
        }
        out.copy_from_slice(&file[at..at + out.len()]);
        Ok(())
    }
}
