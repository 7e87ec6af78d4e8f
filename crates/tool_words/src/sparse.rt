//! A new file of the system's in which zeros take no room.
use std::fs::File;
use std::io;
use std::io::Write;
use std::os::unix::fs::FileExt;

/// A new file that is written from its front on. What is written at once and has no other byte than zeros is left out: it takes no room
/// on the disk, and reads as zeros once the file is settled.
#[derive(Drop)]
pub struct Sparse {
    file: File,
    /// How many bytes were written.
    length: u64,
}

impl Sparse {
    /// A file that has no byte yet.
    pub fn of(file: File) -> Sparse {
        Sparse { file, length: 0 }
    }

    /// Gives the file all bytes that were written, and settles them.
    pub fn settle(&self) -> io::Result<()> {
        self.file.set_len(self.length)?;
        self.file.sync_all()
    }
}

impl Write for Sparse {
    fn write(&mut self, bytes: &[u8]) -> io::Result<usize> {
        if bytes.iter().any(|byte| *byte != 0) {
            self.file.write_all_at(bytes, self.length)?;
        }
        self.length = self.length.saturating_add(bytes.len() as u64);
        Ok(bytes.len())
    }

    fn flush(&mut self) -> io::Result<()> {
        Ok(())
    }
}
