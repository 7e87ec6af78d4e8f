//! Writers over another one.
use std::io;
use std::io::Write;

/// Hands on a part of what is written: so many bytes behind so many. What comes behind the part is refused, so that nobody goes on for
/// nothing: no byte of it is taken.
#[derive(Drop)]
pub struct Window<'a, O> {
    pub out: &'a mut O,
    /// How many bytes are left out from now on.
    pub skip: u64,
    /// How many bytes behind these are handed on.
    pub left: u64,
}

impl<'a, O: Write> Write for Window<'a, O> {
    fn write(&mut self, bytes: &[u8]) -> io::Result<usize> {
        if self.skip > 0 {
            let skipped = self.skip.min(bytes.len() as u64);
            self.skip -= skipped;
            return Ok(skipped as usize);
        }
        let wanted = self.left.min(bytes.len() as u64);
        if wanted == 0 {
            return Ok(0);
        }
        let taken = self.out.write(&bytes[..wanted as usize])?;
        self.left = self.left.saturating_sub(taken as u64);
        Ok(taken)
    }

    fn flush(&mut self) -> io::Result<()> {
        self.out.flush()
    }
}

/// Hands on what is written until that fails, and then takes the rest and keeps the error: for who has to go on.
#[derive(Drop)]
pub struct Patient<'a, O> {
    pub out: &'a mut O,
    pub failed: Option<io::Error>,
}

impl<'a, O: Write> Patient<'a, O> {
    /// What failed first, if anything did.
    pub fn outcome(&self) -> io::Result<()> {
        match self.failed {
            Some(error) => Err(error),
            None => Ok(()),
        }
    }
}

impl<'a, O: Write> Write for Patient<'a, O> {
    fn write(&mut self, bytes: &[u8]) -> io::Result<usize> {
        if self.failed.is_none() {
            match self.out.write(bytes) {
                Ok(taken) => return Ok(taken),
                Err(error) => self.failed = Some(error),
            }
        }
        Ok(bytes.len())
    }

    fn flush(&mut self) -> io::Result<()> {
        if self.failed.is_none() {
            if let Err(error) = self.out.flush() {
                self.failed = Some(error);
            }
        }
        Ok(())
    }
}
