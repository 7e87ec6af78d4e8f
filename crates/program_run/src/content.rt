//! What is told of a block.
ghost use Rattle.std.specs.Prelude.{◌≡◌, ◌<◌, length, OnOk};
ghost use Rattle.std.specs.Io.KnownBytes.{Appends};
ghost use Rattle.program_run.specs.Contents.{content_of};
ghost use Rattle.program_run.specs.Lines.{content_text};

use std::io;
use std::io::Write;

/// The byte that all of a block's bytes are, or that they are not equal.
#[derive(Clone, Copy)]
pub enum Content {
    Equal(u8),
    Mixed,
}

impl Content {
    /// What a block's bytes are.
    pub fn of(block: &[u8]) -> Content
        requires { 0 < length block.now }
        ensures { result ≡ content_of block.now }
    {
        let byte = block[0];
        for other in block {
            if *other != byte {
                return Content::Mixed;
            }
        }
        Content::Equal(byte)
    }

    /// Writes a space and the byte's two digits, or that there is no such byte.
    pub fn tell<W: Write>(self, out: &mut W) -> io::Result<()>
        ensures { OnOk result (Appends (W.contents out.old) (W.contents out.new) (content_text self)) }
    {
        match self {
            Content::Equal(byte) => write!(out, " {byte:02x}"),
            Content::Mixed => write!(out, " mixed"),
        }
    }
}
