//! Checks an image file.
ghost use Rattle.std.specs.Prelude.{◌≡◌, ◌≢◌, ◌⊎◌, Some, OnOk, IfOk, IfSome};
ghost use Rattle.std.specs.Io.KnownBytes.{Appends};
ghost use Rattle.program_run.specs.Checking.{TellsImage, TellsRefusal};
ghost use Rattle.program_run.specs.Lines.{name_of, numbers_line, refusal_line};

use crate::lines::{tell_numbers, tell_refusal};
use crate::reading::read_image;
use crate::status::{DONE, REFUSED};
use crate::stop::tell_io_failure;
use image::Image;
use pack_tables::ReadImage;
use std::alloc::Global;
use std::io;
use std::io::{Read, Write};

/// Reads an image file as far as its superblock tells, and one byte more, and writes one line to `out`: the version and the total
/// of its image and how many of its segments are free, or why it is refused. Answers the exit status. Where `input` cannot be read
/// or `out` cannot be written, it says so on `errors`.
pub fn check_image<R: Read, W: Write, E: Write>(
    alloc: Global,
    input: &mut R,
    out: &mut W,
    errors: &mut E,
) -> u8
    ensures status { (result ≡ 0) ⊎ ((result ≡ 1) ⊎ (result ≡ 4)) }
    ensures lawful { result ≡ 0 → TellsImage (R.remaining input.old) (W.contents out.old) (W.contents out.new) }
    ensures refused { result ≡ 1 → TellsRefusal (R.remaining input.old) (W.contents out.old) (W.contents out.new) }
    ensures quiet { result ≢ 4 → errors.new ≡ errors.old }
{
    match read_and_tell(alloc, input, out) {
        Ok(status) => status,
        Err(error) => tell_io_failure(&error, errors),
    }
}

// Writes the line of an image file, or of its refusal.
fn tell_image<W: Write>(alloc: Global, file: &[u8], out: &mut W) -> io::Result<u8>
    ensures status { IfOk result (λ status. (status ≡ 0) ⊎ (status ≡ 1)) }
    ensures lawful { IfOk result (λ status. status ≡ 0 → TellsImage (Some file.now) (W.contents out.old) (W.contents out.new)) }
    ensures refused { IfOk result (λ status. status ≡ 1 → TellsRefusal (Some file.now) (W.contents out.old) (W.contents out.new)) }
{
    match Image::read(alloc, file) {
        Ok((geometry, image)) => {
            let free = image.free(&geometry);
            tell_numbers(image.version, image.total, free, out)?;
            Ok(DONE)
        }
        Err(error) => {
            tell_refusal(error, out)?;
            Ok(REFUSED)
        }
    }
}

// What was read is told, if all could be read.
fn read_and_tell<R: Read, W: Write>(alloc: Global, input: &mut R, out: &mut W) -> io::Result<u8>
    ensures status { IfOk result (λ status. (status ≡ 0) ⊎ (status ≡ 1)) }
    ensures lawful { IfOk result (λ status. status ≡ 0 → TellsImage (R.remaining input.old) (W.contents out.old) (W.contents out.new)) }
    ensures refused { IfOk result (λ status. status ≡ 1 → TellsRefusal (R.remaining input.old) (W.contents out.old) (W.contents out.new)) }
{
    let file = read_image(alloc, input)?;
    let status = tell_image(alloc, file.as_slice(), out)?;
    Ok(status)
}
