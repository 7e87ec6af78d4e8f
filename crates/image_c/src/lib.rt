//! Image files for C programs: a static library with the header `rusziveg.h`. Nothing here takes a lock, waits or changes an image.
#![tactic(auto)]

ghost use Rattle.std.specs.Prelude.{◌≡◌, ◌≢◌};
ghost use Rattle.image_c.specs.Told.{IsTold, IsLengthIn};

mod facts;
mod file;

use facts::{Facts, facts_of, fault_of};
use file::copy_file;
use image::Image;
use image_reading::length_of;
use pack_tables::ReadImage;
use std::alloc::Global;

/// Checks an image file, all of whose bytes are given. Answers 0 where the image of its last checkpoint is lawful, and tells what it
/// has; and else the number of the refusal, with the fault of an image that is not lawful. Linear in the bytes.
#[unsafe(no_mangle)]
pub extern "C" fn rusziveg_check(alloc: Global, bytes: &[u8], facts: &mut Facts) -> u32
    ensures lawful { result ≡ 0 → IsTold bytes.now facts.new }
{
    match Image::read(alloc, bytes) {
        Ok((geometry, image)) => {
            *facts = facts_of(&geometry, &image);
            0
        }
        Err(error) => {
            facts.fault = fault_of(error);
            u32::from(error.number())
        }
    }
}

/// Reads a file out of an image file, all of whose bytes are given: as many whole blocks as `out` has room for, from the front on, with
/// zeros where none was written. What lies behind them in `out` stays. `blocks` becomes the length of the file in blocks, 0 where there
/// is none of this number.
///
/// Answers 0, or the number of the refusal; then nothing is changed.
#[unsafe(no_mangle)]
pub extern "C" fn rusziveg_read_file(
    alloc: Global,
    bytes: &[u8],
    number: u32,
    out: &mut [u8],
    blocks: &mut u32,
) -> u32
    ensures length { result ≡ 0 → IsLengthIn bytes.now number blocks.new }
    ensures refused { result ≢ 0 → (blocks.new ≡ blocks.old) × (out.new ≡ out.old) }
{
    match Image::read(alloc, bytes) {
        Ok((geometry, image)) => {
            *blocks = length_of(&image, number);
            copy_file(&geometry, &image, bytes, number, out);
            0
        }
        Err(error) => u32::from(error.number()),
    }
}
