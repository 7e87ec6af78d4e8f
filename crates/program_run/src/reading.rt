//! Inputs that are read: to their end, or as far as an image file tells.
ghost use Rattle.std.specs.Prelude.{◌≡◌, ◌<◌, ◌≤◌, ◌++◌, length, IfOk, IfSome, OnOk, OnErr};
ghost use Rattle.std.specs.Io.KnownBytes.{Consumes, IsAtEnd, Keeps};
ghost use Rattle.pack_tables.specs.Grammar.{HasSuper};
ghost use Rattle.program_run.specs.Reading.{IsEnoughOf};

use flash_volume::Geometry;
use geometry::SUPER_BYTES;
use pack_tables::{file_bytes, read_super};
use std::alloc::Global;
use std::io;
use std::io::{ErrorKind, Read};

// So many bytes are asked for at one time.
const PIECE_BYTES: usize = 4096;

/// All bytes that the input still gives.
pub fn read_all<R: Read>(alloc: Global, input: &mut R) -> io::Result<Vec<u8>>
    ensures bytes { IfOk result (λ file. IfSome (R.remaining input.old) (λ bytes. file.items ≡ bytes)) }
    ensures end { OnOk result (IsAtEnd (R.remaining input.new)) }
{
    let mut file = Vec::new(alloc);
    input.read_to_end(&mut file)?;
    Ok(file)
}

/// The bytes of an image file that tell whether it is refused: its superblock, and as many bytes as that tells, and one more. What
/// comes behind them is not read. Memory is taken as the bytes come.
#[tactic(auto, using(crate::proofs::Front::if_consumed, crate::proofs::Front::front_is_enough))]
pub fn read_image<R: Read>(alloc: Global, input: &mut R) -> io::Result<Vec<u8>>
    ensures { IfOk result (λ read. IfSome (R.remaining input.old) (IsEnoughOf read.items)) }
{
    let front = read_up_to(alloc, input, SUPER_BYTES)?;
    match read_super(front.as_slice()) {
        Ok(geometry) => read_behind(alloc, input, front, &geometry),
        Err(_) => Ok(front),
    }
}

// What stands behind the front of a file whose superblock tells the geometry, up to one byte more than that tells.
#[tactic(auto, using(crate::proofs::Front::behind_is_enough))]
fn read_behind<R: Read>(
    alloc: Global,
    input: &mut R,
    front: Vec<u8>,
    geometry: &Geometry,
) -> io::Result<Vec<u8>>
    requires { HasSuper geometry.now front.items }
    ensures { IfOk result (λ read. IfSome (R.remaining input.old) (λ rest. IsEnoughOf read.items (front.items ++ rest))) }
{
    let size = file_bytes(geometry) as usize;
    let behind = read_up_to(alloc, input, size.saturating_sub(SUPER_BYTES - 1))?;
    let mut read = front;
    read.extend_from_slice(behind.as_slice())?;
    Ok(read)
}

// Reads until there are so many bytes, or the input has ended.
#[tactic(auto, using(crate::proofs::Consumed::consumes_nothing, crate::proofs::Consumed::consumes_more, crate::proofs::Consumed::consumes_no_more))]
fn read_up_to<R: Read>(alloc: Global, input: &mut R, most: usize) -> io::Result<Vec<u8>>
    ensures most { IfOk result (λ read. length read.items ≤ most) }
    ensures read { IfOk result (λ read. Consumes (R.remaining input.old) (R.remaining input.new) read.items) }
    ensures all { IfOk result (λ read. length read.items < most → IsAtEnd (R.remaining input.new)) }
{
    let mut read = Vec::new(alloc);
    for _turn in 0..u64::MAX {
        let room = PIECE_BYTES.min(most.saturating_sub(read.len()));
        if room == 0 {
            return Ok(read);
        }
        match read_piece(alloc, input, room) {
            Ok(piece) if piece.is_empty() => return Ok(read),
            Ok(piece) => read.extend_from_slice(piece.as_slice())?,
            Err(error) if error.kind() == ErrorKind::Interrupted => {}
            Err(error) => return Err(error),
        }
    }
    Err(io::Error::from(ErrorKind::Interrupted))
}

// Reads once, so many bytes at most. There are none only where the input has ended.
#[tactic(auto, using(crate::proofs::Consumed::keeps_same))]
fn read_piece<R: Read>(alloc: Global, input: &mut R, most: usize) -> io::Result<Vec<u8>>
    requires { 0 < most }
    ensures most { IfOk result (λ piece. length piece.items ≤ most) }
    ensures read { IfOk result (λ piece. Consumes (R.remaining input.old) (R.remaining input.new) piece.items) }
    ensures end { IfOk result (λ piece. length piece.items ≡ 0 → IsAtEnd (R.remaining input.new)) }
    ensures kept { OnErr result (Keeps (R.remaining input.old) (R.remaining input.new)) }
{
    let mut piece = vec![in alloc; 0; most]?;
    let count = input.read(piece.as_mut_slice())?;
    piece.truncate(count);
    Ok(piece)
}
