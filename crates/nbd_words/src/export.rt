//! What a server tells of its disk.
ghost use Rattle.std.specs.Prelude.{◌≡◌, ◌<◌, ◌^◌, ◌++◌, length, IfOk, OnOk};
ghost use Rattle.std.specs.Int.{w32, to_be_bytes};
ghost use Rattle.nbd_words.specs.Export.{export_flags, export_bytes, old_export_bytes, block_size_bytes};

use std::alloc::{AllocError, Global};

const HAS_FLAGS: u16 = 1;

const READ_ONLY: u16 = 2;

const SEND_FLUSH: u16 = 4;

const SEND_FUA: u16 = 8;

const SEND_TRIM: u16 = 32;

const SEND_WRITE_ZEROES: u16 = 64;

/// The zeros behind the answer to EXPORT_NAME, for a client that did not say that it wants none.
const ZEROES: usize = 124;

/// What may be asked of a disk ("Transmission flags"): FLUSH always, and where it is not read only also FUA, TRIM and WRITE_ZEROES.
pub fn transmission_flags(read_only: bool) -> u16
    ensures { result ≡ export_flags read_only }
{
    if read_only {
        HAS_FLAGS + READ_ONLY + SEND_FLUSH
    } else {
        HAS_FLAGS + SEND_FLUSH + SEND_FUA + SEND_TRIM + SEND_WRITE_ZEROES
    }
}

/// Puts the answer to EXPORT_NAME behind the bytes: how many bytes the disk has, what may be asked of it, and 124 zeros but where the
/// client wants none.
pub fn push_export(
    out: &mut Vec<u8>,
    bytes: u64,
    read_only: bool,
    no_zeroes: bool,
) -> Result<(), AllocError>
    ensures bytes { OnOk result (out.new.items ≡ out.old.items ++ old_export_bytes bytes (export_flags read_only) no_zeroes) }
{
    out.extend_from_slice(&bytes.to_be_bytes())?;
    out.extend_from_slice(&transmission_flags(read_only).to_be_bytes())?;
    if !no_zeroes {
        out.extend_from_slice(&[0u8; ZEROES])?;
    }
    Ok(())
}

/// The data of the answer NBD_INFO_EXPORT: how many bytes a disk has, and what may be asked of it.
pub fn info_export(alloc: Global, bytes: u64, read_only: bool) -> Result<Vec<u8>, AllocError>
    ensures bytes { IfOk result (λ content. content.items ≡ export_bytes bytes (export_flags read_only)) }
{
    let mut content = Vec::new(alloc);
    content.extend_from_slice(&0u16.to_be_bytes())?;
    content.extend_from_slice(&bytes.to_be_bytes())?;
    content.extend_from_slice(&transmission_flags(read_only).to_be_bytes())?;
    Ok(content)
}

/// The data of the answer NBD_INFO_BLOCK_SIZE, in bytes: the unit of offsets and lengths, what goes best, and the most that one READ or
/// WRITE may have.
pub fn info_block_size(
    alloc: Global,
    least: u32,
    best: u32,
    most: u32,
) -> Result<Vec<u8>, AllocError>
    ensures bytes { IfOk result (λ content. content.items ≡ block_size_bytes least best most) }
{
    let mut content = Vec::new(alloc);
    content.extend_from_slice(&3u16.to_be_bytes())?;
    content.extend_from_slice(&least.to_be_bytes())?;
    content.extend_from_slice(&best.to_be_bytes())?;
    content.extend_from_slice(&most.to_be_bytes())?;
    Ok(content)
}

/// The data of an answer to LIST: how many bytes a disk's name has, and the name.
pub fn server_name(alloc: Global, name: &[u8]) -> Result<Vec<u8>, AllocError>
    requires short { length name.now < 2 ^ 32 }
    ensures bytes { IfOk result (λ content. content.items ≡ to_be_bytes w32 (length name.now) ++ name.now) }
{
    let length = name.len() as u32;
    let mut content = Vec::new(alloc);
    content.extend_from_slice(&length.to_be_bytes())?;
    content.extend_from_slice(name)?;
    Ok(content)
}
