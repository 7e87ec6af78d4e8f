//! What stands in a new meta area before its first pack.
ghost use Rattle.std.specs.Prelude.{◌≡◌, ◌≤◌, length, OnOk};
ghost use Rattle.geometry.specs.Area.{meta_bytes};
ghost use Rattle.device.specs.Disk.{HasCause};
ghost use Rattle.pack_tables.specs.Grammar.{HasSuper};

use device::{DeviceError, Meta};
use geometry::Geometry;
use pack_tables::write_super;

// So many zeros are written at once.
const CHUNK: u64 = 4096;

/// Writes zeros over the whole area, and the superblock in front of it (Linux `filesystems/f2fs`, superblock). Answers
/// DeviceError where the device failed; then any bytes may stand there, as many as before.
pub(crate) fn write_front<M: Meta>(meta: &mut M, geometry: &Geometry) -> Result<(), DeviceError>
    requires size { length (M.seen meta.old) ≡ meta_bytes geometry.now }
    ensures front { OnOk result (HasSuper geometry.now (M.seen meta.new)) }
    ensures size { length (M.seen meta.new) ≡ length (M.seen meta.old) }
    ensures cause { HasCause (M.failed meta.old) (M.failed meta.new) result }
{
    write_zeros(meta)?;
    let mut front = [0u8; 64];
    write_super(geometry, &mut front);
    meta.write(0, &front)?;
    Ok(())
}

fn write_zeros<M: Meta>(meta: &mut M) -> Result<(), DeviceError>
    ensures size { length (M.seen meta.new) ≡ length (M.seen meta.old) }
    ensures cause { HasCause (M.failed meta.old) (M.failed meta.new) result }
{
    let zeros = [0u8; CHUNK as usize];
    let len = meta.len();
    let mut at = 0;
    'chunks: while at < len {
        let count = CHUNK.min(len - at);
        meta.write(at, &zeros[..count as usize])?;
        at += count;
    }
    Ok(())
}
