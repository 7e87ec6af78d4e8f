//! Bytes are put at an offset.
ghost use Rattle.std.specs.Prelude.{◌≡◌, ◌≤◌, ◌+◌, true, length};
ghost use Rattle.byteorder.specs.Endian.{little_bytes};
ghost use Rattle.device.specs.Disk.{Holds};

use byteorder::{ByteOrder, LittleEndian};

/// Puts bytes over those at an offset.
pub(crate) fn put_bytes(all: &mut [u8], at: usize, bytes: &[u8])
    requires { at + length bytes.now ≤ length all.old }
    ensures put { Holds all.old at bytes.now all.new }
    ensures within { at + length bytes.now ≤ length all.old }
{
    all[at..at + bytes.len()].copy_from_slice(bytes);
}

/// Puts a number over the four bytes at an offset.
pub(crate) fn put_number(all: &mut [u8], at: usize, number: u32)
    requires { at + 4 ≤ length all.old }
    ensures put { Holds all.old at (little_bytes 4 number) all.new }
    ensures within { at + 4 ≤ length all.old }
{
    LittleEndian::write_u32(&mut all[at..at + 4], number);
}

/// Whether two runs of bytes are the same.
pub(crate) fn are_same(left: &[u8], right: &[u8]) -> bool
    ensures { result ≡ true → left.now ≡ right.now }
{
    *left == *right
}
