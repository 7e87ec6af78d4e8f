//! A range of bytes that is read and written in place, and settled by a sync.
ghost use Rattle.std.specs.Prelude.{◌≡◌, ◌+◌, ◌-◌, ◌^◌, ◌≤◌, min, List, ℕ, length, OnOk};
ghost use Rattle.device.specs.Disk.{part, Follows, Only, Torn, Holds, Elapses, IsQuiet, HasCause};

use crate::DeviceError;

/// The meta area of a device, where checkpoint packs lie (Linux `filesystems/f2fs`; Rosenblum and Ousterhout 1991,
/// checkpoint regions).
///
/// Between a write and the next sync that answered Ok, a crash may leave any bytes in the range that was written.
pub trait Meta {
    /// The bytes that a read gives.
    ghost seen: { Self → List ℕ };

    /// What a crash at this moment may leave.
    ghost may_leave: { Self → List ℕ → Type 0 };

    /// The moment, as a number that doesn't fall.
    ghost moment: { Self → ℕ };

    /// What a crash at some moment from that one on might have left.
    ghost left_since: { Self → ℕ → List ℕ → Type 0 };

    /// How often it has failed. It has no upper end.
    ghost failed: { Self → ℕ };

    /// The bytes from an offset on, as many as `out` has. Answers DeviceError where the device failed, and then `out`
    /// has any bytes.
    fn read(&mut self, at: u64, out: &mut [u8]) -> Result<(), DeviceError>
        requires { at + length out.old ≤ length (seen self.old) }
        ensures bytes { OnOk result (out.new ≡ part at (length out.old) (seen self.old)) }
        ensures quiet { IsQuiet seen may_leave moment left_since self.old self.new }
        ensures cause { HasCause (failed self.old) (failed self.new) result };

    /// Writes over the bytes at an offset. Until a sync, a crash may leave any bytes in the range. Answers DeviceError
    /// where the device failed, and then any bytes may stand there.
    fn write(&mut self, at: u64, bytes: &[u8]) -> Result<(), DeviceError>
        requires { at + length bytes.now ≤ length (seen self.old) }
        ensures written { OnOk result (Holds (seen self.old) at bytes.now (seen self.new)) }
        ensures others { Torn at (length bytes.now) (seen self.old) (seen self.new) }
        ensures crash { Follows (Torn at (length bytes.now)) (may_leave self.old) (may_leave self.new) }
        ensures time { Elapses (moment self.old) (moment self.new) (left_since self.old) (left_since self.new) (may_leave self.new) }
        ensures cause { HasCause (failed self.old) (failed self.new) result };

    /// After an Ok a crash leaves what a read gives. Answers DeviceError where the device failed, and then nothing that
    /// is known is settled.
    fn sync(&mut self) -> Result<(), DeviceError>
        ensures durable { OnOk result (Only (seen self.old) (may_leave self.new)) }
        ensures quiet { IsQuiet seen may_leave moment left_since self.old self.new }
        ensures cause { HasCause (failed self.old) (failed self.new) result };

    /// The bytes of the area, which stay as many.
    fn len(&self) -> u64
        ensures { result ≡ length (seen self.now) };

    /// The failures so far, or the largest number there is.
    fn failures(&self) -> u64
        ensures { result ≡ min (failed self.now) (2 ^ 64 - 1) };

    /// What a read gives is one of the outcomes of a crash.
    ghost seen_is_left: { (meta : Self) → may_leave meta (seen meta) };

    /// This moment is one of those since an earlier one.
    ghost counts_now: { (meta : Self) (t : ℕ) (c : List ℕ) → t ≤ moment meta → may_leave meta c → left_since meta t c };

    /// Since this moment there is no other.
    ghost only_now: { (meta : Self) (c : List ℕ) → left_since meta (moment meta) c → may_leave meta c };
}
