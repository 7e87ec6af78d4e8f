//! A meta area in memory. What was written since the last sync may be torn by a crash, as far as the trait allows.
ghost use Rattle.std.specs.Prelude.{◌≡◌, ◌≤◌, ◌+◌, length};
ghost use Rattle.device.specs.Disk.{Holds, Only};
ghost use Rattle.device.specs.Outcomes.{Outcome, Since, seen_is_outcome, outcome_since, since_now};

use crate::log::History;
use crate::{DeviceError, Meta};

/// A call that changes what a crash may leave.
#[derive(Clone, Copy, PartialEq, Eq)]
pub enum Call {
    /// A write at an offset, of so many bytes.
    Write(u64, u64),
    /// All that was written is settled.
    Sync,
}

/// A meta area in memory. It takes no memory but its bytes', and never fails.
///
/// What it says of a crash is as loose as the trait allows: only proofs read its calls, and they take no memory.
#[derive(Drop)]
pub struct MemMeta {
    pub bytes: Vec<u8>,
    /// The calls so far, the latest first, and beside each the bytes from before it.
    pub calls: History<Vec<u8>, Call>,
}

impl MemMeta {
    /// A meta area of these bytes, all of them settled.
    pub fn new(bytes: Vec<u8>) -> MemMeta
        ensures bytes { result.bytes.items ≡ bytes.items }
        ensures settled { Only bytes.items (⟦<MemMeta as Meta>⟧.may_leave result) }
    {
        MemMeta {
            bytes,
            calls: History::new(),
        }
    }

    /// The bytes that a read would give.
    pub fn into_bytes(self) -> Vec<u8>
        ensures { result.items ≡ self.bytes.items }
    {
        let MemMeta { bytes, calls: _ } = self;
        bytes
    }
}

// Writes over the bytes at an offset.
fn put(all: &mut Vec<u8>, at: usize, bytes: &[u8])
    requires { at + length bytes.now ≤ length all.old.items }
    ensures { Holds all.old.items at bytes.now all.new.items }
{
    let end = at + bytes.len();
    all.as_mut_slice()[at..end].copy_from_slice(bytes);
}

impl Meta for MemMeta {
    ghost seen = { λ m. m.bytes.items };

    ghost may_leave = { λ m c. Outcome m.calls.items m.bytes.items c };

    ghost moment = { λ m. length m.calls.items };

    ghost left_since = { λ m t c. Since m.calls.items m.bytes.items t c };

    ghost failed = { λ m. 0 };

    ghost seen_is_left = { λ m. seen_is_outcome m.calls.items m.bytes.items };

    ghost counts_now = { λ m t c le now. outcome_since m.calls.items m.bytes.items t c now };

    ghost only_now = { λ m c left. since_now m.calls.items m.bytes.items c left };

    fn read(&mut self, at: u64, out: &mut [u8]) -> Result<(), DeviceError> {
        let from = at as usize;
        let end = from + out.len();
        out.copy_from_slice(&self.bytes[from..end]);
        Ok(())
    }

    fn write(&mut self, at: u64, bytes: &[u8]) -> Result<(), DeviceError> {
        let call = Call::Write(at, bytes.len() as u64);
        let calls = self.calls.and(&self.bytes, &call);
        self.calls = calls;
        put(&mut self.bytes, at as usize, bytes);
        Ok(())
    }

    fn sync(&mut self) -> Result<(), DeviceError> {
        let calls = self.calls.and(&self.bytes, &Call::Sync);
        self.calls = calls;
        Ok(())
    }

    fn len(&self) -> u64 {
        self.bytes.len() as u64
    }

    fn failures(&self) -> u64 {
        0
    }
}
