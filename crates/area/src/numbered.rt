//! What lies in a lock and has a number of its own.
ghost use Rattle.std.specs.Prelude.{◌≡◌};
ghost use Rattle.std.specs.Sync.Mutex.{mutex_guard_value};

use crate::cells::{LogCell, SegmentCell, ShardCell};
use device::Block;
use rights_permits::VolumeName;
use std::sync::{Mutex, MutexGuard, Wait};

/// What has a number of its own: a segment, a shard, a log, a file.
pub trait Numbered {
    ghost use Rattle.std.specs.Prelude.{◌≡◌, ℕ};

    ghost number_of: { Self → ℕ };

    /// Its number.
    fn number(&self) -> u32
        ensures { result ≡ number_of self.now };
}

impl<V: VolumeName, B: Block + Drop> Numbered for SegmentCell<V, B> {
    ghost number_of = { λ cell. cell.number };

    fn number(&self) -> u32 {
        self.number
    }
}

impl<V: VolumeName, B: Block + Drop> Numbered for ShardCell<V, B> {
    ghost number_of = { λ cell. cell.number };

    fn number(&self) -> u32 {
        self.number
    }
}

impl<V: VolumeName> Numbered for LogCell<V> {
    ghost number_of = { λ cell. cell.number };

    fn number(&self) -> u32 {
        self.number
    }
}

/// Locks what has this number. Nothing ties the place of a lock to what is in it, so the number is compared; it is always the one.
pub fn lock_numbered<'a, C: Numbered + 'a, R: Wait>(
    rt: &R,
    lock: &'a Mutex<C>,
    number: u32,
) -> MutexGuard<'a, C>
    ensures { C.number_of (mutex_guard_value result) ≡ number }
{
    let cell = lock.lock(rt);
    if cell.number() == number {
        return cell;
    }
    drop(cell);
    for _ in rt.forever() {
        let cell = lock.lock(rt);
        if cell.number() == number {
            return cell;
        }
    }
    unreachable!()
}
