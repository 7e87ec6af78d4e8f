//! A shard of the node numbers whose lock is held.
ghost use Rattle.std.specs.Prelude.{◌≡◌, ◌<◌, ◌+◌, Some};
ghost use Rattle.nat.specs.Table.{IsShardAt};

use area::{MainArea, ShardCell};
use checkpoint_image::{AuditedShard, HoldsShard};
use device::Block;
use nat::Shard;
use rights_books::{Audit, Books, KeptAccount, Rows};
use rights_permits::VolumeName;
use std::marker::Model;
use std::sync::{MutexGuard, Wait};

/// A shard of the node numbers whose lock is held, to contracts the shard. It is let go where this is dropped.
pub struct HeldShard<'a, V: VolumeName, B: Block + Drop + 'a> {
    cell: MutexGuard<'a, ShardCell<V, B>>,
}

impl<'a, V: VolumeName, B: Block + Drop + 'a> Model for HeldShard<'a, V, B> {
    ghost use Rattle.std.specs.Sync.Mutex.{mutex_guard_value};
    ghost use Rattle.nat.specs.Shard.{ShardNodes};

    ghost Value = { ShardNodes };

    ghost view = { λ held. (mutex_guard_value held.cell).shard };
}

impl<'a, V: VolumeName, B: Block + Drop + 'a> Drop for HeldShard<'a, V, B> {
    fn drop(self) {
        let HeldShard { cell } = self;
        drop(cell);
    }
}

impl<'a, V: VolumeName, B: Block + Drop + 'a> HeldShard<'a, V, B> {
    /// Locks the shard of this number.
    pub fn lock<R: Wait>(rt: &R, area: &'a MainArea<V, B>, number: u32) -> HeldShard<'a, V, B>
        requires { number < 16 }
        ensures held { IsShardAt V.Books.books.book V.Numbers.geometry.nodes number result }
        ensures part { result.part ≡ Some (record { book = V.Books.rows; number = V.Numbers.geometry.segments + number }) }
    {
        HeldShard {
            cell: area.lock_shard(rt, number),
        }
    }
}

impl<'a, V: VolumeName, B: Block + Drop + 'a> HoldsShard<B> for HeldShard<'a, V, B> {
    ghost shown = { λ held. held };

    fn shard(&self) -> &Shard<B> {
        &self.cell.shard
    }
}

impl<'a, V: VolumeName, B: Block + Drop + 'a> AuditedShard<B> for HeldShard<'a, V, B> {
    fn learn(&mut self, books: &Books, audit: &mut Audit) {
        self.cell.shard.learn(books, audit);
    }

    fn note(&mut self, rows: &Rows, kept: &mut KeptAccount) {
        self.cell.shard.note(rows, kept);
    }
}
