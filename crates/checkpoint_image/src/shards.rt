//! The audit learns all shards.
ghost use Rattle.std.specs.Prelude.{◌≡◌, ℕ, map};
ghost use Rattle.geometry.specs.Weights.{weigh};
ghost use Rattle.rights_books.specs.Weights.{shard_copy};
ghost use Rattle.checkpoint_image.specs.Learning.{AreShardsOf, HaveLearnedShards};

use crate::audited::AuditedShard;
use device::Block;
use rights_books::{Audit, Books};

/// The audit learns the taken numbers of all shards. It has learned of no shard before.
pub fn learn_shards<B: Block + Drop, S: AuditedShard<B>>(
    books: &Books,
    audit: &mut Audit,
    shards: &mut Vec<S>,
)
    requires book { audit.old.book ≡ books.now.book }
    requires shards { AreShardsOf books.now.book (map S.shown shards.old.items) }
    requires none { weigh (shard_copy (λ n. 1)) audit.old.copies ≡ 0 }
    ensures same { map S.shown shards.new.items ≡ map S.shown shards.old.items }
    ensures audit { HaveLearnedShards (map S.shown shards.old.items) audit.old audit.new }
{
    for i in 0..shards.len() {
        shards[i].learn(books, audit);
    }
}
