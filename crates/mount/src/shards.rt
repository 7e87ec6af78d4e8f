//! The memory of the shards.
ghost use Rattle.std.specs.Prelude.{◌≡◌, ◌<◌, ℕ, [], length, slice_index_or, IfOk, IfErr};
ghost use Rattle.rights_books.specs.Accounts.{AreEmptyShards};
ghost use Rattle.geometry.specs.declared.error.Error.TheVariants.{NoMemory};
ghost use Rattle.nat.specs.Shard.{ShardNodes};
ghost use Rattle.mount_blocks.specs.Goods.{AreShards};

use device::Block;
use geometry::Error;
use nat::Shard;
use rights_books::{Books, ShardAccount};
use std::alloc::Global;

/// The shards of these accounts, in the order of their numbers, with no number taken. The only error is NoMemory, and then
/// nothing is kept.
pub(crate) fn new_shards<B: Block + Drop>(
    alloc: Global,
    books: &Books,
    accounts: Vec<ShardAccount>,
    nodes: u32,
) -> Result<Vec<Shard<B>>, Error>
    requires count { length accounts.items ≡ 16 }
    requires empty { AreEmptyShards books.now.book accounts.items }
    ensures shards { IfOk result (λ shards. AreShards books.now.book nodes shards.items) }
    ensures none { IfOk result (λ shards. (k : ℕ) (other : ShardNodes) → k < length shards.items → (slice_index_or shards.items k other).taken ≡ []) }
    ensures error { IfErr result (λ error. error ≡ NoMemory) }
{
    let _books = books;
    let mut shards = Vec::with_capacity(alloc, 16)?;
    let mut number = 0;
    'accounts: for account in accounts {
        let shard = Shard::new(alloc, account, number, nodes)?;
        shards.push_reserved(shard);
        number += 1;
    }
    Ok(shards)
}
