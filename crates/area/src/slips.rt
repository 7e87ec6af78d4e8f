//! Where the slips of free segments go.
ghost use Rattle.std.specs.Prelude.{◌≡◌, ◌<◌, ◌⊎◌, ◌++◌, [], ◌∷◌, vec_len, vec_capacity};
ghost use Rattle.area.specs.Slips.{AreSlipsOf, HavePut};

use pool::{Pool, PoolPass};
use rights_permits::{PoolName, WordsName};
use std::sync::Wait;
use words::FreeSlip;

/// Puts a slip into the pool, or keeps it where both queues are full. There is room for it.
pub(crate) fn put_or_keep<W: WordsName, P: PoolName, R: Wait>(
    rt: &R,
    pool: &Pool<W, P>,
    pass: &mut PoolPass<W, P>,
    kept: &mut Vec<FreeSlip>,
    slip: FreeSlip,
)
    requires words { slip.table ≡ W.words }
    requires room { vec_len kept.old < vec_capacity kept.old }
    ensures put { HavePut (slip.segment ∷ []) pass.old pass.new kept.old.items kept.new.items }
    ensures kept { (kept.new.items ≡ kept.old.items) ⊎ (kept.new.items ≡ kept.old.items ++ slip ∷ []) }
    ensures capacity { vec_capacity kept.new ≡ vec_capacity kept.old }
{
    match pool.put(rt, pass, slip) {
        Ok(()) => {}
        Err(back) => kept.push_reserved(back),
    }
}

/// Puts the slips that were kept, the first one first. What both queues refuse again is kept.
pub(crate) fn put_kept<W: WordsName, P: PoolName, R: Wait>(
    rt: &R,
    pool: &Pool<W, P>,
    pass: &mut PoolPass<W, P>,
    kept: &mut Vec<FreeSlip>,
    segments: u32,
)
    requires kept { AreSlipsOf W.words segments kept.old.items }
    ensures put { HavePut [] pass.old pass.new kept.old.items kept.new.items }
    ensures kept { AreSlipsOf W.words segments kept.new.items }
    ensures capacity { vec_capacity kept.new ≡ vec_capacity kept.old }
{
    for _turn in 0..kept.len() {
        let slip = kept.remove(0);
        put_or_keep(rt, pool, pass, kept, slip);
    }
}
