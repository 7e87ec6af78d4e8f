//! Who puts slips into the queues and takes them.
ghost use Rattle.std.specs.Prelude.{◌≡◌, ◌<◌};

use crate::law::QueuePass;
use rights_permits::{PoolName, WordsName};
use std::marker::{Model, PhantomData};

/// Lists what was put into each queue through it and taken, `{ ordinary; reserve }` to contracts, each with its parts of
/// the right to know the whole. It has no bytes. It lies in a log's lock, or in the lock of the packs.
#[derive(Drop)]
pub struct PoolPass<W: WordsName, J: PoolName> {
    pub(crate) ordinary: QueuePass<W>,
    pub(crate) reserve: QueuePass<W>,
    pub(crate) pool: PhantomData<J>,
}

impl<W: WordsName, J: PoolName> Model for PoolPass<W, J> {
    ghost use Rattle.std.specs.Prelude.{◌≡◌, ◌<◌};
    ghost use Rattle.pool.specs.declared.law.Account.{Account};
    ghost use Rattle.pool.specs.Law.{account};
    ghost use Rattle.pool.specs.Pools.{IsPassAt, tally_of};

    ghost Value = { Account };

    ghost view = { λ p. account (tally_of p.ordinary) (tally_of p.reserve) };

    ghost invariant = { λ p. IsPassAt J.ordinary p.ordinary × IsPassAt J.reserve p.reserve
        × (0 < (tally_of p.ordinary).parts)
        × ((tally_of p.reserve).parts ≡ (tally_of p.ordinary).parts) };
}

impl<W: WordsName, J: PoolName> PoolPass<W, J> {
    /// Tells that the pass has a part, and as many at the one queue as at the other.
    pub fn has_parts(&self)
        ensures some { 0 < self.now.ordinary.parts }
        ensures same { self.now.reserve.parts ≡ self.now.ordinary.parts }
    {
        let _ = &self.ordinary;
    }
}
