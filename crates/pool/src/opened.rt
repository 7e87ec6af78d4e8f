//! A pool that has no name yet.
ghost use Rattle.std.specs.Prelude.{◌≡◌, ◌<◌, IfOk, IsOkUnless};
ghost use Rattle.geometry.specs.declared.error.Error.TheVariants.{NoMemory};
ghost use Rattle.pool.specs.Pools.{first_account};

use crate::law::{Queue, QueuePass};
use crate::pass::PoolPass;
use crate::pool::Pool;
use geometry::Error;
use rights_permits::{PoolName, WordsName};
use std::alloc::Global;
use std::marker::{Model, PhantomData};

const RESERVE: usize = 4;

/// Two empty queues with no name yet, `{ ordinary; reserve }` to contracts, the tables of the two.
#[derive(Drop)]
pub struct OpenedPool<W: WordsName> {
    ordinary: Queue<W>,
    reserve: Queue<W>,
    ordinary_pass: QueuePass<W>,
    reserve_pass: QueuePass<W>,
}

impl<W: WordsName> Model for OpenedPool<W> {
    ghost use Rattle.std.specs.Prelude.{◌≡◌, []};
    ghost use Rattle.crossbeam_queue.specs.Passes.{IsPassOf, ruled_capacity};
    ghost use Rattle.pool.specs.Law.{all_parts, tally};
    ghost use Rattle.pool.specs.Pools.{Queues, queue_id, tally_of};

    ghost Value = { Queues };

    ghost view = { λ o. record { ordinary = queue_id o.ordinary; reserve = queue_id o.reserve } };

    ghost invariant = { λ o. IsPassOf o.ordinary o.ordinary_pass × IsPassOf o.reserve o.reserve_pass
        × (tally_of o.ordinary_pass ≡ tally all_parts [] [])
        × (tally_of o.reserve_pass ≡ tally all_parts [] []) × (ruled_capacity o.reserve ≡ 4) };
}

impl<W: WordsName> OpenedPool<W> {
    /// Two empty queues, an ordinary one for so many slips and a reserve for four. It fails only where memory is out, and
    /// then nothing is left.
    #[tactic(auto, using(crate::proofs::Steps::begins))]
    pub fn new(alloc: Global, segments: u32) -> Result<OpenedPool<W>, Error>
        requires some { 0 < segments }
        ensures ordinary { IfOk result (λ o. o.ordinary.slots ≡ segments) }
        ensures reserve { IfOk result (λ o. o.reserve.slots ≡ 4) }
        ensures memory { IsOkUnless result NoMemory }
    {
        let (ordinary, ordinary_pass) = Queue::ruled(alloc, segments as usize)?;
        let (reserve, reserve_pass) = Queue::ruled(alloc, RESERVE)?;
        Ok(OpenedPool {
            ordinary,
            reserve,
            ordinary_pass,
            reserve_pass,
        })
    }

    /// The pool under a name, and the pass with all seven parts, which has put and taken nothing.
    pub fn named<J: PoolName>(self) -> (Pool<W, J>, PoolPass<W, J>)
        requires ordinary { self.ordinary ≡ J.ordinary }
        requires reserve { self.reserve ≡ J.reserve }
        ensures pass { result.1 ≡ first_account }
    {
        let OpenedPool {
            ordinary,
            reserve,
            ordinary_pass,
            reserve_pass,
        } = self;
        let pass = PoolPass {
            ordinary: ordinary_pass,
            reserve: reserve_pass,
            pool: PhantomData,
        };
        (Pool::of_queues(ordinary, reserve), pass)
    }
}
