//! The pool of free slips, shared by all threads.
ghost use Rattle.std.specs.Prelude.{◌≡◌, ◌<◌, ◌≤◌, ◌+◌, ℕ, List, ◌⊎◌, true, vec_len, IfOk, IfErr, IfSome, IfNone};
ghost use Rattle.crossbeam_queue.specs.Passes.{ruled_capacity};
ghost use Rattle.pool.specs.Law.{all_parts, put_ordinary, put_reserve, took_ordinary, took_reserve, WasEmpty, WasFull, Settled, HasAll};
ghost use Rattle.pool.specs.Pools.{queue_id, split_account, shared_account, joined_account};

use crate::law::{AllParts, PassPart, Pop, Push, Queue};
use crate::pass::PoolPass;
use crate::slip::QueuedSlip;
use rights_permits::{PoolName, WordsName};
use std::marker::PhantomData;
use std::sync::Wait;
use std::sync::atomic::{AtomicU32, Ordering};
use words::FreeSlip;

/// About how many slips the queues of a pool have.
#[derive(Clone, Copy, PartialEq, Eq)]
pub struct SlipCounts {
    pub ordinary: u32,
    pub reserve: u32,
}

/// The slips of the free segments: a reserve of four, and an ordinary queue. All threads share it by `&`. No call takes
/// memory, and each may wait for another thread's call to end.
#[derive(Drop)]
pub struct Pool<W: WordsName, J: PoolName> {
    ordinary: Queue<W>,
    reserve: Queue<W>,
    // How many slips each queue has. A slip is counted before it is put, and until it was taken.
    in_ordinary: AtomicU32,
    in_reserve: AtomicU32,
    names: PhantomData<J>,
    ghost ordinary_is: { queue_id ordinary ≡ J.ordinary },
    ghost reserve_is: { queue_id reserve ≡ J.reserve },
    ghost reserve_sized: { ruled_capacity reserve ≡ 4 },
}

impl<W: WordsName, J: PoolName> Pool<W, J> {
    pub(crate) fn of_queues(ordinary: Queue<W>, reserve: Queue<W>) -> Pool<W, J>
        requires ordinary { queue_id ordinary ≡ J.ordinary }
        requires reserve { queue_id reserve ≡ J.reserve }
        requires sized { ruled_capacity reserve ≡ 4 }
    {
        Pool {
            ordinary,
            reserve,
            in_ordinary: AtomicU32::new(0),
            in_reserve: AtomicU32::new(0),
            names: PhantomData,
        }
    }

    /// Takes the oldest slip of the ordinary queue. `None` only where that was empty at one moment of the call.
    pub fn take_ordinary<R: Wait>(&self, rt: &R, pass: &mut PoolPass<W, J>) -> Option<FreeSlip>
        ensures words { IfSome result (λ slip. slip.table ≡ W.words) }
        ensures taken { IfSome result (λ slip. pass.new ≡ took_ordinary pass.old slip.segment) }
        ensures unchanged { IfNone result (pass.new ≡ pass.old) }
        ensures empty { IfNone result (WasEmpty pass.old.ordinary) }
    {
        let slip = self.ordinary.pop_as::<Pop, R>(rt, &mut pass.ordinary)?;
        self.in_ordinary.fetch_sub(1, Ordering::Relaxed);
        Some(slip.restore())
    }

    fn take_reserve<R: Wait>(&self, rt: &R, pass: &mut PoolPass<W, J>) -> Option<FreeSlip>
        ensures words { IfSome result (λ slip. slip.table ≡ W.words) }
        ensures taken { IfSome result (λ slip. pass.new ≡ took_reserve pass.old slip.segment) }
        ensures unchanged { IfNone result (pass.new ≡ pass.old) }
        ensures empty { IfNone result (WasEmpty pass.old.reserve) }
    {
        let slip = self.reserve.pop_as::<Pop, R>(rt, &mut pass.reserve)?;
        self.in_reserve.fetch_sub(1, Ordering::Relaxed);
        Some(slip.restore())
    }

    /// Takes the oldest slip of the ordinary queue, or, where that was empty at one moment of the call, the oldest of the
    /// reserve. `None` only where each was empty at one moment.
    pub fn take_any<R: Wait>(&self, rt: &R, pass: &mut PoolPass<W, J>) -> Option<FreeSlip>
        ensures words { IfSome result (λ slip. slip.table ≡ W.words) }
        ensures taken { IfSome result (λ slip. (pass.new ≡ took_ordinary pass.old slip.segment)
            ⊎ ((pass.new ≡ took_reserve pass.old slip.segment) × WasEmpty pass.old.ordinary)) }
        ensures unchanged { IfNone result (pass.new ≡ pass.old) }
        ensures empty { IfNone result (WasEmpty pass.old.ordinary × WasEmpty pass.old.reserve) }
    {
        match self.take_ordinary(rt, pass) {
            Some(slip) => Some(slip),
            None => self.take_reserve(rt, pass),
        }
    }

    /// Puts a slip into the reserve, or, where that was full at one moment of the call, into the ordinary queue. The slip
    /// comes back only where each was full at one moment.
    pub fn put<R: Wait>(
        &self,
        rt: &R,
        pass: &mut PoolPass<W, J>,
        slip: FreeSlip,
    ) -> Result<(), FreeSlip>
        requires words { slip.table ≡ W.words }
        ensures put { IfOk result (λ _. (pass.new ≡ put_reserve pass.old slip.segment)
            ⊎ ((pass.new ≡ put_ordinary pass.old slip.segment) × WasFull 4 pass.old.reserve)) }
        ensures back { IfErr result (λ back. back ≡ slip) }
        ensures unchanged { IfErr result (λ _. pass.new ≡ pass.old) }
        ensures full { IfErr result (λ _. WasFull 4 pass.old.reserve
            × WasFull J.ordinary.slots pass.old.ordinary) }
    {
        let slip = QueuedSlip::store(slip);
        self.in_reserve.fetch_add(1, Ordering::Relaxed);
        let Err(slip) = self.reserve.push_as::<Push, R>(rt, &mut pass.reserve, slip) else {
            return Ok(());
        };
        self.in_reserve.fetch_sub(1, Ordering::Relaxed);
        self.in_ordinary.fetch_add(1, Ordering::Relaxed);
        match self
            .ordinary
            .push_as::<Push, R>(rt, &mut pass.ordinary, slip)
        {
            Ok(()) => Ok(()),
            Err(back) => {
                self.in_ordinary.fetch_sub(1, Ordering::Relaxed);
                Err(back.restore())
            }
        }
    }

    /// Whether the reserve had all four slips at one moment of the call.
    pub fn is_reserve_full(&self, pass: &mut PoolPass<W, J>) -> bool
        ensures unchanged { pass.new ≡ pass.old }
        ensures full { result ≡ true → WasFull 4 pass.old.reserve }
    {
        self.reserve.is_full_as::<Push>(&mut pass.reserve)
    }

    /// How many slips the ordinary queue and the reserve have, about: one that is on its way is counted too. No promise rests on
    /// it.
    pub fn counts(&self) -> SlipCounts {
        SlipCounts {
            ordinary: self.in_ordinary.load(Ordering::Relaxed),
            reserve: self.in_reserve.load(Ordering::Relaxed),
        }
    }

    /// A pass with one part for another holder. This one keeps the rest.
    pub fn share(&self, pass: &mut PoolPass<W, J>) -> PoolPass<W, J>
        requires two { 1 < pass.old.ordinary.parts }
        ensures rest { pass.new ≡ split_account pass.old }
        ensures new { result ≡ shared_account }
    {
        PoolPass {
            ordinary: self.ordinary.another::<PassPart>(&mut pass.ordinary),
            reserve: self.reserve.another::<PassPart>(&mut pass.reserve),
            pool: PhantomData,
        }
    }

    /// Puts what the other pass lists, and its parts, behind this one's.
    pub fn join(&self, pass: &mut PoolPass<W, J>, other: PoolPass<W, J>)
        ensures { pass.new ≡ joined_account pass.old other }
    {
        let PoolPass {
            ordinary,
            reserve,
            pool: _,
        } = other;
        self.ordinary
            .absorb::<PassPart>(&mut pass.ordinary, ordinary);
        self.reserve.absorb::<PassPart>(&mut pass.reserve, reserve);
    }

    /// Tells, to the pass with all parts, that what was put into each queue is what was taken from it and what it holds,
    /// each slip as often. Nothing changes.
    pub fn settle(&self, pass: &mut PoolPass<W, J>)
        requires all { all_parts ≤ pass.old.ordinary.parts }
        ensures same { pass.new ≡ pass.old }
        ensures ordinary { (items : List ℕ) × Settled pass.old.ordinary items }
        ensures reserve { (items : List ℕ) × Settled pass.old.reserve items }
    {
        self.ordinary.learn_as::<AllParts>(&mut pass.ordinary);
        self.reserve.learn_as::<AllParts>(&mut pass.reserve);
    }

    /// Puts as many passes together as there are parts, so that they have them all, and settles: what was put through all
    /// of them is what was taken and what the queues hold.
    pub fn settle_all(&self, first: PoolPass<W, J>, others: Vec<PoolPass<W, J>>) -> PoolPass<W, J>
        requires all { all_parts ≤ 1 + vec_len others }
        ensures ordinary_lists { HasAll (λ a. a.ordinary) first others.items result }
        ensures reserve_lists { HasAll (λ a. a.reserve) first others.items result }
        ensures ordinary { (items : List ℕ) × Settled result.ordinary items }
        ensures reserve { (items : List ℕ) × Settled result.reserve items }
    {
        let mut all = first;
        let mut others = others;
        all.has_parts();
        while let Some(other) = others.pop() {
            other.has_parts();
            self.join(&mut all, other);
        }
        self.settle(&mut all);
        all
    }
}
