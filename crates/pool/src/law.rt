//! The law of one queue, and what each step tells.
use crate::slip::QueuedSlip;
use crossbeam_queue::protocol::{Join, Lesson, Outcome, Protocol, Split};
use crossbeam_queue::{Pass, RuledArrayQueue};
use rights_permits::WordsName;
use std::collections::LinkedList;

/// What a pass has put into a queue and taken out of it, by the segments' numbers, and its parts of the right to know the
/// whole. No value of it is made.
pub struct SlipTally {
    pub parts: u64,
    pub put: LinkedList<u32>,
    pub taken: LinkedList<u32>,
}

/// The tallies of a pass at both queues. No value of it is made.
pub struct Account {
    pub ordinary: SlipTally,
    pub reserve: SlipTally,
}

/// The law: what was put is what was taken and what the queue holds.
pub struct Balanced;

/// A queue of slips.
pub type Queue<W> = RuledArrayQueue<QueuedSlip<W>, SlipTally, Balanced>;

/// A pass of one queue.
pub type QueuePass<W> = Pass<QueuedSlip<W>, SlipTally>;

impl<W: WordsName> Protocol<QueuedSlip<W>, SlipTally> for Balanced {
    ghost use Rattle.std.specs.Prelude.{[]};
    ghost use Rattle.pool.specs.Law.{SlipLaw, tally, all_parts};

    ghost holds = { SlipLaw };

    ghost first = { tally all_parts [] [] };
}

/// A part of the right, for a pass that has done nothing yet.
pub struct PassPart;

impl Split<SlipTally> for PassPart {
    ghost use Rattle.std.specs.Prelude.{[]};
    ghost use Rattle.pool.specs.Law.{tally};
    ghost use Rattle.pool.specs.Pools.{less_a_part};

    ghost left = { less_a_part };

    ghost right = { λ v. tally 1 [] [] };
}

impl Join<SlipTally> for PassPart {
    ghost use Rattle.pool.specs.Law.{both, idle};

    ghost both = { both };

    ghost spent = { idle };
}

/// A push. Where the queue was full, the pass learns of that moment.
pub struct Push;

impl<W: WordsName> Outcome<QueuedSlip<W>, SlipTally> for Push {
    ghost use Rattle.std.specs.Prelude.{◌≡◌};
    ghost use Rattle.pool.specs.Law.{with_put};

    ghost then = { λ v x w. w ≡ with_put v x };
}

impl<W: WordsName> Lesson<QueuedSlip<W>, SlipTally> for Push {
    ghost use Rattle.pool.specs.Law.{Moment};

    ghost fact = { Moment };
}

/// A pop. Where the queue was empty, the pass learns of that moment.
pub struct Pop;

impl<W: WordsName> Outcome<QueuedSlip<W>, SlipTally> for Pop {
    ghost use Rattle.std.specs.Prelude.{◌≡◌};
    ghost use Rattle.pool.specs.Law.{with_taken};

    ghost then = { λ v x w. w ≡ with_taken v x };
}

impl<W: WordsName> Lesson<QueuedSlip<W>, SlipTally> for Pop {
    ghost use Rattle.pool.specs.Law.{Moment};

    ghost fact = { Moment };
}

/// What the pass with every part learns.
pub struct AllParts;

impl<W: WordsName> Lesson<QueuedSlip<W>, SlipTally> for AllParts {
    ghost use Rattle.pool.specs.Law.{Settled};

    ghost fact = { Settled };
}
