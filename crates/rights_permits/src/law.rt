//! The law of the channel: each permit is in it or out of it, and they are 64.
use crate::BooksName;
use crate::permit::Card;
use crossbeam_channel::protocol::{Join, Lesson, Outcome, Protocol, Split};
use crossbeam_channel::{Pass, RuledReceiver, RuledSender};

/// How many permits a pass has out of the channel. No value of it is made.
pub struct PermitsOut {
    pub out: u64,
}

/// The law.
pub struct PermitCount;

/// The end that permits go into.
pub type Sends<B> = RuledSender<Card<B>, PermitsOut, PermitCount>;

/// The end that permits come out of.
pub type Receives<B> = RuledReceiver<Card<B>, PermitsOut, PermitCount>;

/// A pass of the channel.
pub type TurnPass<B> = Pass<Card<B>, PermitsOut>;

impl<B: BooksName> Protocol<Card<B>, PermitsOut> for PermitCount {
    ghost use Rattle.rights_permits.specs.Turns.{all_permits, turn, Counted};

    ghost holds = { Counted };

    ghost first = { turn all_permits };
}

/// All that a pass has out, for another.
pub struct AllOut;

impl Split<PermitsOut> for AllOut {
    ghost use Rattle.rights_permits.specs.Turns.{turn};

    ghost left = { λ v. turn 0 };

    ghost right = { λ v. v };
}

impl Join<PermitsOut> for AllOut {
    ghost use Rattle.std.specs.Prelude.{◌+◌};
    ghost use Rattle.rights_permits.specs.Turns.{turn};

    ghost both = { λ v w. turn (v.out + w.out) };

    ghost spent = { turn 0 };
}

/// A permit comes out.
pub struct Comes;

impl<B: BooksName> Outcome<Card<B>, PermitsOut> for Comes {
    ghost use Rattle.std.specs.Prelude.{◌≡◌, ◌+◌};
    ghost use Rattle.rights_permits.specs.Turns.{turn};

    ghost then = { λ v x w. w ≡ turn (v.out + 1) };
}

impl<B: BooksName> Lesson<Card<B>, PermitsOut> for Comes {
    ghost use Rattle.rights_permits.specs.Turns.{AtMost};

    ghost fact = { AtMost };
}

/// A permit goes in.
pub struct Goes;

impl<B: BooksName> Outcome<Card<B>, PermitsOut> for Goes {
    ghost use Rattle.std.specs.Prelude.{◌≡◌, ◌-◌};
    ghost use Rattle.rights_permits.specs.Turns.{turn};

    ghost then = { λ v x w. w ≡ turn (v.out - 1) };
}

impl<B: BooksName> Lesson<Card<B>, PermitsOut> for Goes {
    ghost use Rattle.rights_permits.specs.Turns.{AtMost};

    ghost fact = { AtMost };
}
