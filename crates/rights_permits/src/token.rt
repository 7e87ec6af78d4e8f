//! How many permits are out of the channel, and who has them.
ghost use Rattle.std.specs.Prelude.{◌≡◌, ◌<◌, ◌≤◌, ◌+◌, ◌-◌, MatchOption, MatchResult};
ghost use Rattle.crossbeam_channel.specs.Ends.{sends_on, receives_on};
ghost use Rattle.rights_permits.specs.Turns.{all_permits, IsRing, IsTurnAt, count_of};

use crate::law::{AllOut, Comes, Goes, Receives, Sends, TurnPass};
use crate::permit::Card;
use crate::{BooksName, TurnName};
use std::marker::{Model, PhantomData};
use std::sync::Wait;

/// A pass of the named channel, to contracts the number of permits that it has out. It has no bytes. It can't be lost: it
/// goes into another, and the one that has all permits out ends with the channel.
pub struct ChannelPass<B: BooksName, J: TurnName> {
    pass: TurnPass<B>,
    turns: PhantomData<J>,
}

impl<B: BooksName, J: TurnName> Model for ChannelPass<B, J> {
    ghost use Rattle.std.specs.Prelude.{ℕ};
    ghost use Rattle.rights_permits.specs.Turns.{IsTurnAt, count_of};

    ghost Value = { ℕ };

    ghost view = { λ t. count_of t.pass };

    ghost invariant = { λ t. IsTurnAt J.turns J.key t.pass };
}

impl<B: BooksName, J: TurnName> ChannelPass<B, J> {
    pub(crate) fn of_pass(pass: TurnPass<B>) -> ChannelPass<B, J>
        requires channel { IsTurnAt J.turns J.key pass }
        ensures { result ≡ count_of pass }
    {
        ChannelPass {
            pass,
            turns: PhantomData,
        }
    }

    // All that it has out, for another.
    #[tactic(auto, using(crate::proofs::Turns::forks))]
    pub(crate) fn split(&mut self, sender: &Sends<B>) -> ChannelPass<B, J>
        requires channel { IsRing J.turns J.key (sends_on sender.now) }
        ensures rest { self.new ≡ 0 }
        ensures other { result ≡ self.old }
    {
        ChannelPass::of_pass(sender.another::<AllOut>(&mut self.pass))
    }

    #[tactic(auto, using(crate::proofs::Turns::merges))]
    pub(crate) fn join(&mut self, sender: &Sends<B>, other: ChannelPass<B, J>)
        requires channel { IsRing J.turns J.key (sends_on sender.now) }
        ensures { self.new ≡ self.old + other }
    {
        let ChannelPass { pass, turns: _ } = other;
        sender.absorb::<AllOut>(&mut self.pass, pass);
    }

    // Receives a permit, or comes back without effect.
    #[tactic(auto, using(crate::proofs::Turns::comes, crate::proofs::Turns::most))]
    pub(crate) fn receive<R: Wait>(&mut self, rt: &R, receiver: &Receives<B>) -> Option<Card<B>>
        requires channel { IsRing J.turns J.key (receives_on receiver.now) }
        ensures { MatchOption result (self.new ≡ self.old) (λ _. self.new ≡ self.old + 1) }
    {
        receiver.recv_as::<Comes, R>(rt, &mut self.pass).ok()
    }

    // Sends a permit, or gives it back without effect.
    #[tactic(auto, using(crate::proofs::Turns::goes, crate::proofs::Turns::most))]
    pub(crate) fn send<R: Wait>(
        &mut self,
        rt: &R,
        sender: &Sends<B>,
        card: Card<B>,
    ) -> Result<(), Card<B>>
        requires channel { IsRing J.turns J.key (sends_on sender.now) }
        requires out { 0 < self.old }
        ensures { MatchResult result (λ _. self.new ≡ self.old - 1) (λ _. self.new ≡ self.old) }
    {
        match sender.send_as::<Goes, R>(rt, &mut self.pass, card) {
            Ok(()) => Ok(()),
            Err(error) => Err(error.into_inner()),
        }
    }

    // The end of the channel, which takes its sending end: so no call on a shared turnstile can lose a token.
    pub(crate) fn end(self, sender: Sends<B>)
        requires channel { IsRing J.turns J.key (sends_on sender) }
        requires all { all_permits ≤ self }
    {
        let ChannelPass { pass: _, turns: _ } = self;
        drop(sender);
    }
}

/// A token that has no permit out, as it lies under a lock.
pub struct IdleToken<B: BooksName, J: TurnName> {
    pub(crate) token: ChannelPass<B, J>,
    pub(crate) ghost none: { token ≡ 0 },
}
