//! The turnstile: the books, and both ends of the channel of their permits.
ghost use Rattle.std.specs.Prelude.{◌≡◌, ◌<◌, ◌+◌, ◌-◌, [], IfOk, IfErr};
ghost use Rattle.crossbeam_channel.specs.Ends.{sends_on, receives_on};
ghost use Rattle.geometry.specs.declared.error.Error.TheVariants.{Wounded};
ghost use Rattle.rights_permits.specs.Turns.{all_permits, at_home, IsRing};

use crate::all::{AllPermits, Auditing};
use crate::law::{Receives, Sends};
use crate::permit::{Card, Permit};
use crate::rests::Rests;
use crate::token::{ChannelPass, IdleToken};
use crate::{BooksName, TurnName};
use geometry::Error;
use rights_books::{Books, Permits};
use std::sync::atomic::{AtomicBool, Ordering};
use std::sync::{Mutex, Wait};

const PERMITS: u32 = 64;

/// The books, and the permits for the calls that change the volume. All threads share it by `&`. No call takes memory.
/// It has one end, with all permits in hand. It may be wounded: then no call gets a permit any more. The rests lie behind all else,
/// since threads write there all the time.
pub struct Turnstile<B: BooksName, J: TurnName> {
    books: Books,
    sender: Sends<B>,
    receiver: Receives<B>,
    sending: Mutex<IdleToken<B, J>>,
    receiving: Mutex<IdleToken<B, J>>,
    wounded: AtomicBool,
    rests: Rests<B, J>,
    ghost books_are: { books ≡ B.books },
    ghost sends: { IsRing J.turns J.key (sends_on sender) },
    ghost receives: { IsRing J.turns J.key (receives_on receiver) },
}

impl<B: BooksName, J: TurnName> Turnstile<B, J> {
    pub(crate) fn of_parts(
        books: Books,
        sender: Sends<B>,
        receiver: Receives<B>,
        sending: IdleToken<B, J>,
        receiving: IdleToken<B, J>,
    ) -> Turnstile<B, J>
        requires books { books ≡ B.books }
        requires sends { IsRing J.turns J.key (sends_on sender) }
        requires receives { IsRing J.turns J.key (receives_on receiver) }
    {
        Turnstile {
            books,
            sender,
            receiver,
            sending: Mutex::new(sending),
            receiving: Mutex::new(receiving),
            wounded: AtomicBool::new(false),
            rests: Rests::new(),
        }
    }

    /// The books whose permits these are.
    pub fn books(&self) -> &Books
        ensures { result.now ≡ B.books }
    {
        &self.books
    }

    /// Takes a permit, with nothing in hand, and waits for one.
    ///
    /// Answers Wounded where the turnstile is wounded, also where that came about while the call waited.
    pub fn enter<R: Wait>(&self, rt: &R) -> Result<Permit<B, J>, Error>
        ensures hand { IfOk result (λ permit. permit.hand ≡ at_home B.books.book) }
        ensures error { IfErr result (λ error. error ≡ Wounded) }
    {
        let permit = self.wait_for_one(rt);
        self.admit(rt, permit)
    }

    /// Gives a permit back, which has nothing in hand.
    pub fn leave<R: Wait>(&self, rt: &R, permit: Permit<B, J>)
        requires tickets { permit.hand.tickets ≡ [] }
        requires tokens { permit.hand.tokens ≡ [] }
    {
        let mut idle = self.sending.lock(rt);
        self.put_one(rt, &mut *idle, permit);
    }

    /// Takes a permit for a call on the file of this number, with nothing in hand: the one that rests there, and else it waits
    /// for one as `enter` does. The numbers from 1 to 48 have a rest.
    ///
    /// Answers Wounded where the turnstile is wounded, also where that came about while the call waited.
    pub fn enter_by<R: Wait>(&self, rt: &R, number: u32) -> Result<Permit<B, J>, Error>
        ensures hand { IfOk result (λ permit. permit.hand ≡ at_home B.books.book) }
        ensures error { IfErr result (λ error. error ≡ Wounded) }
    {
        let permit = match self.rests.take(rt, number) {
            Some(permit) => permit,
            None => self.wait_for_one(rt),
        };
        self.admit(rt, permit)
    }

    /// Gives a permit back, which has nothing in hand, after a call on the file of this number. It rests there for the next call
    /// on the file, and where it can't it goes back as by `leave`. Another number may be given than to `enter_by`.
    pub fn leave_by<R: Wait>(&self, rt: &R, number: u32, permit: Permit<B, J>)
        requires tickets { permit.hand.tickets ≡ [] }
        requires tokens { permit.hand.tokens ≡ [] }
    {
        if let Some(back) = self.rests.put(rt, number, permit) {
            self.leave(rt, back);
        }
    }

    /// From now on no call gets a permit, those neither that wait for one: all permits are in the audit, so whoever gets one later
    /// sees it. Who gathers still gets all.
    pub fn wound(&self, auditing: &Auditing<B, J>) {
        let _all = auditing;
        self.wounded.store(true, Ordering::SeqCst);
    }

    /// Whether no call gets a permit any more.
    pub fn is_wounded(&self) -> bool {
        self.wounded.load(Ordering::SeqCst)
    }

    /// Takes all permits, with nothing in hand, and waits for them.
    pub fn gather<R: Wait>(&self, rt: &R) -> AllPermits<B, J>
        ensures hand { result.hand ≡ at_home B.books.book }
    {
        let mut idle = self.receiving.lock(rt);
        self.take_all(rt, &mut *idle)
    }

    /// Gives all permits back, which have nothing in hand.
    pub fn scatter<R: Wait>(&self, rt: &R, all: AllPermits<B, J>)
        requires tickets { all.hand.tickets ≡ [] }
        requires tokens { all.hand.tokens ≡ [] }
    {
        // While all are in hand nobody else has gathered, so no rest is opened that another has closed.
        self.rests.open(rt);
        let mut idle = self.sending.lock(rt);
        self.put_all(rt, &mut *idle, all);
    }

    /// Begins an audit of the books, with all permits, which have nothing in hand. It has learned nothing yet.
    pub fn audit(&self, all: AllPermits<B, J>) -> Auditing<B, J>
        requires tickets { all.hand.tickets ≡ [] }
        requires tokens { all.hand.tokens ≡ [] }
        ensures audit { result.audit ≡ record { book = B.books.book; copies = [] } }
    {
        let (permits, token) = all.into_parts(&self.books);
        Auditing::of_parts(self.books.audit(permits), token)
    }

    /// Ends an audit, and gives all permits back, with nothing in hand.
    pub fn end_audit(&self, auditing: Auditing<B, J>) -> AllPermits<B, J>
        ensures hand { result.hand ≡ at_home B.books.book }
    {
        let (audit, token) = auditing.into_parts();
        AllPermits::of_parts(&self.books, self.books.end_audit(audit), token)
    }

    /// The end, with all permits in hand: no call is under way.
    pub fn end(self, all: AllPermits<B, J>)
        requires tickets { all.hand.tickets ≡ [] }
        requires tokens { all.hand.tokens ≡ [] }
    {
        let Turnstile {
            books: _,
            sender,
            receiver: _,
            sending,
            receiving,
            wounded: _,
            rests,
        } = self;
        let IdleToken { token: sent } = sending.into_inner();
        let IdleToken { token: received } = receiving.into_inner();
        let mut token = all.into_token();
        token.join(&sender, sent);
        token.join(&sender, received);
        rests.end(&sender, &mut token);
        token.end(sender);
    }

    fn wait_for_one<R: Wait>(&self, rt: &R) -> Permit<B, J>
        ensures { result.hand ≡ at_home B.books.book }
    {
        let mut idle = self.receiving.lock(rt);
        self.take_one(rt, &mut *idle)
    }

    // Lets a call go on with its permit, or takes that back where the turnstile is wounded.
    fn admit<R: Wait>(&self, rt: &R, permit: Permit<B, J>) -> Result<Permit<B, J>, Error>
        requires hand { permit.hand ≡ at_home B.books.book }
        ensures hand { IfOk result (λ permit. permit.hand ≡ at_home B.books.book) }
        ensures error { IfErr result (λ error. error ≡ Wounded) }
    {
        if self.is_wounded() {
            self.leave(rt, permit);
            return Err(Error::Wounded);
        }
        Ok(permit)
    }

    // Receives a permit. A receive that comes back without one is tried again.
    fn receive<R: Wait>(&self, rt: &R, token: &mut ChannelPass<B, J>) -> Card<B>
        ensures { token.new ≡ token.old + 1 }
    {
        for _ in rt.forever() {
            if let Some(card) = token.receive(rt, &self.receiver) {
                return card;
            }
        }
        unreachable!()
    }

    // Sends a permit. One that comes back is tried again.
    fn send<R: Wait>(&self, rt: &R, token: &mut ChannelPass<B, J>, mut card: Card<B>)
        requires out { 0 < token.old }
        ensures { token.new ≡ token.old - 1 }
    {
        for _ in rt.forever() {
            match token.send(rt, &self.sender, card) {
                Ok(()) => return,
                Err(back) => card = back,
            }
        }
        unreachable!()
    }

    fn take_one<R: Wait>(&self, rt: &R, idle: &mut IdleToken<B, J>) -> Permit<B, J>
        ensures { result.hand ≡ at_home B.books.book }
    {
        let card = self.receive(rt, &mut idle.token);
        let token = idle.token.split(&self.sender);
        Permit::of_parts(card.into_hand(), token)
    }

    fn put_one<R: Wait>(&self, rt: &R, idle: &mut IdleToken<B, J>, permit: Permit<B, J>)
        requires tickets { permit.hand.tickets ≡ [] }
        requires tokens { permit.hand.tokens ≡ [] }
    {
        let (card, token) = permit.into_parts();
        idle.token.join(&self.sender, token);
        self.send(rt, &mut idle.token, card);
    }

    // A permit for who gathers: the one that rests at a number, where nothing rests from then on, or one that comes out of the
    // channel. All that is not at the rests of higher numbers, or in a call there, is in the channel or comes to it.
    fn collect<R: Wait>(&self, rt: &R, token: &mut ChannelPass<B, J>, number: u32) -> Card<B>
        ensures { token.new ≡ token.old + 1 }
    {
        match self.rests.close(rt, number) {
            Some(permit) => self.take_in(token, permit),
            None => self.receive(rt, token),
        }
    }

    fn take_in(&self, token: &mut ChannelPass<B, J>, permit: Permit<B, J>) -> Card<B>
        requires tickets { permit.hand.tickets ≡ [] }
        requires tokens { permit.hand.tokens ≡ [] }
        ensures { token.new ≡ token.old + 1 }
    {
        let (card, one) = permit.into_parts();
        token.join(&self.sender, one);
        card
    }

    fn receive_all<R: Wait>(&self, rt: &R, token: &mut ChannelPass<B, J>) -> Permits
        requires none { token.old ≡ 0 }
        ensures all { token.new ≡ all_permits }
        ensures permits { result ≡ record { book = B.books.book; count = all_permits } }
    {
        // The first comes out of the channel. So nobody else has all, who would open the rests again.
        let first = self.receive(rt, token);
        let mut permits = self.books.pool(first.into_hand());
        for number in 1..PERMITS {
            let card = self.collect(rt, token, number);
            permits = self.books.add(permits, card.into_hand());
        }
        permits
    }

    fn send_all<R: Wait>(&self, rt: &R, token: &mut ChannelPass<B, J>, permits: Permits)
        requires all { token.old ≡ all_permits }
        requires permits { permits ≡ record { book = B.books.book; count = all_permits } }
        ensures none { token.new ≡ 0 }
    {
        let mut left = permits;
        for _ in 0..PERMITS {
            let (others, hand) = self.books.take_permit(left);
            self.send(rt, token, Card::of_hand(hand));
            left = others;
        }
    }

    fn take_all<R: Wait>(&self, rt: &R, idle: &mut IdleToken<B, J>) -> AllPermits<B, J>
        ensures { result.hand ≡ at_home B.books.book }
    {
        let permits = self.receive_all(rt, &mut idle.token);
        let token = idle.token.split(&self.sender);
        AllPermits::of_parts(&self.books, permits, token)
    }

    fn put_all<R: Wait>(&self, rt: &R, idle: &mut IdleToken<B, J>, all: AllPermits<B, J>)
        requires tickets { all.hand.tickets ≡ [] }
        requires tokens { all.hand.tokens ≡ [] }
    {
        let (permits, token) = all.into_parts(&self.books);
        idle.token.join(&self.sender, token);
        self.send_all(rt, &mut idle.token, permits);
    }
}
