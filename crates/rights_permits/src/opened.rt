//! A turnstile that has no name yet.
ghost use Rattle.std.specs.Prelude.{◌≡◌, IsOkUnless};
ghost use Rattle.geometry.specs.declared.error.Error.TheVariants.{NoMemory};
ghost use Rattle.rights_permits.specs.Turns.{all_permits, at_home};

use crate::all::AllPermits;
use crate::law::{Receives, Sends, TurnPass};
use crate::token::{ChannelPass, IdleToken};
use crate::turnstile::Turnstile;
use crate::{BooksName, TurnName};
use crossbeam_channel::bounded_with;
use geometry::Error;
use rights_books::{Books, Permits};
use std::alloc::Global;
use std::marker::Model;

/// A channel for the permits of the named books, with no name yet, `{ turns; key }` to contracts: its table, and the key
/// of its messages. It is empty, since all permits are out.
#[derive(Drop)]
pub struct OpenedTurnstile<B: BooksName> {
    sender: Sends<B>,
    receiver: Receives<B>,
    pass: TurnPass<B>,
}

impl<B: BooksName> Model for OpenedTurnstile<B> {
    ghost use Rattle.std.specs.Prelude.{◌≡◌};
    ghost use Rattle.crossbeam_channel.specs.Claims.{IsSeatAt};
    ghost use Rattle.crossbeam_channel.specs.Ends.{sends_on, receives_on, ruled_capacity};
    ghost use Rattle.rights_permits.specs.Turns.{all_permits, Ring, ring_of, count_of};

    ghost Value = { Ring };

    ghost view = { λ o. ring_of (sends_on o.sender) };

    ghost invariant = { λ o. (receives_on o.receiver ≡ sends_on o.sender)
        × IsSeatAt (sends_on o.sender) o.pass × (count_of o.pass ≡ all_permits)
        × (ruled_capacity (sends_on o.sender) ≡ all_permits) };
}

impl<B: BooksName> OpenedTurnstile<B> {
    /// An empty channel for 64 permits. It fails only where memory is out, and then nothing is left.
    #[tactic(auto, using(crate::proofs::Turns::begins))]
    pub fn new(alloc: Global) -> Result<OpenedTurnstile<B>, Error>
        ensures memory { IsOkUnless result NoMemory }
    {
        let (sender, receiver, pass) = bounded_with(alloc, 64)?;
        Ok(OpenedTurnstile {
            sender,
            receiver,
            pass,
        })
    }

    /// The turnstile under a name, which owns the books, and all permits in one hand, with nothing in it.
    pub fn named<J: TurnName>(
        self,
        books: Books,
        permits: Permits,
    ) -> (Turnstile<B, J>, AllPermits<B, J>)
        requires turns { self.turns ≡ J.turns }
        requires key { self.key ≡ J.key }
        requires books { books ≡ B.books }
        requires permits { permits ≡ record { book = B.books.book; count = all_permits } }
        ensures hand { result.1.hand ≡ at_home B.books.book }
    {
        let OpenedTurnstile {
            sender,
            receiver,
            pass,
        } = self;
        let mut token = ChannelPass::of_pass(pass);
        let out = token.split(&sender);
        let received = token.split(&sender);
        let all = AllPermits::of_parts(&books, permits, out);
        let turnstile = Turnstile::of_parts(
            books,
            sender,
            receiver,
            IdleToken { token },
            IdleToken { token: received },
        );
        (turnstile, all)
    }
}
