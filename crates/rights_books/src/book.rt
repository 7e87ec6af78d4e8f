//! A book, and the steps of its holders.
ghost use Rattle.std.specs.Prelude.{◌≡◌, ◌≢◌, ℕ, ◌++◌, ◌<◌, take, drop, IfOk};
ghost use Rattle.geometry.specs.Weights.{weigh};
ghost use Rattle.rights_books.specs.ClaimRules.{Follows, Tells};

use crate::holder::Holder;
use crate::law::{Change, Law, Lesson};
use crate::plays::{Both, Changes, ClaimsThatStay, Cut, Learned, Obeys};
use crate::{RestingSeat, agree};
use atomic_table::Table;
use std::alloc::{AllocError, Global};
use std::collections::LinkedList;
use std::marker::{Brand, Model};

/// The words of a book. Steps of different holders add to different ones, each in a line of its own of the processor's cache, so
/// that they don't wait for each other: 64 lines of eight words. The line before them is only read.
const WORDS: usize = 520;

const LINE: usize = 8;

/// A book, `{ book; key }` to contracts: which it is, and what its law was told. All holders share it.
#[derive(Drop)]
pub struct Book<C, K, L: Law<C, K>> {
    table: Table<(), LinkedList<C>, K, Obeys<L>, Global>,
}

impl<C, K, L: Law<C, K>> Model for Book<C, K, L> {
    ghost use Rattle.std.specs.Prelude.{◌≡◌};
    ghost use Rattle.rights_books.specs.ClaimRules.{Ruled};

    ghost Value = { Ruled K };

    ghost view = { λ b. record { book = b.table.shared.table_id; key = b.table.shared.key } };

    ghost invariant = { λ b. b.table.shared.table_id.words ≡ 520 };
}

/// The word of the next line.
fn word_after(word: usize) -> usize
    requires { word < 520 }
    ensures { result < 520 }
{
    if word + LINE < WORDS {
        word + LINE
    } else {
        LINE
    }
}

impl<C, K, L: Law<C, K>> Book<C, K, L> {
    /// A new book, and the holder of its first claims. It fails only where memory is out, and then nothing is left.
    pub fn open(alloc: Global, key: &K) -> Result<(Book<C, K, L>, Holder<C>), AllocError>
        requires { L.lawful key.now (λ h. weigh h (L.first key.now)) }
        ensures key { IfOk result (λ r. r.0.key ≡ key.now) }
        ensures holder { IfOk result (λ r. (r.1.book ≡ r.0.book) × (r.1.claims ≡ L.first key.now)) }
    {
        let (table, seat) = Table::of_words(alloc, &[0; WORDS], key)?;
        let seat = RestingSeat::of_seat(seat);
        Ok((Book { table }, Holder { seat, word: LINE }))
    }

    /// Changes the holder's claims, in one atomic step, where the law goes on to hold whatever the others have.
    pub fn step<M: Change<C>>(&self, holder: &mut Holder<C>)
        requires book { holder.old.book ≡ self.now.book }
        requires rule { Follows (L.lawful self.now.key) holder.old.claims M.after M.told }
        ensures book { holder.new.book ≡ holder.old.book }
        ensures claims { holder.new.claims ≡ M.after }
        ensures told { M.told }
    {
        let mut seat = holder.seat.take_seat::<()>();
        self.table
            .shared
            .fetch_add::<Changes<M>>(&mut seat, holder.word, 1);
        holder.seat = RestingSeat::of_seat(seat);
    }

    /// Tells what the law says of two holders' claims, whatever the others have. Nothing runs and nothing changes, so both
    /// may be lent to many at once. They have different claims, so they are two.
    pub fn tell<M: Lesson>(&self, one: &Holder<C>, other: &Holder<C>)
        requires books { (one.now.book ≡ self.now.book) × (other.now.book ≡ self.now.book) }
        requires apart { one.now.claims ≢ other.now.claims }
        requires rule { Tells (L.lawful self.now.key) (one.now.claims ++ other.now.claims) M.told }
        ensures told { M.told }
    {
        agree::<(), LinkedList<C>, K, Obeys<L>, Learned<M>>(
            &self.table.shared,
            &one.seat,
            &other.seat,
        );
    }

    fn cut<N: ClaimsThatStay>(&self, from: &mut Holder<C>) -> Holder<C>
        requires book { from.old.book ≡ self.now.book }
        ensures books { (from.new.book ≡ from.old.book) × (result.book ≡ from.old.book) }
        ensures claims { (from.new.claims ≡ take N.kept from.old.claims) × (result.claims ≡ drop N.kept from.old.claims) }
    {
        let mut seat = from.seat.take_seat::<()>();
        let cut = self.table.shared.split_seat::<Cut<N>>(&mut seat);
        from.seat = RestingSeat::of_seat(seat);
        Holder {
            seat: RestingSeat::of_seat(cut),
            word: word_after(from.word),
        }
    }

    fn part_by<N: ClaimsThatStay>(&self, from: &mut Holder<C>, keep: usize) -> Holder<C>
        requires keep { keep ≡ N.kept }
        requires book { from.old.book ≡ self.now.book }
        ensures books { (from.new.book ≡ from.old.book) × (result.book ≡ from.old.book) }
        ensures claims { (from.new.claims ≡ take keep from.old.claims) × (result.claims ≡ drop keep from.old.claims) }
    {
        self.cut::<N>(from)
    }

    /// A new holder, with all claims past the first `keep`.
    pub fn part(&self, from: &mut Holder<C>, keep: usize) -> Holder<C>
        requires book { from.old.book ≡ self.now.book }
        ensures books { (from.new.book ≡ from.old.book) × (result.book ≡ from.old.book) }
        ensures kept { from.new.claims ≡ take keep from.old.claims }
        ensures parted { result.claims ≡ drop keep from.old.claims }
    {
        self.part_by::<Brand>(from, keep)
    }

    /// Puts the other holder's claims behind this one's.
    pub fn join(&self, holder: &mut Holder<C>, other: Holder<C>)
        requires books { (holder.old.book ≡ self.now.book) × (other.book ≡ self.now.book) }
        ensures book { holder.new.book ≡ holder.old.book }
        ensures claims { holder.new.claims ≡ holder.old.claims ++ other.claims }
    {
        let Holder {
            seat: mut others,
            word: _,
        } = other;
        let mut seat = holder.seat.take_seat::<()>();
        self.table
            .shared
            .join_seat::<Both>(&mut seat, others.take_seat::<()>());
        holder.seat = RestingSeat::of_seat(seat);
    }

    /// Puts all claims past the first `keep` behind those of `to`.
    pub fn give(&self, from: &mut Holder<C>, to: &mut Holder<C>, keep: usize)
        requires books { (from.old.book ≡ self.now.book) × (to.old.book ≡ self.now.book) }
        ensures books { (from.new.book ≡ from.old.book) × (to.new.book ≡ to.old.book) }
        ensures from { from.new.claims ≡ take keep from.old.claims }
        ensures to { to.new.claims ≡ to.old.claims ++ drop keep from.old.claims }
    {
        let piece = self.part(from, keep);
        self.join(to, piece);
    }

    /// One step of two holders. Of the claims after it the first `keep` are the one's and all others the other's. What the step is
    /// about is for the proof alone.
    pub fn exchange<T, M: Change<C>>(
        &self,
        one: &mut Holder<C>,
        other: &mut Holder<C>,
        keep: usize,
        _about: &T,
    )
        requires books { (one.old.book ≡ self.now.book) × (other.old.book ≡ self.now.book) }
        requires rule { Follows (L.lawful self.now.key) (one.old.claims ++ other.old.claims) M.after M.told }
        ensures books { (one.new.book ≡ one.old.book) × (other.new.book ≡ other.old.book) }
        ensures one { one.new.claims ≡ take keep M.after }
        ensures other { other.new.claims ≡ drop keep M.after }
        ensures told { M.told }
    {
        self.give(other, one, 0);
        self.step::<M>(one);
        self.give(one, other, keep);
    }
}
