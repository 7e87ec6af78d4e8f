//! What lies under the locks of a main area.
ghost use Rattle.std.specs.Prelude.{◌≡◌, ◌+◌, ◌<◌, ◌≤◌, ◌%◌, ◌∷◌, Some, None, false, length, MatchOption, OnOk, OnErr, IfOk, IfErr, IfSome};
ghost use Rattle.geometry.specs.declared.error.Error.TheVariants.{Device};
ghost use Rattle.geometry.specs.Address.{address_of, segment_of, offset_of};
ghost use Rattle.geometry.specs.Mark.{same_mark};
ghost use Rattle.geometry.specs.Owner.{IsOwner};
ghost use Rattle.geometry.specs.Shape.{block_bytes, segment_blocks};
ghost use Rattle.geometry.specs.declared.owner.Owner.TheVariants as owner;
ghost use Rattle.rights_books.specs.Lists.{times, without};
ghost use Rattle.rights_books.specs.Sameness.{same_entry};
ghost use Rattle.rights_books.specs.Rules.{bare_entry, moved_to};
ghost use Rattle.rights_permits.specs.Names.{layout_of};
ghost use Rattle.nat.specs.Table.{IsShardAt};
ghost use Rattle.nat.specs.Taken.{IsFree, IsTaken, IsLocated, placed_of};
ghost use Rattle.rights_books.specs.PartRow.{name_of};
ghost use Rattle.sit.specs.Row.{row_of};
ghost use Rattle.sit.specs.Segment.{placed, cleared, HasPlaced};
ghost use Rattle.sit.specs.Released.{HasReleased};
ghost use Rattle.sit.specs.declared.segment.Released.{Released};
ghost use Rattle.sit.specs.Thread.{ended, keeping, IsNextHole};
ghost use Rattle.sit.specs.Threaded.{with_thread, HasThreaded, HasFilled};
ghost use Rattle.area.specs.Threads.{HasBegunIn};
ghost use Rattle.area.specs.Cells.{IsSegmentOf, LogStands, LogThreads};
ghost use Rattle.area.specs.Hand.{HasAppended, having_given, having_swapped};

use device::{Block, DeviceError};
use geometry::{Error, Owner};
use nat::Shard;
use pool::PoolPass;
use rights_books::{Audit, Books, CallAccount, PartAccount};
use rights_permits::VolumeName;
use sit::{SegmentRow, SegmentState};
use std::marker::PhantomData;
use tickets::{NidToken, Ticket};
use words::{CheckpointSeat, FreeSlip, StoredOpenSlip, Words};

/// A segment in its lock.
#[derive(Drop)]
pub struct SegmentCell<V: VolumeName, B: Block + Drop> {
    /// Its number, from 0 on.
    pub number: u32,
    /// Its blocks, and the rights to it.
    pub state: SegmentState<B>,
    pub(crate) volume: PhantomData<V>,
    pub ghost law: { IsSegmentOf V.Numbers.geometry V.Books.books.book V.Words.words number state },
    pub ghost part: { state.part ≡ Some (record { book = V.Books.rows; number = number }) },
}

/// A shard of the node numbers in its lock.
#[derive(Drop)]
pub struct ShardCell<V: VolumeName, B: Block + Drop> {
    /// Its number, from 0 to 15.
    pub number: u32,
    /// Its numbers, and the blocks of their nodes.
    pub shard: Shard<B>,
    pub(crate) volume: PhantomData<V>,
    pub ghost few: { number < 16 },
    pub ghost law: { IsShardAt V.Books.books.book V.Numbers.geometry.nodes number shard },
    pub ghost part: { shard.part ≡ Some (record { book = V.Books.rows; number = V.Numbers.geometry.segments + number }) },
}

/// A log in its lock.
#[derive(Drop)]
pub struct LogCell<V: VolumeName> {
    /// Its number, from 0 to 5.
    pub number: u32,
    /// The slip of its open segment, where it has one.
    pub slip: Option<StoredOpenSlip>,
    /// The segment whose holes it fills, where it has begun to fill some. Whether it still does, the segment tells.
    pub threads: Option<u32>,
    /// With which it takes free segments.
    pub pass: PoolPass<V::Words, V::Pool>,
    pub ghost stands: { LogStands V.Words.words V.Numbers.geometry.segments slip },
    pub ghost within: { LogThreads V.Numbers.geometry.segments threads },
}

impl<V: VolumeName, B: Block + Drop> SegmentCell<V, B> {
    /// The segment of this number, with the account of its row.
    pub fn new(number: u32, mut state: SegmentState<B>, row: PartAccount) -> SegmentCell<V, B>
        requires segment { IsSegmentOf V.Numbers.geometry V.Books.books.book V.Words.words number state }
        requires row { name_of row ≡ record { book = V.Books.rows; number = number } }
        ensures number { result.number ≡ number }
        ensures state { result.state ≡ record state { part = Some (name_of row) } }
    {
        state.attach(row);
        SegmentCell {
            number,
            state,
            volume: PhantomData,
        }
    }

    /// The segment, out of its lock.
    pub fn into_state(self) -> SegmentState<B>
        ensures { IsSegmentOf V.Numbers.geometry V.Books.books.book V.Words.words self.number result }
    {
        let SegmentCell {
            number: _,
            state,
            volume: _,
        } = self;
        state
    }

    /// What a choice of a victim looks at.
    pub fn row(&self) -> SegmentRow
        ensures row { result ≡ row_of self.now.state.segment }
        ensures few { result.valid ≤ segment_blocks V.Numbers.geometry.shape }
    {
        self.state.row()
    }

    /// Opens the segment, which its slip shows to be free. It cannot be refused.
    pub fn open(&mut self, words: &Words, slip: FreeSlip) -> StoredOpenSlip
        requires words { words.now.table ≡ V.Words.words }
        requires slip { (slip.table ≡ V.Words.words) × (slip.segment ≡ self.old.number) }
        ensures slip { result ≡ record { table = V.Words.words; segment = self.old.number } }
        ensures number { self.new.number ≡ self.old.number }
    {
        self.state.open(words, slip).store()
    }

    /// Writes the block at the next place of the segment, which its slip shows to be open, as `SegmentState::place` does: its
    /// time is `now` from then on, where that is later. The only error is Device.
    pub fn append(
        &mut self,
        books: &Books,
        words: &Words,
        hand: &mut CallAccount,
        slip: &mut Option<StoredOpenSlip>,
        owner: Owner,
        now: u64,
        bytes: &[u8],
    ) -> Result<Ticket<B>, Error>
        requires books { books.now ≡ V.Books.books }
        requires layout { V.Books.books.key ≡ layout_of V.Numbers.geometry }
        requires words { words.now.table ≡ V.Words.words }
        requires book { hand.old.book ≡ V.Books.books.book }
        requires slip { slip.old ≡ Some (record { table = V.Words.words; segment = self.old.number }) }
        requires owner { IsOwner owner }
        requires bytes { length bytes.now ≡ block_bytes V.Numbers.geometry.shape }
        ensures appended { IfOk result (λ ticket. HasAppended V.Numbers.geometry owner bytes.now hand.old hand.new ticket) }
        ensures place { IfOk result (λ ticket. ticket.mark.address ≡ address_of V.Numbers.geometry.shape self.old.number self.old.state.segment.next) }
        ensures placed { OnOk result (HasPlaced (placed self.old.state.segment owner now self.new.state.segment.failed) self.new.state.segment) }
        ensures slip { LogStands V.Words.words V.Numbers.geometry.segments slip.new }
        ensures number { self.new.number ≡ self.old.number }
        ensures err { OnErr result (hand.new ≡ hand.old) }
        ensures error { IfErr result (λ error. error ≡ Device) }
    {
        self.state
            .place(books, words, hand, slip, owner, now, bytes)
    }

    /// A log begins to fill the segment's holes, and writes the block in the first, in one hold of the lock, as
    /// `SegmentState::thread` and `SegmentState::place_threaded` do. Answers `None`, and no log has begun, where the segment can't be
    /// threaded. The only error is Device, and then the log has begun.
    pub fn thread(
        &mut self,
        books: &Books,
        words: &Words,
        hand: &mut CallAccount,
        log: u32,
        owner: Owner,
        now: u64,
        bytes: &[u8],
    ) -> Result<Option<Ticket<B>>, Error>
        requires books { books.now ≡ V.Books.books }
        requires layout { V.Books.books.key ≡ layout_of V.Numbers.geometry }
        requires words { words.now.table ≡ V.Words.words }
        requires book { hand.old.book ≡ V.Books.books.book }
        requires owner { IsOwner owner }
        requires bytes { length bytes.now ≡ block_bytes V.Numbers.geometry.shape }
        ensures threaded { IfOk result (λ found. MatchOption found (HasThreaded false log self.old.state self.new.state) (λ ticket. HasBegunIn log owner now bytes.now self.old.state self.new.state ticket)) }
        ensures appended { IfOk result (λ found. MatchOption found (hand.new ≡ hand.old) (λ ticket. HasAppended V.Numbers.geometry owner bytes.now hand.old hand.new ticket)) }
        ensures number { self.new.number ≡ self.old.number }
        ensures err { OnErr result (hand.new ≡ hand.old) }
        ensures error { IfErr result (λ error. error ≡ Device) }
    {
        if !self.begin(words, log) {
            return Ok(None);
        }
        match self.fill(books, hand, log, owner, now, bytes) {
            Ok(Some(ticket)) => Ok(Some(ticket)),
            Ok(None) => unreachable!(),
            Err(error) => Err(error),
        }
    }

    // A log begins to fill the segment's holes, where it can.
    fn begin(&mut self, words: &Words, log: u32) -> bool
        requires words { words.now.table ≡ V.Words.words }
        ensures threaded { HasThreaded result log self.old.state self.new.state }
        ensures number { self.new.number ≡ self.old.number }
    {
        self.state.thread(words, log)
    }

    /// Writes the block in the next hole of the segment that a log fills, as `SegmentState::place_threaded` does: `None` where the
    /// log fills none. The only error is Device.
    pub fn fill(
        &mut self,
        books: &Books,
        hand: &mut CallAccount,
        log: u32,
        owner: Owner,
        now: u64,
        bytes: &[u8],
    ) -> Result<Option<Ticket<B>>, Error>
        requires books { books.now ≡ V.Books.books }
        requires layout { V.Books.books.key ≡ layout_of V.Numbers.geometry }
        requires book { hand.old.book ≡ V.Books.books.book }
        requires owner { IsOwner owner }
        requires bytes { length bytes.now ≡ block_bytes V.Numbers.geometry.shape }
        ensures filled { IfOk result (λ found. MatchOption found (IsNextHole self.old.state.segment.thread log None) (λ ticket. HasFilled log owner now bytes.now self.old.state self.new.state ticket)) }
        ensures appended { IfOk result (λ found. MatchOption found (hand.new ≡ hand.old) (λ ticket. HasAppended V.Numbers.geometry owner bytes.now hand.old hand.new ticket)) }
        ensures number { self.new.number ≡ self.old.number }
        ensures err { OnErr result (hand.new ≡ hand.old) }
        ensures error { IfErr result (λ error. error ≡ Device) }
    {
        let found = self
            .state
            .place_threaded(books, hand, log, owner, now, bytes)?;
        Ok(found)
    }

    /// No log fills the segment's holes any more.
    pub fn unthread(&mut self)
        ensures state { self.new.state ≡ record self.old.state { segment = with_thread self.old.state.segment (ended self.old.state.segment.thread) } }
        ensures number { self.new.number ≡ self.old.number }
    {
        self.state.unthread();
    }

    /// A checkpoint is complete that marks the segment's valid blocks. Only who may advance the version says so, and while an audit
    /// has all permits.
    pub fn keep(&mut self, seat: &CheckpointSeat, audit: &Audit)
        requires words { seat.now.table ≡ V.Words.words }
        requires book { audit.now.book ≡ V.Books.books.book }
        ensures state { self.new.state ≡ record self.old.state { segment = with_thread self.old.state.segment (keeping self.old.state.segment.summaries self.old.state.segment.thread) } }
        ensures number { self.new.number ≡ self.old.number }
    {
        self.state.keep(seat, audit);
    }

    /// Takes back the ticket of one of its blocks, which is in hand, as `SegmentState::release` does. It cannot be refused.
    pub fn release(
        &mut self,
        books: &Books,
        words: &Words,
        hand: &mut CallAccount,
        ticket: Ticket<B>,
    )
        requires books { books.now ≡ V.Books.books }
        requires layout { V.Books.books.key ≡ layout_of V.Numbers.geometry }
        requires words { words.now.table ≡ V.Words.words }
        requires book { hand.old.book ≡ V.Books.books.book }
        requires home { segment_of V.Numbers.geometry.shape ticket.mark.address ≡ self.old.number }
        requires held { 0 < times same_mark ticket.mark hand.old.tickets }
        requires bytes { length ticket.content ≡ block_bytes V.Numbers.geometry.shape }
        ensures cleared { (released : Released) × HasReleased (cleared self.old.state.segment (offset_of V.Numbers.geometry.shape ticket.mark.address) ticket.content self.new.state.segment.failed) released self.new.state.segment }
        ensures hand { hand.new ≡ record hand.old { tickets = without same_mark ticket.mark hand.old.tickets } }
        ensures number { self.new.number ≡ self.old.number }
    {
        self.state.release(books, words, hand, ticket);
    }
}

impl<V: VolumeName> LogCell<V> {
    /// The log of this number, with the slip of its open segment. It fills no holes.
    pub fn new(
        number: u32,
        slip: Option<StoredOpenSlip>,
        pass: PoolPass<V::Words, V::Pool>,
    ) -> LogCell<V>
        requires { LogStands V.Words.words V.Numbers.geometry.segments slip }
        ensures number { result.number ≡ number }
        ensures slip { result.slip ≡ slip }
    {
        LogCell {
            number,
            slip,
            threads: None,
            pass,
        }
    }
}

impl<V: VolumeName, B: Block + Drop> ShardCell<V, B> {
    /// The shard of this number, with the account of its row. The parts before it are the segments and the shards before it.
    pub fn new(number: u32, mut shard: Shard<B>, row: PartAccount) -> ShardCell<V, B>
        requires few { number < 16 }
        requires shard { IsShardAt V.Books.books.book V.Numbers.geometry.nodes number shard }
        requires row { name_of row ≡ record { book = V.Books.rows; number = V.Numbers.geometry.segments + number } }
        ensures number { result.number ≡ number }
        ensures shard { result.shard ≡ record shard { part = Some (name_of row) } }
    {
        shard.attach(row);
        ShardCell {
            number,
            shard,
            volume: PhantomData,
        }
    }

    /// The shard, out of its lock.
    pub fn into_shard(self) -> Shard<B>
        ensures { IsShardAt V.Books.books.book V.Numbers.geometry.nodes self.number result }
    {
        let ShardCell {
            number: _,
            shard,
            volume: _,
        } = self;
        shard
    }

    /// As `Shard::take`: none exactly where the number is taken.
    pub fn take(
        &mut self,
        books: &Books,
        hand: &mut CallAccount,
        number: u32,
        inode: u32,
    ) -> Option<NidToken>
        requires books { (books.now ≡ V.Books.books) × (hand.old.book ≡ V.Books.books.book) }
        requires home { number % 16 ≡ self.old.number }
        requires range { (1 ≤ number) × (number ≤ V.Numbers.geometry.nodes) }
        ensures token { IfSome result (λ token. token ≡ bare_entry number inode) }
        ensures before { MatchOption result (IsTaken number self.old.shard.taken) (λ _. IsFree number self.old.shard.taken) }
        ensures hand { MatchOption result (hand.new ≡ hand.old) (λ token. hand.new ≡ record hand.old { tokens = token ∷ hand.old.tokens }) }
        ensures number { self.new.number ≡ self.old.number }
    {
        self.shard.take(books, hand, number, inode)
    }

    /// As `Shard::read`.
    pub fn read(
        &mut self,
        books: &Books,
        hand: &mut CallAccount,
        token: &NidToken,
        out: &mut [u8],
    ) -> Result<(), DeviceError>
        requires books { (books.now ≡ V.Books.books) × (hand.old.book ≡ V.Books.books.book) }
        requires home { token.now.number % 16 ≡ self.old.number }
        requires held { 0 < times same_entry token.now hand.old.tokens }
        requires out { length out.old ≡ length token.now.bytes }
        ensures bytes { OnOk result (out.new ≡ token.now.bytes) }
        ensures hand { hand.new ≡ hand.old }
        ensures shard { self.new.shard ≡ self.old.shard }
        ensures number { self.new.number ≡ self.old.number }
    {
        self.shard.read(books, hand, token, out)
    }

    /// As `Shard::give`.
    pub fn give(
        &mut self,
        books: &Books,
        hand: &mut CallAccount,
        token: NidToken,
    ) -> Option<Ticket<B>>
        requires books { (books.now ≡ V.Books.books) × (hand.old.book ≡ V.Books.books.book) }
        requires home { token.number % 16 ≡ self.old.number }
        requires held { 0 < times same_entry token hand.old.tokens }
        ensures ticket { result ≡ placed_of token }
        ensures hand { hand.new ≡ having_given token hand.old }
        ensures number { self.new.number ≡ self.old.number }
    {
        self.shard.give(books, hand, token)
    }

    /// As `Shard::swap`.
    pub fn swap(
        &mut self,
        books: &Books,
        hand: &mut CallAccount,
        token: &mut NidToken,
        ticket: Ticket<B>,
    ) -> Option<Ticket<B>>
        requires books { (books.now ≡ V.Books.books) × (hand.old.book ≡ V.Books.books.book) }
        requires home { token.old.number % 16 ≡ self.old.number }
        requires token { 0 < times same_entry token.old hand.old.tokens }
        requires ticket { 0 < times same_mark ticket.mark hand.old.tickets }
        requires owner { ticket.mark.owner ≡ owner.Node token.old.number }
        ensures token { token.new ≡ moved_to ticket.mark.address ticket.content token.old }
        ensures before { result ≡ placed_of token.old }
        ensures hand { hand.new ≡ having_swapped token.old token.new ticket.mark hand.old }
        ensures number { self.new.number ≡ self.old.number }
    {
        self.shard.swap(books, hand, token, ticket)
    }

    /// As `Shard::locate`. A number outside 1 to `nodes` is free.
    pub fn locate(&self, number: u32) -> Option<(u32, u32)>
        requires home { number % 16 ≡ self.now.number }
        ensures located { IsLocated number self.now.shard.taken result }
        ensures low { IfSome result (λ place. 1 ≤ number) }
        ensures high { IfSome result (λ place. number ≤ V.Numbers.geometry.nodes) }
    {
        self.shard.locate(number)
    }
}
