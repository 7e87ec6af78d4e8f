//! Appends to a log.
ghost use Rattle.std.specs.Prelude.{◌≡◌, ◌<◌, ◌≤◌, ◌∷◌, Some, length, MatchOption, OnOk, OnErr, IfOk, IfErr, IfSome, IfNone};
ghost use Rattle.geometry.specs.Refusals.{IsOfAppend};
ghost use Rattle.geometry.specs.declared.error.Error.TheVariants.{Device, NoSpace};
ghost use Rattle.geometry.specs.Shape.{block_bytes};
ghost use Rattle.geometry.specs.Owner.{IsOwner};
ghost use Rattle.area.specs.Hand.{HasAppended};
ghost use Rattle.area.specs.Slips.{HasDrawn, HasOpened};

use crate::cells::LogCell;
use crate::hole_reuse::HoleReuse;
use crate::log::Log;
use crate::main_area::MainArea;
use device::Block;
use geometry::{Error, Geometry, Owner};
use pool::Pool;
use rights_books::CallAccount;
use rights_permits::VolumeName;
use std::sync::Wait;
use tickets::Ticket;
use words::FreeSlip;

/// Who appends: which free segments it may draw on, and whether it may begin to fill the holes of a used one.
#[derive(Clone, Copy, PartialEq, Eq)]
pub enum Who {
    /// A file's user. It draws on the ordinary queue.
    Ordinary,
    /// Cleaning, which moves the block at this address. It draws on the ordinary queue, then on the reserve.
    Cleaning(u32),
    /// A checkpoint, which writes a node. It draws on both too.
    Checkpoint,
}

impl Who {
    // Whether it fills no holes of a segment, since cleaning empties the section that has it.
    fn passes_over(self, geometry: Geometry, segment: u32) -> bool {
        let Who::Cleaning(address) = self else {
            return false;
        };
        let blocks = geometry.shape.segment_blocks().max(1);
        let per_section = geometry.per_section.max(1);
        let emptied = address.saturating_sub(1) / blocks;
        emptied / per_section == segment / per_section
    }
}

impl<V: VolumeName> LogCell<V> {
    // The number of its open segment, where it has one.
    pub(crate) fn open_number(&self) -> Option<u32>
        ensures within { IfSome result (λ number. number < V.Numbers.geometry.segments) }
    {
        match &self.slip {
            Some(slip) => Some(slip.segment()),
            None => None,
        }
    }

    // The slip of a free segment, where there is one to draw on.
    fn take<R: Wait>(
        &mut self,
        rt: &R,
        pool: &Pool<V::Words, V::Pool>,
        who: Who,
    ) -> Option<FreeSlip>
        ensures words { IfSome result (λ slip. slip.table ≡ V.Words.words) }
        ensures drawn { IfSome result (λ slip. HasDrawn who slip.segment self.old.pass self.new.pass) }
        ensures unchanged { IfNone result (self.new.pass ≡ self.old.pass) }
        ensures open { self.new.slip ≡ self.old.slip }
    {
        match who {
            Who::Ordinary => pool.take_ordinary(rt, &mut self.pass),
            Who::Cleaning(_) | Who::Checkpoint => pool.take_any(rt, &mut self.pass),
        }
    }
}

impl<V: VolumeName, B: Block + Drop> MainArea<V, B> {
    /// Writes the next block of a log, and gives its ticket, which is in hand from then on. The block lies in the log's open
    /// segment, or in a hole of the one that it threads: an append that finds no free segment that it may draw on threads the
    /// first segment, in ascending order, that can be threaded, where the volume's rule lets it: see `HoleReuse`. Cleaning threads
    /// none of the section that it empties.
    ///
    /// Answers NoSpace where the log has no place, each queue that the call may draw on was empty, and no segment can be threaded
    /// or the append may not do so, or where the rule keeps what is left for the nodes that the next checkpoint writes; and Device
    /// where the device failed: then the log stands at the place that it tried. After both what is in hand is as before.
    pub fn append<R: Wait>(
        &self,
        rt: &R,
        hand: &mut CallAccount,
        log: Log,
        owner: Owner,
        now: u64,
        bytes: &[u8],
        who: Who,
    ) -> Result<Ticket<B>, Error>
        requires book { hand.old.book ≡ V.Books.books.book }
        requires owner { IsOwner owner }
        requires bytes { length bytes.now ≡ block_bytes V.Numbers.geometry.shape }
        ensures appended { IfOk result (λ ticket. HasAppended V.Numbers.geometry owner bytes.now hand.old hand.new ticket) }
        ensures err { OnErr result (hand.new ≡ hand.old) }
        ensures error { IfErr result IsOfAppend }
    {
        let mut lock = self.lock_log(rt, log.number());
        let cell = &mut *lock;
        let keeps_room = self.keeps_node_room(who);
        if who == Who::Ordinary && !keeps_room {
            return Err(Error::NoSpace);
        }
        if let Some(ticket) = self.fill_hole(rt, cell, hand, owner, now, bytes)? {
            return Ok(ticket);
        }
        if keeps_room && let Some(number) = self.open_segment(rt, cell, who) {
            let mut segment = self.lock_segment(rt, number);
            let slip = &mut cell.slip;
            let done = segment.append(self.books(), self.words(), hand, slip, owner, now, bytes);
            self.note_next(log, segment.state.next());
            return done;
        }
        if !self
            .hole_reuse
            .allows(who, log, self.pool(), &mut cell.pass)
        {
            return Err(Error::NoSpace);
        }
        self.thread_any(rt, cell, hand, owner, now, bytes, who)
    }

    // Writes the block in the next hole of the segment that the log threads. Where it threads none any more, it has no place.
    fn fill_hole<R: Wait>(
        &self,
        rt: &R,
        log: &mut LogCell<V>,
        hand: &mut CallAccount,
        owner: Owner,
        now: u64,
        bytes: &[u8],
    ) -> Result<Option<Ticket<B>>, Error>
        requires book { hand.old.book ≡ V.Books.books.book }
        requires owner { IsOwner owner }
        requires bytes { length bytes.now ≡ block_bytes V.Numbers.geometry.shape }
        ensures appended { IfOk result (λ found. MatchOption found (hand.new ≡ hand.old) (λ ticket. HasAppended V.Numbers.geometry owner bytes.now hand.old hand.new ticket)) }
        ensures refused { IfErr result (λ error. (error ≡ Device) × (hand.new ≡ hand.old)) }
    {
        let Some(number) = log.threads else {
            return Ok(None);
        };
        let mut segment = self.lock_segment(rt, number);
        let found = segment.fill(self.books(), hand, log.number, owner, now, bytes)?;
        if found.is_none() {
            log.threads = None;
        }
        Ok(found)
    }

    // Threads the first segment, in ascending order, that can be threaded, and writes the block in its first hole.
    fn thread_any<R: Wait>(
        &self,
        rt: &R,
        log: &mut LogCell<V>,
        hand: &mut CallAccount,
        owner: Owner,
        now: u64,
        bytes: &[u8],
        who: Who,
    ) -> Result<Ticket<B>, Error>
        requires book { hand.old.book ≡ V.Books.books.book }
        requires owner { IsOwner owner }
        requires bytes { length bytes.now ≡ block_bytes V.Numbers.geometry.shape }
        ensures appended { IfOk result (λ ticket. HasAppended V.Numbers.geometry owner bytes.now hand.old hand.new ticket) }
        ensures err { OnErr result (hand.new ≡ hand.old) }
        ensures error { IfErr result IsOfAppend }
    {
        for number in 0..self.geometry().segments {
            if who.passes_over(self.geometry(), number) {
                continue;
            }
            if let Some(ticket) = self.thread_one(rt, log, hand, number, owner, now, bytes)? {
                return Ok(ticket);
            }
        }
        Err(Error::NoSpace)
    }

    // Threads a segment, where it can be threaded, and writes the block in its first hole, under one hold of its lock.
    fn thread_one<R: Wait>(
        &self,
        rt: &R,
        log: &mut LogCell<V>,
        hand: &mut CallAccount,
        number: u32,
        owner: Owner,
        now: u64,
        bytes: &[u8],
    ) -> Result<Option<Ticket<B>>, Error>
        requires book { hand.old.book ≡ V.Books.books.book }
        requires within { number < V.Numbers.geometry.segments }
        requires owner { IsOwner owner }
        requires bytes { length bytes.now ≡ block_bytes V.Numbers.geometry.shape }
        ensures appended { IfOk result (λ found. MatchOption found (hand.new ≡ hand.old) (λ ticket. HasAppended V.Numbers.geometry owner bytes.now hand.old hand.new ticket)) }
        ensures refused { IfErr result (λ error. (error ≡ Device) × (hand.new ≡ hand.old)) }
    {
        let mut segment = self.lock_segment(rt, number);
        match segment.thread(
            self.books(),
            self.words(),
            hand,
            log.number,
            owner,
            now,
            bytes,
        ) {
            Ok(None) => Ok(None),
            Ok(Some(ticket)) => {
                log.threads = Some(number);
                Ok(Some(ticket))
            }
            Err(error) => {
                log.threads = Some(number);
                Err(error)
            }
        }
    }

    // The number of the log's open segment: the one that it had, or a free one, which is opened. None where each queue that
    // the call may draw on was empty.
    fn open_segment<R: Wait>(&self, rt: &R, log: &mut LogCell<V>, who: Who) -> Option<u32>
        ensures open { IfSome result (λ number. log.new.slip ≡ Some (record { table = V.Words.words; segment = number })) }
        ensures within { IfSome result (λ number. number < V.Numbers.geometry.segments) }
        ensures opened { IfSome result (λ number. HasOpened who log.old.slip number log.old.pass log.new.pass) }
        ensures unchanged { IfNone result ((log.new.slip ≡ log.old.slip) × (log.new.pass ≡ log.old.pass)) }
    {
        if let Some(slip) = &log.slip {
            return Some(slip.segment());
        }
        let slip = log.take(rt, self.pool(), who)?;
        let number = self.words().segment_of(&slip);
        let mut free = self.lock_segment(rt, number);
        log.slip = Some(free.open(self.words(), slip));
        Some(number)
    }
}
