//! The steps of a reader's seat.
ghost use Rattle.std.specs.Prelude.{◌≡◌, ◌≢◌, ℕ, ◌+◌, ◌<◌, ◌≤◌};
ghost use Rattle.words.specs.Tokens.{IsPinnable};
ghost use Rattle.words.specs.Claims.{times, times_at};
ghost use Rattle.words.specs.Steps.{life_counted, pins_seen, pins_loaded, pins_with, pins_without};
ghost use Rattle.geometry.specs.declared.state.State.TheVariants.{Free};

use crate::plays::{
    Agrees, AllClaims, CountsPins, Pinned, Second, SeesVersion, Together, Unpinned,
};
use crate::table::{INCARNATION, STATE, Words};
use crate::tokens::{SeatToken, Standing};

impl Words {
    /// The seat pins the segment, which keeps its incarnation until it is unpinned.
    #[tactic(auto, using(crate::proofs::Seats::cuts_and_joins))]
    pub fn pin(&self, standing: &mut Standing, seat: &mut SeatToken)
        requires table { (standing.old.table ≡ self.now.table) × (seat.old.table ≡ self.now.table) }
        requires state { IsPinnable standing.old.life.state }
        requires once { times standing.old.life.segment seat.old.pins.held ≡ 0 }
        ensures standing { (found : ℕ) × (found < 64) × (standing.new.table ≡ standing.old.table)
            × (standing.new.life ≡ life_counted standing.old.life found) }
        ensures seat { (seat.new.table ≡ seat.old.table)
            × (seat.new.pins ≡ pins_with seat.old.pins standing.old.life.segment standing.old.life.incarnation) }
        ensures within { standing.old.life.segment < self.now.segments }
    {
        let word = standing.segment as usize;
        let shared = &self.table.shared;
        let reader = shared.split_seat::<AllClaims>(&mut seat.seat);
        shared.join_seat::<Together>(&mut standing.seat, reader);
        shared.fetch_add::<Pinned>(&mut standing.seat, word, 1);
        let pinned = shared.split_seat::<Second>(&mut standing.seat);
        seat.seat = pinned;
    }

    /// The seat lets go of its pin on a segment.
    pub fn unpin(&self, seat: &mut SeatToken, segment: u32)
        requires table { seat.old.table ≡ self.now.table }
        requires within { segment < self.now.segments }
        requires pinned { 0 < times segment seat.old.pins.held }
        ensures { (seat.new.table ≡ seat.old.table)
            × (seat.new.pins ≡ pins_without seat.old.pins segment) }
    {
        self.table
            .shared
            .fetch_sub::<Unpinned>(&mut seat.seat, segment as usize, 1);
    }

    /// How many seats pin a segment, as its word shows at this call.
    pub fn pins(&self, seat: &mut SeatToken, segment: u32) -> u32
        requires table { seat.old.table ≡ self.now.table }
        requires within { segment < self.now.segments }
        ensures load { (seat.new.table ≡ seat.old.table)
            × (seat.new.pins ≡ pins_loaded seat.old.pins segment result) }
        ensures most { result ≤ 64 }
        ensures own { times segment seat.old.pins.held ≤ result }
    {
        let counted = self
            .table
            .shared
            .load::<CountsPins>(&mut seat.seat, segment as usize);
        (counted % STATE) as u32
    }

    /// The completed version, which this call loads. It is never less than the seat saw before.
    pub fn seen(&self, seat: &mut SeatToken) -> u32
        requires { seat.old.table ≡ self.now.table }
        ensures load { (seat.new.table ≡ seat.old.table)
            × (seat.new.pins ≡ pins_seen seat.old.pins result) }
        ensures later { seat.old.pins.seen ≤ result }
    {
        let word = self.segments as usize;
        self.table.shared.load::<SeesVersion>(&mut seat.seat, word) as u32
    }

    /// The incarnation of a segment that the seat pins, which this call loads: it is the one that the pin was given.
    pub fn pinned_incarnation(&self, seat: &mut SeatToken, segment: u32) -> u64
        requires table { seat.old.table ≡ self.now.table }
        requires within { segment < self.now.segments }
        requires pinned { 0 < times segment seat.old.pins.held }
        ensures kept { (i : ℕ) → 0 < times_at segment i seat.old.pins.held → result ≡ i }
        ensures seat { (seat.new.table ≡ seat.old.table)
            × (seat.new.pins.held ≡ seat.old.pins.held)
            × (seat.new.pins.seen ≡ seat.old.pins.seen) }
        ensures load { seat.new.pins.loads ≡ seat.old.pins.loads + 1 }
    {
        let found = self
            .table
            .shared
            .load::<CountsPins>(&mut seat.seat, segment as usize);
        found / INCARNATION
    }

    /// A pin that the seat holds has its segment's incarnation, and the segment is not free.
    #[tactic(auto, using(crate::proofs::Seats::cuts_and_joins))]
    pub fn agree(&self, standing: &mut Standing, seat: &mut SeatToken)
        requires table { (standing.old.table ≡ self.now.table) × (seat.old.table ≡ self.now.table) }
        ensures standing { standing.new ≡ standing.old }
        ensures seat { seat.new ≡ seat.old }
        ensures incarnation { (i : ℕ) →
            0 < times_at standing.old.life.segment i seat.old.pins.held →
            i ≡ standing.old.life.incarnation }
        ensures taken { 0 < times standing.old.life.segment seat.old.pins.held →
            standing.old.life.state ≢ Free }
    {
        let word = standing.segment as usize;
        let shared = &self.table.shared;
        let reader = shared.split_seat::<AllClaims>(&mut seat.seat);
        shared.join_seat::<Together>(&mut standing.seat, reader);
        shared.load::<Agrees>(&mut standing.seat, word);
        let back = shared.split_seat::<Second>(&mut standing.seat);
        seat.seat = back;
    }
}
