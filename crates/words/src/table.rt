//! The words, and the steps of a standing and of the checkpoint's seat.
//!
//! Bits 0 to 7 of a segment's word are its pins, bits 8 and 9 its state (0 free, 1 open, 2 sealed, 3 prefree), bits 16 to
//! 47 its incarnation, and the others are 0.
ghost use Rattle.std.specs.Prelude.{◌≡◌, ◌≢◌, ◌+◌, ◌^◌, ◌<◌, ◌≤◌, MatchOption};
ghost use Rattle.words.specs.Tokens.{IsOpened, IsSealed, IsRetired, IsFreed, IsKept, HasAdvanced};
ghost use Rattle.words.specs.Steps.{life_seen, life_loaded};
ghost use Rattle.geometry.specs.declared.state.State.TheVariants.{Free, Open, Sealed, Prefree};

use crate::plays::{
    Advances, AllClaims, Frees, LoadsVersion, Opens, PinsLoaded, Retires, Seals, Second,
    ShowsApart, ShowsOpen, Together, WordTable,
};
use crate::tokens::{CheckpointSeat, FreeSlip, OpenSlip, Standing};
use std::marker::Model;

/// One in a word's state.
pub(crate) const STATE: u64 = 1 << 8;

/// One in a word's incarnation.
pub(crate) const INCARNATION: u64 = 1 << 16;

/// One word a segment, and the completed version. All tokens are of one `Words`, which contracts see as
/// `{ table; segments }`.
#[derive(Drop)]
pub struct Words {
    pub(crate) table: WordTable,
    pub(crate) segments: u32,
}

impl Model for Words {
    ghost use Rattle.words.specs.Tokens.{Shelf};

    ghost Value = { Shelf };

    ghost use Rattle.std.specs.Prelude.{◌≡◌, ◌+◌};

    ghost view = { λ w. record { table = w.table.shared.table_id; segments = w.segments } };

    ghost invariant = { λ w. (w.table.shared.key.segments ≡ w.segments)
        × (w.table.shared.table_id.words ≡ w.segments + 1) };
}

impl Words {
    // The completed version.
    fn load_version(&self, standing: &mut Standing) -> u32
        requires { standing.old.table ≡ self.now.table }
        ensures table { standing.new.table ≡ standing.old.table }
        ensures life { standing.new.life ≡ life_seen standing.old.life result }
        ensures later { (standing.old.life.seen ≤ result)
            × (standing.old.life.incarnation ≤ result) }
    {
        let word = self.segments as usize;
        self.table
            .shared
            .load::<LoadsVersion>(&mut standing.seat, word) as u32
    }

    /// How many seats pin a standing's segment, which is not free, as this call's load shows.
    pub fn load_pins(&self, standing: &mut Standing) -> u32
        requires table { standing.old.table ≡ self.now.table }
        requires busy { standing.old.life.state ≢ Free }
        ensures table { standing.new.table ≡ standing.old.table }
        ensures life { standing.new.life ≡ life_loaded standing.old.life result }
        ensures few { result ≤ 64 }
    {
        let word = standing.segment as usize;
        let found = self
            .table
            .shared
            .load::<PinsLoaded>(&mut standing.seat, word);
        (found % STATE) as u32
    }

    /// The segment of a free slip, which is one of theirs.
    pub fn segment_of(&self, slip: &FreeSlip) -> u32
        requires { slip.now.table ≡ self.now.table }
        ensures number { result ≡ slip.now.segment }
        ensures within { result < self.now.segments }
    {
        let _ = &self.table;
        slip.segment
    }

    /// Opens a segment, in its next incarnation. Its slip shows that it is free, and is spent for the one open slip. So
    /// it cannot be refused.
    #[tactic(auto, using(crate::proofs::Seats::cuts_and_joins))]
    pub fn open(&self, standing: &mut Standing, slip: FreeSlip) -> OpenSlip
        requires table { standing.old.table ≡ self.now.table }
        requires slip { (slip.table ≡ standing.old.table)
            × (slip.segment ≡ standing.old.life.segment) }
        ensures { IsOpened standing.old result standing.new }
    {
        let FreeSlip { segment, seat } = slip;
        let word = standing.segment as usize;
        let shared = &self.table.shared;
        shared.join_seat::<Together>(&mut standing.seat, seat);
        shared.fetch_add::<Opens>(&mut standing.seat, word, INCARNATION + STATE);
        let seat = shared.split_seat::<Second>(&mut standing.seat);
        OpenSlip { segment, seat }
    }

    /// Shows that a segment is open, by its open slip. It changes nothing, and loads the segment's word.
    #[tactic(auto, using(crate::proofs::Seats::cuts_and_joins))]
    pub fn is_open(&self, standing: &mut Standing, slip: &mut OpenSlip)
        requires table { standing.old.table ≡ self.now.table }
        requires slip { (slip.old.table ≡ standing.old.table)
            × (slip.old.segment ≡ standing.old.life.segment) }
        ensures standing { standing.new ≡ standing.old }
        ensures slip { slip.new ≡ slip.old }
        ensures open { standing.old.life.state ≡ Open }
    {
        let word = standing.segment as usize;
        let shared = &self.table.shared;
        let appender = shared.split_seat::<AllClaims>(&mut slip.seat);
        shared.join_seat::<Together>(&mut standing.seat, appender);
        shared.load::<ShowsOpen>(&mut standing.seat, word);
        slip.seat = shared.split_seat::<Second>(&mut standing.seat);
    }

    /// Shows that two open slips are of two segments. It changes nothing, and loads the version word.
    #[tactic(auto, using(crate::proofs::Seats::cuts_and_joins))]
    pub fn differ(&self, one: &mut OpenSlip, other: &mut OpenSlip)
        requires tables { (one.old.table ≡ self.now.table) × (other.old.table ≡ self.now.table) }
        requires within { one.old.segment < self.now.segments }
        ensures one { one.new ≡ one.old }
        ensures other { other.new ≡ other.old }
        ensures apart { one.old.segment ≢ other.old.segment }
    {
        let word = self.segments as usize;
        let shared = &self.table.shared;
        let second = shared.split_seat::<AllClaims>(&mut other.seat);
        shared.join_seat::<Together>(&mut one.seat, second);
        shared.load::<ShowsApart>(&mut one.seat, word);
        other.seat = shared.split_seat::<Second>(&mut one.seat);
    }

    /// Seals a segment. Its open slip shows that it is open, and is spent. So it cannot be refused.
    #[tactic(auto, using(crate::proofs::Seats::cuts_and_joins))]
    pub fn seal(&self, standing: &mut Standing, slip: OpenSlip)
        requires table { standing.old.table ≡ self.now.table }
        requires slip { (slip.table ≡ standing.old.table)
            × (slip.segment ≡ standing.old.life.segment) }
        ensures { IsSealed standing.old standing.new }
    {
        let OpenSlip {
            segment: _,
            seat: spent,
        } = slip;
        let word = standing.segment as usize;
        let shared = &self.table.shared;
        shared.join_seat::<Together>(&mut standing.seat, spent);
        shared.fetch_add::<Seals>(&mut standing.seat, word, STATE);
    }

    /// Retires a sealed segment: it is prefree, stamped with the completed version, which is loaded first.
    pub fn retire(&self, standing: &mut Standing)
        requires table { standing.old.table ≡ self.now.table }
        requires sealed { standing.old.life.state ≡ Sealed }
        ensures { IsRetired standing.old standing.new }
    {
        let version = self.load_version(standing);
        let word = standing.segment as usize;
        self.table
            .shared
            .fetch_add::<Retires>(&mut standing.seat, word, STATE);
        standing.stamp = version;
    }

    /// Frees a prefree segment, and answers its one free slip. It answers `None`, and changes no state, where its loads
    /// showed a pin or a completed version that is not later than the stamp.
    #[tactic(auto, using(crate::proofs::Seats::cuts_and_joins))]
    pub fn free(&self, standing: &mut Standing) -> Option<FreeSlip>
        requires table { standing.old.table ≡ self.now.table }
        requires retired { standing.old.life.state ≡ Prefree }
        ensures { MatchOption result (IsKept standing.old standing.new)
            (λ slip. IsFreed standing.old slip standing.new) }
    {
        let pins = self.load_pins(standing);
        let completed = self.load_version(standing);
        if pins > 0 || completed <= standing.stamp {
            return None;
        }
        let segment = standing.segment;
        self.table
            .shared
            .fetch_sub::<Frees>(&mut standing.seat, segment as usize, 3 * STATE);
        let seat = self.table.shared.split_seat::<Second>(&mut standing.seat);
        Some(FreeSlip { segment, seat })
    }

    /// The next version is complete.
    pub fn advance(&self, seat: &mut CheckpointSeat)
        requires table { seat.old.table ≡ self.now.table }
        requires room { seat.old.version + 1 < 2 ^ 32 }
        ensures { HasAdvanced seat.old seat.new }
    {
        let word = self.segments as usize;
        self.table
            .shared
            .fetch_add::<Advances>(&mut seat.seat, word, 1);
    }
}
