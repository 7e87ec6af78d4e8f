//! The tokens with which threads step.
ghost use Rattle.std.specs.Prelude.{◌≡◌};

use crate::plays::WordSeat;
use std::marker::Model;

/// The one right to move its segment's state. Where it is dropped the segment's state stays for ever.
#[derive(Drop)]
pub struct Standing {
    pub(crate) segment: u32,
    pub(crate) stamp: u32,
    pub(crate) seat: WordSeat,
}

impl Model for Standing {
    ghost use Rattle.words.specs.Tokens.{Post};

    ghost Value = { Post };

    ghost use Rattle.std.specs.Prelude.{◌≡◌, ◌+◌, ◌<◌, [], ◌∷◌};
    ghost use Rattle.words.specs.Claims.{life_of};
    ghost use Rattle.words.specs.declared.claim.SeatClaim.TheVariants.{Stands};

    ghost view = { λ s. record { table = s.seat.table_id; life = life_of s.seat.me.0 } };

    ghost invariant = { λ s. (s.seat.me.0 ≡ Stands (life_of s.seat.me.0) ∷ [])
        × (s.seat.me.1 ≡ []) × (s.segment ≡ (life_of s.seat.me.0).segment)
        × (s.stamp ≡ (life_of s.seat.me.0).stamp) × (s.segment + 1 < s.seat.table_id.words) };
}

/// The one right to open its segment, which is free. It must be spent.
pub struct FreeSlip {
    pub(crate) segment: u32,
    pub(crate) seat: WordSeat,
}

impl Model for FreeSlip {
    ghost use Rattle.words.specs.Tokens.{FreeSegment};

    ghost Value = { FreeSegment };

    ghost use Rattle.std.specs.Prelude.{◌≡◌, ◌+◌, ◌<◌, [], ◌∷◌};
    ghost use Rattle.words.specs.declared.claim.SeatClaim.TheVariants.{Slip};

    ghost view = { λ s. record { table = s.seat.table_id; segment = s.segment } };

    ghost invariant = { λ s. (s.seat.me.0 ≡ Slip s.segment ∷ []) × (s.seat.me.1 ≡ [])
        × (s.segment + 1 < s.seat.table_id.words) };
}

/// A free segment's slip as it lies in a queue, which may be dropped with the queue. Then nothing can open the segment.
#[derive(Drop)]
pub struct StoredSlip {
    segment: u32,
    seat: WordSeat,
}

impl Model for StoredSlip {
    ghost use Rattle.words.specs.Tokens.{FreeSegment};

    ghost Value = { FreeSegment };

    ghost use Rattle.std.specs.Prelude.{◌≡◌, ◌+◌, ◌<◌, [], ◌∷◌};
    ghost use Rattle.words.specs.declared.claim.SeatClaim.TheVariants.{Slip};

    ghost view = { λ s. record { table = s.seat.table_id; segment = s.segment } };

    ghost invariant = { λ s. (s.seat.me.0 ≡ Slip s.segment ∷ []) × (s.seat.me.1 ≡ [])
        × (s.segment + 1 < s.seat.table_id.words) };
}

/// The one right to append to its segment and to seal it, which is open. It must be spent.
pub struct OpenSlip {
    pub(crate) segment: u32,
    pub(crate) seat: WordSeat,
}

impl Model for OpenSlip {
    ghost use Rattle.words.specs.Tokens.{OpenSegment};

    ghost Value = { OpenSegment };

    ghost use Rattle.std.specs.Prelude.{◌≡◌, [], ◌∷◌};
    ghost use Rattle.words.specs.declared.claim.SeatClaim.TheVariants.{Appends};

    ghost view = { λ s. record { table = s.seat.table_id; segment = s.segment } };

    ghost invariant = { λ s. (s.seat.me.0 ≡ Appends s.segment ∷ []) × (s.seat.me.1 ≡ []) };
}

/// An open segment's slip as it lies in a log, which may be dropped with the log. Then nothing can seal the segment.
#[derive(Drop)]
pub struct StoredOpenSlip {
    segment: u32,
    seat: WordSeat,
}

impl Model for StoredOpenSlip {
    ghost use Rattle.words.specs.Tokens.{OpenSegment};

    ghost Value = { OpenSegment };

    ghost use Rattle.std.specs.Prelude.{◌≡◌, [], ◌∷◌};
    ghost use Rattle.words.specs.declared.claim.SeatClaim.TheVariants.{Appends};

    ghost view = { λ s. record { table = s.seat.table_id; segment = s.segment } };

    ghost invariant = { λ s. (s.seat.me.0 ≡ Appends s.segment ∷ []) × (s.seat.me.1 ≡ []) };
}

/// The most seats that readers have.
pub const SEATS: u32 = 64;

/// A reader's seat, which holds at most one pin a segment. The pins of a seat that is dropped stay for ever.
#[derive(Drop)]
pub struct SeatToken {
    pub(crate) seat: WordSeat,
}

impl Model for SeatToken {
    ghost use Rattle.words.specs.Tokens.{Holder};

    ghost Value = { Holder };

    ghost use Rattle.std.specs.Prelude.{◌≡◌, [], ◌∷◌};
    ghost use Rattle.words.specs.Claims.{pins_of};
    ghost use Rattle.words.specs.declared.claim.SeatClaim.TheVariants.{Reads};

    ghost view = { λ s. record { table = s.seat.table_id; pins = pins_of s.seat.me.0 } };

    ghost invariant = { λ s. (s.seat.me.0 ≡ Reads (pins_of s.seat.me.0) ∷ [])
        × (s.seat.me.1 ≡ []) };
}

/// The one right to advance the completed version.
#[derive(Drop)]
pub struct CheckpointSeat {
    pub(crate) seat: WordSeat,
}

impl Model for CheckpointSeat {
    ghost use Rattle.words.specs.Tokens.{Keeper};

    ghost Value = { Keeper };

    ghost use Rattle.std.specs.Prelude.{◌≡◌, [], ◌∷◌};
    ghost use Rattle.words.specs.Claims.{version_of};
    ghost use Rattle.words.specs.declared.claim.SeatClaim.TheVariants.{Checkpoint};

    ghost view = { λ s. record { table = s.seat.table_id; version = version_of s.seat.me.0 } };

    ghost invariant = { λ s. (s.seat.me.0 ≡ Checkpoint (version_of s.seat.me.0) ∷ [])
        × (s.seat.me.1 ≡ []) };
}

impl Standing {
    /// The number of its segment.
    pub fn segment(&self) -> u32
        ensures { result ≡ self.now.life.segment }
    {
        self.segment
    }
}

impl FreeSlip {
    /// The number of its segment.
    pub fn segment(&self) -> u32
        ensures { result ≡ self.now.segment }
    {
        self.segment
    }

    /// The slip in a form that may be dropped.
    pub fn store(self) -> StoredSlip
        ensures { result ≡ self }
    {
        let FreeSlip { segment, seat } = self;
        StoredSlip { segment, seat }
    }
}

impl StoredSlip {
    /// The number of its segment.
    pub fn segment(&self) -> u32
        ensures { result ≡ self.now.segment }
    {
        self.segment
    }

    /// The slip in the form that must be spent.
    pub fn restore(self) -> FreeSlip
        ensures { result ≡ self }
    {
        let StoredSlip { segment, seat } = self;
        FreeSlip { segment, seat }
    }
}

impl OpenSlip {
    /// The number of its segment.
    pub fn segment(&self) -> u32
        ensures { result ≡ self.now.segment }
    {
        self.segment
    }

    /// The slip in a form that may be dropped.
    pub fn store(self) -> StoredOpenSlip
        ensures { result ≡ self }
    {
        let OpenSlip { segment, seat } = self;
        StoredOpenSlip { segment, seat }
    }
}

impl StoredOpenSlip {
    /// The number of its segment.
    pub fn segment(&self) -> u32
        ensures { result ≡ self.now.segment }
    {
        self.segment
    }

    /// The slip in the form that must be spent.
    pub fn restore(self) -> OpenSlip
        ensures { result ≡ self }
    {
        let StoredOpenSlip { segment, seat } = self;
        OpenSlip { segment, seat }
    }
}
