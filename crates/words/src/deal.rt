//! How the tokens are dealt from the first seat.
ghost use Rattle.std.specs.Prelude.{◌≡◌, ℕ, ◌<◌, ◌≤◌, List, [], ◌∷◌, ◌++◌, replicate, IfOk, IsOkUnless};
ghost use Rattle.words.specs.Claims.{fresh_segments, fresh_pins};
ghost use Rattle.words.specs.Tokens.{fresh_posts, fresh_slips, fresh_holder};
ghost use Rattle.words.specs.declared.claim.SeatClaim.TheVariants.{Checkpoint, Reads};
ghost use Rattle.geometry.specs.declared.error.Error.TheVariants.{NoMemory};

use crate::claim::Plan;
use crate::plays::{Second, WordSeat, WordTable};
use crate::table::Words;
use crate::tokens::{CheckpointSeat, FreeSlip, SeatToken, Standing};
use geometry::Error;
use std::alloc::{AllocError, AllocFailed, Global};

/// The words with all their tokens, as `Words::new` deals them. The slips must be spent.
pub struct Dealt {
    pub words: Words,
    /// One a segment, in the order of their numbers.
    pub standings: Vec<Standing>,
    /// One a segment, in the order of their numbers, since all are free.
    pub slips: Vec<FreeSlip>,
    /// The readers' seats.
    pub seats: Vec<SeatToken>,
    /// The one seat that advances the completed version.
    pub checkpoint: CheckpointSeat,
}

// Nothing can open these segments any more.
fn discard(mut slips: Vec<FreeSlip>) {
    while let Some(slip) = slips.pop() {
        let FreeSlip {
            segment: _,
            seat: _,
        } = slip;
    }
    slips.destroy_empty();
}

// The standing and the slip of each segment.
#[tactic(auto, using(crate::proofs::Seats::cuts_and_joins))]
fn deal_segments(
    words: &Words,
    seat: &mut WordSeat,
    seats: u32,
    version: u32,
    standings: &mut Vec<Standing>,
    slips: &mut Vec<FreeSlip>,
) -> Result<(), AllocError>
    requires table { seat.old.table_id ≡ words.now.table }
    requires claims { (seat.old.me.0 ≡ Checkpoint version ∷ fresh_segments 0 words.now.segments
        ++ replicate seats (Reads fresh_pins)) × (seat.old.me.1 ≡ []) }
    requires empty { (standings.old.items ≡ []) × (slips.old.items ≡ []) }
    ensures table { seat.new.table_id ≡ seat.old.table_id }
    ensures claims { IfOk result
        (λ _. (seat.new.me.0 ≡ Checkpoint version ∷ replicate seats (Reads fresh_pins))
        × (seat.new.me.1 ≡ [])) }
    ensures standings { IfOk result
        (λ _. standings.new.items ≡ fresh_posts words.now.table 0 words.now.segments) }
    ensures slips { IfOk result
        (λ _. slips.new.items ≡ fresh_slips words.now.table 0 words.now.segments) }
{
    let shared = &words.table.shared;
    for segment in 0..words.segments {
        let own = shared.split_seat::<Second>(seat);
        let slip = shared.split_seat::<Second>(seat);
        standings.push(Standing {
            segment,
            stamp: 0,
            seat: own,
        })?;
        if let Err(AllocFailed { value }) = slips.push(FreeSlip {
            segment,
            seat: slip,
        }) {
            let FreeSlip {
                segment: _,
                seat: _,
            } = value;
            return Err(AllocError);
        }
    }
    Ok(())
}

// The readers' seats.
#[tactic(auto, using(crate::proofs::Seats::cuts_and_joins))]
fn deal_seats(
    words: &Words,
    seat: &mut WordSeat,
    count: u32,
    version: u32,
    seats: &mut Vec<SeatToken>,
) -> Result<(), AllocError>
    requires table { seat.old.table_id ≡ words.now.table }
    requires claims { (seat.old.me.0 ≡ Checkpoint version ∷ replicate count (Reads fresh_pins))
        × (seat.old.me.1 ≡ []) }
    requires empty { seats.old.items ≡ [] }
    ensures table { seat.new.table_id ≡ seat.old.table_id }
    ensures claims { IfOk result (λ _. (seat.new.me.0 ≡ Checkpoint version ∷ [])
        × (seat.new.me.1 ≡ [])) }
    ensures seats { IfOk result
        (λ _. seats.new.items ≡ replicate count (fresh_holder words.now.table)) }
{
    let shared = &words.table.shared;
    for index in 0..count {
        let own = shared.split_seat::<Second>(seat);
        seats.push(SeatToken { seat: own })?;
    }
    Ok(())
}

impl Words {
    /// The words of so many segments, with all tokens. Each segment is free and was never open, so its incarnation is 0,
    /// and `version` is complete. A reader's seat has loaded nothing, and knows of version 1. It fails only where memory is
    /// out, and then nothing is left.
    pub fn new(alloc: Global, segments: u32, seats: u32, version: u32) -> Result<Dealt, Error>
        requires seats { seats ≤ 64 }
        requires version { 0 < version }
        ensures words { IfOk result (λ dealt. dealt.words.segments ≡ segments) }
        ensures standings { IfOk result
            (λ dealt. dealt.standings.items ≡ fresh_posts dealt.words.table 0 segments) }
        ensures slips { IfOk result
            (λ dealt. dealt.slips.items ≡ fresh_slips dealt.words.table 0 segments) }
        ensures seats { IfOk result
            (λ dealt. dealt.seats.items ≡ replicate seats (fresh_holder dealt.words.table)) }
        ensures checkpoint { IfOk result (λ dealt. (dealt.checkpoint.table ≡ dealt.words.table)
            × (dealt.checkpoint.version ≡ version)) }
        ensures memory { IsOkUnless result NoMemory }
    {
        let last = segments as usize;
        let mut row = vec![in alloc; 0u64; last + 1]?;
        row[last] = u64::from(version);
        let plan = Plan {
            segments: u64::from(segments),
            seats: u64::from(seats),
            version: u64::from(version),
        };
        let (table, mut seat) = WordTable::of_words(alloc, row.as_slice(), &plan)?;
        let words = Words { table, segments };
        let mut standings = Vec::new(alloc);
        let mut slips = Vec::new(alloc);
        let mut readers = Vec::new(alloc);
        if deal_segments(
            &words,
            &mut seat,
            seats,
            version,
            &mut standings,
            &mut slips,
        )
        .is_err()
            || deal_seats(&words, &mut seat, seats, version, &mut readers).is_err()
        {
            discard(slips);
            return Err(Error::NoMemory);
        }
        Ok(Dealt {
            words,
            standings,
            slips,
            seats: readers,
            checkpoint: CheckpointSeat { seat },
        })
    }
}
