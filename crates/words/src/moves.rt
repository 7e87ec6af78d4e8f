//! A move of a segment's state, named by a value.
ghost use Rattle.std.specs.Prelude.{◌≡◌, MatchOption};
ghost use Rattle.words.specs.Moves.{MayMove, HasMoved, HasOpenSlip, IsOfFreeing};
ghost use Rattle.words.specs.declared.moves.Moved.TheVariants as told;

use crate::table::Words;
use crate::tokens::{FreeSlip, OpenSlip, Standing};

/// A move of a segment's state. To open takes the segment's free slip, and to seal its open slip.
pub enum Move {
    Open(FreeSlip),
    Seal(OpenSlip),
    Retire,
    Free,
}

/// What became of a move. It must be taken apart, since it may have a slip.
pub enum Moved {
    /// The segment was sealed or retired.
    Done,
    /// The segment was opened, and this is its open slip.
    Opened(OpenSlip),
    /// The segment was freed, and this is its free slip.
    Freed(FreeSlip),
    /// The segment was not freed: a pin is out, or no version is complete that is later than its stamp.
    Kept,
}

impl Moved {
    /// Ends the answer to a move that was made and gave no slip.
    pub fn done(self)
        requires { self ≡ told.Done }
    {
        match self {
            Moved::Done | Moved::Kept => {}
            Moved::Opened(
                OpenSlip {
                    segment: _,
                    seat: _,
                },
            ) => {}
            Moved::Freed(
                FreeSlip {
                    segment: _,
                    seat: _,
                },
            ) => {}
        }
    }

    /// The open slip of a segment that was opened.
    pub fn opened(self) -> OpenSlip
        requires { HasOpenSlip self }
        ensures { self ≡ told.Opened result }
    {
        match self {
            Moved::Opened(slip) => slip,
            Moved::Done | Moved::Kept => unreachable!(),
            Moved::Freed(
                FreeSlip {
                    segment: _,
                    seat: _,
                },
            ) => unreachable!(),
        }
    }

    /// The free slip of a segment that was to be freed, and `None` where it was kept.
    pub fn freed(self) -> Option<FreeSlip>
        requires { IsOfFreeing self }
        ensures { MatchOption result (self ≡ told.Kept) (λ slip. self ≡ told.Freed slip) }
    {
        match self {
            Moved::Freed(slip) => Some(slip),
            Moved::Kept => None,
            Moved::Done => unreachable!(),
            Moved::Opened(
                OpenSlip {
                    segment: _,
                    seat: _,
                },
            ) => unreachable!(),
        }
    }
}

impl Words {
    /// Moves a segment's state. To open answers `Moved::Opened` with the open slip, to seal and to retire answer
    /// `Moved::Done`, and to free answers `Moved::Freed` with the free slip, or `Moved::Kept`. No other move is refused.
    pub fn move_state(&self, standing: &mut Standing, wanted: Move) -> Moved
        requires table { standing.old.table ≡ self.now.table }
        requires may { MayMove standing.old wanted }
        ensures { HasMoved standing.old wanted result standing.new }
    {
        match wanted {
            Move::Open(slip) => Moved::Opened(self.open(standing, slip)),
            Move::Seal(slip) => {
                self.seal(standing, slip);
                Moved::Done
            }
            Move::Retire => {
                self.retire(standing);
                Moved::Done
            }
            Move::Free => match self.free(standing) {
                Some(slip) => Moved::Freed(slip),
                None => Moved::Kept,
            },
        }
    }
}
