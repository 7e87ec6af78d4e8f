//! The steps of a segment's standing that its blocks ask for.
ghost use Rattle.std.specs.Prelude.{◌≡◌, Some};
ghost use Rattle.geometry.specs.declared.state.State.TheVariants.{Open, Sealed};
ghost use Rattle.sit.specs.Registered.{HasLivedOn as HasSealedFull, HasStood as HasRetiredEmpty, slip_after as slip_left};
ghost use Rattle.sit.specs.declared.segment.Released.TheVariants.{Retired};

use crate::segment::Released;
use geometry::State;
use words::{Standing, StoredOpenSlip, Words};

// Shows that a standing's segment is open, by its slip.
pub(crate) fn show_open(words: &Words, standing: &mut Standing, slip: &mut Option<StoredOpenSlip>)
    requires table { standing.old.table ≡ words.now.table }
    requires slip { slip.old ≡ Some (record { table = standing.old.table; segment = standing.old.life.segment }) }
    ensures state { standing.old.life.state ≡ Open }
    ensures standing { standing.new ≡ standing.old }
    ensures slip { slip.new ≡ slip.old }
{
    match slip.take() {
        Some(stored) => {
            let mut open = stored.restore();
            words.is_open(standing, &mut open);
            *slip = Some(open.store());
        }
        None => unreachable!(),
    }
}

// Seals a standing's segment where it has this state, and spends its slip.
pub(crate) fn seal_full(
    words: &Words,
    standing: &mut Standing,
    slip: &mut Option<StoredOpenSlip>,
    state: State,
)
    requires table { standing.old.table ≡ words.now.table }
    requires slip { slip.old ≡ Some (record { table = standing.old.table; segment = standing.old.life.segment }) }
    ensures standing { HasSealedFull state standing.old standing.new }
    ensures slip { slip.new ≡ slip_left state slip.old }
{
    match state {
        State::Sealed => match slip.take() {
            Some(stored) => words.seal(standing, stored.restore()),
            None => unreachable!(),
        },
        State::Free | State::Open | State::Prefree => {}
    }
}

// Retires a standing's segment where it has lost its last valid block.
pub(crate) fn retire_empty(words: &Words, standing: &mut Standing, released: Released)
    requires table { standing.old.table ≡ words.now.table }
    requires sealed { released ≡ Retired → standing.old.life.state ≡ Sealed }
    ensures { HasRetiredEmpty released standing.old standing.new }
{
    match released {
        Released::Kept => {}
        Released::Retired => words.retire(standing),
    }
}
