//! The rights to hold snapshots.
ghost use Rattle.std.specs.Prelude.{◌≡◌, ◌-◌, [], length, replicate, vec_len, IfOk, IfErr};
ghost use Rattle.geometry.specs.declared.error.Error.TheVariants.{NoMemory};
ghost use Rattle.words.specs.Claims.{fresh_pins};
ghost use Rattle.words.specs.Tokens.{fresh_holder};

use crate::holder::Holder;
use geometry::Error;
use rights_permits::VolumeName;
use std::alloc::Global;
use std::marker::Model;
use words::SEATS;

/// The right to hold one snapshot of the volume of this name, which has 64. It holds no pin: while a snapshot is held, its
/// seat lies in the snapshot. To contracts it is what a reader's seat of the words is. Closing the volume asks for all of
/// them.
#[derive(Drop)]
pub struct Seat<V: VolumeName> {
    pub(crate) holder: Holder<V>,
}

impl<V: VolumeName> Model for Seat<V> {
    ghost use Rattle.words.specs.declared.claim.Pins.{Pins};

    ghost Value = { Pins };

    ghost use Rattle.std.specs.Prelude.{◌≡◌, []};

    ghost view = { λ s. s.holder };

    ghost invariant = { λ s. s.holder.held ≡ [] };
}

impl<V: VolumeName> Seat<V> {
    /// A reader's seat of the words that holds no pin, by the volume's name.
    pub fn new(seat: words::SeatToken) -> Seat<V>
        requires table { seat.table ≡ V.Words.words }
        requires none { seat.pins.held ≡ [] }
        ensures { result ≡ seat.pins }
    {
        Seat {
            holder: Holder::new(seat),
        }
    }
}

/// The seats that the words deal, by the volume's name. The only error is NoMemory.
pub fn name_seats<V: VolumeName>(
    alloc: Global,
    seats: Vec<words::SeatToken>,
) -> Result<Vec<Seat<V>>, Error>
    requires { seats.items ≡ replicate (vec_len seats) (fresh_holder V.Words.words) }
    ensures seats { IfOk result (λ named. named.items ≡ replicate (vec_len seats) fresh_pins) }
    ensures error { IfErr result (λ error. error ≡ NoMemory) }
{
    let mut named = Vec::new(alloc);
    for seat in seats {
        if named.push(Seat::new(seat)).is_err() {
            return Err(Error::NoMemory);
        }
    }
    Ok(named)
}

/// How many of the volume's seats are missing among these.
pub fn seats_out<V: VolumeName>(seats: &[Seat<V>]) -> u32
    ensures { result ≡ 64 - length seats.now }
{
    (SEATS as usize).saturating_sub(seats.len()) as u32
}
