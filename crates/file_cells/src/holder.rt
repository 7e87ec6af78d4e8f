//! A reader's seat, with the pins that it holds.
ghost use Rattle.std.specs.Prelude.{◌≡◌, ◌<◌, ℕ};
ghost use Rattle.words.specs.Claims.{times};
ghost use Rattle.words.specs.Steps.{pins_with, pins_without};
ghost use Rattle.sit.specs.Pinned.{HasBlockIn};

use area::{MainArea, SegmentCell};
use device::Block;
use rights_books::FileAccount;
use rights_permits::VolumeName;
use std::marker::{Model, PhantomData};
use words::Words;

/// A reader's seat of the words, by the volume's name. To contracts it is the pins that it holds.
#[derive(Drop)]
pub(crate) struct Holder<V: VolumeName> {
    seat: words::SeatToken,
    volume: PhantomData<V>,
}

impl<V: VolumeName> Model for Holder<V> {
    ghost use Rattle.words.specs.declared.claim.Pins.{Pins};

    ghost Value = { Pins };

    ghost use Rattle.std.specs.Prelude.{◌≡◌};

    ghost view = { λ h. h.seat.pins };

    ghost invariant = { λ h. h.seat.table ≡ V.Words.words };
}

impl<V: VolumeName> Holder<V> {
    // A reader's seat of the words, by the volume's name.
    pub(crate) fn new(seat: words::SeatToken) -> Holder<V>
        requires { seat.table ≡ V.Words.words }
        ensures { result ≡ seat.pins }
    {
        Holder {
            seat,
            volume: PhantomData,
        }
    }

    // Pins a segment whose lock is held, and in which a block lies whose ticket is lodged in the file.
    pub(crate) fn pin<B: Block + Drop>(
        &mut self,
        area: &MainArea<V, B>,
        cell: &mut SegmentCell<V, B>,
        file: &mut FileAccount,
    )
        requires book { file.old.book ≡ V.Books.books.book }
        requires lodged { HasBlockIn cell.old.state.segment file.old.tickets }
        requires once { times cell.old.number self.old.held ≡ 0 }
        ensures pins { (incarnation : ℕ) × (self.new ≡ pins_with self.old cell.old.number incarnation) }
        ensures file { file.new ≡ file.old }
    {
        cell.state
            .pin(area.books(), area.words(), file, &mut self.seat);
    }

    // Lets go of its pin on a segment.
    pub(crate) fn unpin(&mut self, words: &Words, segment: u32)
        requires words { words.now.table ≡ V.Words.words }
        requires within { segment < words.now.segments }
        requires pinned { 0 < times segment self.old.held }
        ensures { self.new ≡ pins_without self.old segment }
    {
        words.unpin(&mut self.seat, segment);
    }
}
