//! A slip as it lies in a queue.
ghost use Rattle.std.specs.Prelude.{◌≡◌};
ghost use Rattle.words.specs.Tokens.{fresh_slip};

use rights_permits::WordsName;
use std::marker::{Model, PhantomData};
use words::FreeSlip;

/// A slip of the named words, to contracts the number of its segment. It may be dropped with its queue.
#[derive(Drop)]
pub struct QueuedSlip<W: WordsName> {
    slip: words::StoredSlip,
    words: PhantomData<W>,
}

impl<W: WordsName> Model for QueuedSlip<W> {
    ghost use Rattle.std.specs.Prelude.{◌≡◌, ℕ};

    ghost Value = { ℕ };

    ghost view = { λ s. s.slip.segment };

    ghost invariant = { λ s. s.slip.table ≡ W.words };
}

impl<W: WordsName> QueuedSlip<W> {
    pub(crate) fn store(slip: FreeSlip) -> QueuedSlip<W>
        requires words { slip.table ≡ W.words }
        ensures { result ≡ slip.segment }
    {
        QueuedSlip {
            slip: slip.store(),
            words: PhantomData,
        }
    }

    pub(crate) fn restore(self) -> FreeSlip
        ensures { result ≡ fresh_slip W.words self }
    {
        self.slip.restore()
    }
}
