//! What becomes of the blocks that are to be moved.
ghost use Rattle.std.specs.Prelude.{◌≡◌, ◌+◌, ◌<◌, ◌^◌};
ghost use Rattle.cleaning.specs.declared.fate.Fate.TheVariants as fates;

/// What became of a valid block of a section that is cleaned.
#[derive(Clone, Copy, PartialEq, Eq)]
pub enum Fate {
    /// It stands in a log now, and its old place is valid no more.
    Moved,
    /// Nobody names it any more as its summary says: it was moved or given back meanwhile.
    Gone,
}

/// How many blocks were moved, and how many were gone.
#[derive(Clone, Copy, PartialEq, Eq)]
pub struct MovedBlocks {
    pub moved: u32,
    pub gone: u32,
}

impl MovedBlocks {
    /// No block.
    pub const NONE: MovedBlocks = MovedBlocks { moved: 0, gone: 0 };

    /// One block more, of this fate.
    pub fn with(self, fate: Fate) -> MovedBlocks
        requires { self.moved + self.gone + 1 < 2 ^ 32 }
        ensures moved { fate ≡ fates.Moved → result ≡ record self { moved = self.moved + 1 } }
        ensures gone { fate ≡ fates.Gone → result ≡ record self { gone = self.gone + 1 } }
        ensures both { result.moved + result.gone ≡ self.moved + self.gone + 1 }
    {
        match fate {
            Fate::Moved => MovedBlocks {
                moved: self.moved + 1,
                gone: self.gone,
            },
            Fate::Gone => MovedBlocks {
                moved: self.moved,
                gone: self.gone + 1,
            },
        }
    }

    /// Those of two segments.
    pub fn plus(self, other: MovedBlocks) -> MovedBlocks
        requires { self.moved + self.gone + (other.moved + other.gone) < 2 ^ 32 }
        ensures { result ≡ record { moved = self.moved + other.moved; gone = self.gone + other.gone } }
    {
        MovedBlocks {
            moved: self.moved + other.moved,
            gone: self.gone + other.gone,
        }
    }
}
