//! What is known of the pages of a pack.
ghost use Rattle.std.specs.Prelude.{◌≡◌, ◌<◌, ℕ, true, replicate};
ghost use Rattle.packs_journal.specs.Places.{map_bytes, map_pages};
ghost use Rattle.packs_journal.specs.Pages.{has_page};

use crate::map::PageMap;
use crate::page_set::PageSet;
use crate::places::MAP_BYTES;

/// What is known of the pages of a pack.
#[derive(Clone, Copy)]
pub struct KnownPages {
    /// Which copy of each page counts.
    pub map: PageMap,
    /// The pages in which the body may differ from the copies that count, since the journal has words of them.
    pub noted: PageSet,
}

impl KnownPages {
    /// Nothing: the first copies, and any page may differ.
    pub fn nothing() -> KnownPages
        ensures map { result.map ≡ replicate map_bytes 0 }
        ensures noted { (k : ℕ) → k < map_pages → has_page result.noted k ≡ true }
    {
        KnownPages {
            map: [0; MAP_BYTES],
            noted: PageSet::all(),
        }
    }
}
