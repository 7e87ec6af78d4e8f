//! Sets of pages.
ghost use Rattle.std.specs.Prelude.{◌≡◌, ◌≢◌, ◌<◌, ℕ, true, false, ◌||◌};
ghost use Rattle.packs_journal.specs.Places.{map_pages};
ghost use Rattle.packs_journal.specs.Pages.{has_page};

use crate::places::MAP_BYTES;

/// A set of the pages of a body: those with the numbers 0 to 4,351, of which each has the bytes behind header and logs from
/// 4,096 times its number on.
#[derive(Clone, Copy)]
pub struct PageSet {
    // A bit for each page, the lowest of each byte first.
    bits: [u8; MAP_BYTES],
}

impl PageSet {
    /// No page.
    pub fn new() -> PageSet
        ensures { (k : ℕ) → has_page result k ≡ false }
    {
        PageSet {
            bits: [0; MAP_BYTES],
        }
    }

    /// Each page.
    pub fn all() -> PageSet
        ensures { (k : ℕ) → k < map_pages → has_page result k ≡ true }
    {
        PageSet {
            bits: [255; MAP_BYTES],
        }
    }

    /// Whether a page is in the set.
    pub fn contains(&self, k: u32) -> bool
        requires { k < map_pages }
        ensures { result ≡ has_page self.now k }
    {
        (self.bits[k as usize / 8] >> (k % 8)) & 1 == 1
    }

    /// Adds a page.
    pub fn insert(&mut self, k: u32)
        requires { k < map_pages }
        ensures inserted { has_page self.new k ≡ true }
        ensures others { (j : ℕ) → j ≢ k → has_page self.new j ≡ has_page self.old j }
    {
        self.bits[k as usize / 8] |= 1 << (k % 8);
    }

    /// Adds each page of another set.
    pub fn add(&mut self, other: &PageSet)
        ensures { (k : ℕ) → has_page self.new k ≡ (has_page self.old k || has_page other.now k) }
    {
        for i in 0..MAP_BYTES {
            self.bits[i] |= other.bits[i];
        }
    }
}
