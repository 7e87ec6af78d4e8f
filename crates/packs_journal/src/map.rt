//! Which copy of each page counts.
ghost use Rattle.std.specs.Prelude.{◌≡◌, ◌≢◌, ◌≤◌, ◌<◌, ◌-◌, ℕ, length};
ghost use Rattle.packs_journal.specs.Places.{map_pages};
ghost use Rattle.packs_journal.specs.Journal.{copy_in, names_pages as names_pages_of};

use crate::places::{MAP_BYTES, MAP_PAGES};

/// A bit for each page, the lowest of each byte first: which of its two copies counts.
pub type PageMap = [u8; MAP_BYTES];

/// Which copy of a page counts, 0 or 1.
pub(crate) fn copy_of(map: &PageMap, k: u32) -> u32
    requires { k < map_pages }
    ensures copy { result ≡ copy_in map.now k }
    ensures within { result ≤ 1 }
{
    u32::from((map[k as usize / 8] >> (k % 8)) & 1)
}

/// Lets the other copy of a page count.
pub(crate) fn turn_page(map: &mut PageMap, k: u32)
    requires { k < map_pages }
    ensures turned { copy_in map.new k ≡ 1 - copy_in map.old k }
    ensures others { (j : ℕ) → j ≢ k → copy_in map.new j ≡ copy_in map.old j }
{
    map[k as usize / 8] ^= 1 << (k % 8);
}

/// Whether a map has bits for pages alone.
pub(crate) fn names_pages(pages: u32, map: &PageMap) -> bool
    ensures { result ≡ names_pages_of pages map.now map_pages }
{
    for k in 0..MAP_PAGES {
        if k >= pages && copy_of(map, k) != 0 {
            return false;
        }
    }
    true
}
