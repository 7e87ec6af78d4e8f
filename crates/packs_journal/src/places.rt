//! Where heads, footers and pages lie in a meta area.
ghost use Rattle.std.specs.Prelude.{◌≡◌, ◌≤◌, ◌<◌, ◌+◌, ◌*◌, suc};
ghost use Rattle.packs_journal.specs.Places.{IsBody, head_at as place_of_head, footer_at as place_of_footer, page_at as place_of_page, page_count as pages_of, page_start as start_of_page, page_size as size_of_page, word_count as words_of, map_pages};

/// The bytes of a head.
pub const HEAD_BYTES: usize = 3584;

/// The bytes of a head's map, which has a bit for each page.
pub const MAP_BYTES: usize = 544;

/// The pages that a map has bits for.
pub const MAP_PAGES: u32 = 4352;

/// The bytes of a page.
pub(crate) const PAGE: usize = 4096;

/// The bytes of header and logs, with which a body begins.
pub(crate) const FRONT: u64 = 56;

/// Where the head of a slot begins.
pub fn head_at(slot: u32) -> u64
    requires { slot ≤ 1 }
    ensures { result ≡ place_of_head slot }
{
    4096 + 4096 * u64::from(slot)
}

/// Where the footer of a slot begins.
pub fn footer_at(slot: u32) -> u64
    requires { slot ≤ 1 }
    ensures { result ≡ place_of_footer slot }
{
    4096 + HEAD_BYTES as u64 + 4096 * u64::from(slot)
}

/// How many pages the rest of a body of this length has.
pub(crate) fn page_count(len: u64) -> u32
    requires { IsBody len }
    ensures { result ≡ pages_of len }
{
    ((len - FRONT + 4095) / 4096) as u32
}

/// How many words the rest of a body of this length has.
pub(crate) fn word_count(len: u64) -> u32
    requires { IsBody len }
    ensures { result ≡ words_of len }
{
    ((len - FRONT + 7) / 8) as u32
}

/// Where a copy of a page lies.
pub(crate) fn page_at(k: u32, copy: u32) -> u64
    requires { (k < map_pages) × (copy ≤ 1) }
    ensures { result ≡ place_of_page k copy }
{
    12288 + 8192 * u64::from(k) + 4096 * u64::from(copy)
}

/// Where in the rest of a body a page begins.
pub(crate) fn page_start(len: u64, k: u32) -> u64
    requires { IsBody len × (k ≤ map_pages) }
    ensures { result ≡ start_of_page len k }
{
    (len - FRONT).min(4096 * u64::from(k))
}

/// The bytes of a page, 4,096 of each but the last.
pub(crate) fn page_size(len: u64, k: u32) -> usize
    requires { IsBody len × (k < map_pages) }
    ensures size { result ≡ size_of_page len k }
    ensures few { result ≤ 4096 }
{
    (page_start(len, k + 1) - page_start(len, k)) as usize
}
