//! The words in which a body differs from the pages that count.
ghost use Rattle.std.specs.Prelude.{◌≡◌, ◌≢◌, ◌≤◌, ◌<◌, ◌+◌, ◌*◌, ◌/◌, suc, List, ℕ, true, false, length, drop, IfOk};
ghost use Rattle.device.specs.Disk.{IsQuiet, HasCause};
ghost use Rattle.packs_journal.specs.Places.{IsArea, page_count as pages_of, page_start, word_count as words_of, map_pages, most_changes};
ghost use Rattle.packs_journal.specs.Journal.{rises as rises_in, patched, AreRising, IsPatchedTo, ArePages};
ghost use Rattle.packs_journal.specs.Reading.{page_in, gathered};
ghost use Rattle.packs_journal.specs.Staging.{body_page};
ghost use Rattle.packs_journal.specs.Pages.{has_page, DiffersIn};

use crate::bytes::are_same;
use crate::changes::Changes;
use crate::map::PageMap;
use crate::page_set::PageSet;
use crate::pages::{page_of, read_page};
use crate::places::{PAGE, page_count};
use device::{DeviceError, Meta};

/// Notes each word in which a body differs from the pages that a map names, and its page. Only pages that may differ are read
/// and compared. Answers false where the words are more than a head has room for.
pub(crate) fn find_changes<M: Meta>(
    meta: &mut M,
    map: &PageMap,
    may_differ: &PageSet,
    body: &[u8],
    changes: &mut Changes,
) -> Result<bool, DeviceError>
    requires area { IsArea (length body.now) (M.seen meta.old) }
    requires differs { DiffersIn may_differ.now (length body.now) map.now body.now (M.seen meta.old) }
    requires none { changes.old.count ≡ 0 }
    ensures patched { IfOk result (λ found. found ≡ true
        → patched changes.new.bytes changes.new.count (gathered (length body.now) map.now (pages_of (length body.now)) (M.seen meta.old)) ≡ drop 56 body.now) }
    ensures rises { IfOk result (λ found. found ≡ true → rises_in (words_of (length body.now)) changes.new.bytes changes.new.count ≡ true) }
    ensures noted { IfOk result (λ found. found ≡ true → DiffersIn changes.new.pages (length body.now) map.now body.now (M.seen meta.old)) }
    ensures few { changes.new.count ≤ most_changes }
    ensures quiet { IsQuiet M.seen M.may_leave M.moment M.left_since meta.old meta.new }
    ensures cause { HasCause (M.failed meta.old) (M.failed meta.new) result }
{
    for k in 0..page_count(body.len() as u64) {
        if !compare_page(meta, map, may_differ, body, k, changes)? {
            return Ok(false);
        }
    }
    Ok(true)
}

// Notes each word in which a page of a body differs from the one that a map names, and the page, if it may differ. Answers
// false where there is no room.
fn compare_page<M: Meta>(
    meta: &mut M,
    map: &PageMap,
    may_differ: &PageSet,
    body: &[u8],
    k: u32,
    changes: &mut Changes,
) -> Result<bool, DeviceError>
    requires area { IsArea (length body.now) (M.seen meta.old) }
    requires within { k < pages_of (length body.now) }
    requires differs { has_page may_differ.now k ≡ false → page_in (length body.now) map.now k (M.seen meta.old) ≡ body_page (length body.now) k body.now }
    requires few { changes.old.count ≤ most_changes }
    ensures patched { IfOk result (λ found. found ≡ true
        → let whole = gathered (length body.now) map.now (pages_of (length body.now)) (M.seen meta.old) in
        IsPatchedTo changes.old.bytes changes.old.count whole (drop 56 body.now) (page_start (length body.now) k)
        → IsPatchedTo changes.new.bytes changes.new.count whole (drop 56 body.now) (page_start (length body.now) (suc k))) }
    ensures rises { IfOk result (λ found. found ≡ true
        → AreRising (words_of (length body.now)) changes.old.bytes changes.old.count (512 * k)
        → AreRising (words_of (length body.now)) changes.new.bytes changes.new.count (512 * suc k)) }
    ensures few { changes.new.count ≤ most_changes }
    ensures noted { IfOk result (λ _. has_page changes.new.pages k ≡ false
        → page_in (length body.now) map.now k (M.seen meta.old) ≡ body_page (length body.now) k body.now) }
    ensures others { (j : ℕ) → j ≢ k → has_page changes.new.pages j ≡ has_page changes.old.pages j }
    ensures quiet { IsQuiet M.seen M.may_leave M.moment M.left_since meta.old meta.new }
    ensures cause { HasCause (M.failed meta.old) (M.failed meta.new) result }
{
    if !may_differ.contains(k) {
        return Ok(true);
    }
    let new = page_of(body, k);
    let mut held = [0u8; PAGE];
    let old = &mut held[..new.len()];
    read_page(meta, body.len() as u64, map, k, old)?;
    if are_same(old, new) {
        return Ok(true);
    }
    changes.pages.insert(k);
    Ok(note_page(changes, k, old, new))
}

// Notes each word in which two pages differ, the pages with this number. Answers false where there is no room.
fn note_page(changes: &mut Changes, k: u32, old: &[u8], new: &[u8]) -> bool
    requires number { k < map_pages }
    requires few { changes.old.count ≤ most_changes }
    requires long { (length old.now ≡ length new.now) × (length new.now ≤ 4096) }
    ensures patched { result ≡ true → (before after : List ℕ) → ArePages k old.now new.now before after
        → IsPatchedTo changes.old.bytes changes.old.count before after (4096 * k)
        → IsPatchedTo changes.new.bytes changes.new.count before after (4096 * k + length new.now) }
    ensures rises { result ≡ true → (words : ℕ) → 512 * k + (length new.now + 7) / 8 ≤ words
        → AreRising words changes.old.bytes changes.old.count (512 * k)
        → AreRising words changes.new.bytes changes.new.count (512 * k + (length new.now + 7) / 8) }
    ensures few { changes.new.count ≤ most_changes }
    ensures pages { changes.new.pages ≡ changes.old.pages }
{
    for w in 0..(new.len() as u32 + 7) / 8 {
        let from = 8 * w as usize;
        let end = (from + 8).min(new.len());
        let word = &new[from..end];
        if !are_same(&old[from..end], word) && !changes.note(512 * k + w, word) {
            return false;
        }
    }
    true
}
