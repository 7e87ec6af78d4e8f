//! Pages are written over the copies that do not count.
ghost use Rattle.std.specs.Prelude.{◌≡◌, ◌≢◌, ◌≤◌, ◌<◌, ℕ, List, true, false, length, drop, OnOk};
ghost use Rattle.device.specs.Disk.{part, Leaves, LeavesOnly, HasCause};
ghost use Rattle.packs_journal.specs.Places.{IsArea, page_count as pages_of, page_at as place_of_page, page_size, map_pages};
ghost use Rattle.packs_journal.specs.Journal.{copy_in, names_pages};
ghost use Rattle.packs_journal.specs.Reading.{page_in, gathered};
ghost use Rattle.packs_journal.specs.Staging.{IsMapOf, IsMapped, IsBeside, IsBesideOne, body_page};
ghost use Rattle.packs_journal.specs.Pages.{has_page, DiffersIn};

use crate::bytes::are_same;
use crate::map::{PageMap, copy_of, turn_page};
use crate::page_set::PageSet;
use crate::pages::{page_of, read_page};
use crate::places::{PAGE, page_at, page_count};
use device::{DeviceError, Meta};

/// Writes each page in which a body differs from those that a map names over its copy that does not count, and turns its
/// bit. Only pages that may differ are read and compared. Nothing of it is settled yet. The pack of the slot that has this map
/// stays at every moment, and so do both footers.
pub(crate) fn turn_pages<M: Meta>(
    meta: &mut M,
    slot: u32,
    map: &mut PageMap,
    may_differ: &PageSet,
    body: &[u8],
) -> Result<(), DeviceError>
    requires mapped { IsMapped M.seen M.may_leave (length body.now) slot map.old meta.old }
    requires differs { DiffersIn may_differ.now (length body.now) map.old body.now (M.seen meta.old) }
    ensures pages { OnOk result ((k : ℕ) → k < pages_of (length body.now)
        → page_in (length body.now) map.new k (M.seen meta.new) ≡ body_page (length body.now) k body.now) }
    ensures turned { OnOk result (gathered (length body.now) map.new (pages_of (length body.now)) (M.seen meta.new) ≡ drop 56 body.now) }
    ensures named { names_pages (pages_of (length body.now)) map.new map_pages ≡ true }
    ensures beside { IsBeside (length body.now) slot (M.seen meta.old) (M.seen meta.new) }
    ensures any_moment { LeavesOnly M.moment M.left_since meta.old meta.new (IsBesideOne M.may_leave (length body.now) slot meta.old) }
    ensures cause { HasCause (M.failed meta.old) (M.failed meta.new) result }
{
    for k in 0..page_count(body.len() as u64) {
        put_page(meta, slot, map, may_differ, body, k)?;
    }
    Ok(())
}

// Writes one page, where the body's differs.
fn put_page<M: Meta>(
    meta: &mut M,
    slot: u32,
    map: &mut PageMap,
    may_differ: &PageSet,
    body: &[u8],
    k: u32,
) -> Result<(), DeviceError>
    requires area { IsArea (length body.now) (M.seen meta.old) }
    requires slot { slot ≤ 1 }
    requires within { k < pages_of (length body.now) }
    requires differs { has_page may_differ.now k ≡ false → page_in (length body.now) map.old k (M.seen meta.old) ≡ body_page (length body.now) k body.now }
    ensures page { OnOk result (page_in (length body.now) map.new k (M.seen meta.new) ≡ body_page (length body.now) k body.now) }
    ensures others { (j : ℕ) → j ≢ k → copy_in map.new j ≡ copy_in map.old j }
    ensures pages { (j : ℕ) → j < pages_of (length body.now) → j ≢ k
        → page_in (length body.now) map.new j (M.seen meta.new) ≡ page_in (length body.now) map.old j (M.seen meta.old) }
    ensures beside { (kept : List ℕ) → copy_in kept k ≡ copy_in map.old k → IsMapOf (length body.now) slot kept (M.seen meta.old)
        → IsBeside (length body.now) slot (M.seen meta.old) (M.seen meta.new) }
    ensures any_moment { (kept : List ℕ) → copy_in kept k ≡ copy_in map.old k
        → Leaves M.may_leave meta.old (IsMapOf (length body.now) slot kept)
        → LeavesOnly M.moment M.left_since meta.old meta.new (IsBesideOne M.may_leave (length body.now) slot meta.old) }
    ensures cause { HasCause (M.failed meta.old) (M.failed meta.new) result }
{
    if !may_differ.contains(k) {
        return Ok(());
    }
    let len = body.len() as u64;
    let new = page_of(body, k);
    let mut held = [0u8; PAGE];
    let old = &mut held[..new.len()];
    read_page(meta, len, map, k, old)?;
    if are_same(old, new) {
        return Ok(());
    }
    write_page(meta, slot, k, 1 - copy_of(map, k), len, new)?;
    turn_page(map, k);
    Ok(())
}

// Writes over a copy of a page. The pack of the slot stays where its map names the other copy.
fn write_page<M: Meta>(
    meta: &mut M,
    slot: u32,
    k: u32,
    copy: u32,
    len: u64,
    bytes: &[u8],
) -> Result<(), DeviceError>
    requires area { IsArea len (M.seen meta.old) }
    requires slot { slot ≤ 1 }
    requires within { k < pages_of len }
    requires copy { copy ≤ 1 }
    requires size { length bytes.now ≡ page_size len k }
    ensures written { OnOk result (part (place_of_page k copy) (page_size len k) (M.seen meta.new) ≡ bytes.now) }
    ensures others { (j a : ℕ) → j < pages_of len → a ≤ 1 → (j ≡ k → a ≢ copy)
        → part (place_of_page j a) (page_size len j) (M.seen meta.new) ≡ part (place_of_page j a) (page_size len j) (M.seen meta.old) }
    ensures beside { (kept : List ℕ) → copy_in kept k ≢ copy → IsMapOf len slot kept (M.seen meta.old)
        → IsBeside len slot (M.seen meta.old) (M.seen meta.new) }
    ensures any_moment { (kept : List ℕ) → copy_in kept k ≢ copy → Leaves M.may_leave meta.old (IsMapOf len slot kept)
        → LeavesOnly M.moment M.left_since meta.old meta.new (IsBesideOne M.may_leave len slot meta.old) }
    ensures cause { HasCause (M.failed meta.old) (M.failed meta.new) result }
{
    meta.write(page_at(k, copy), bytes)
}
