//! All of a pack but its footer is put beside the pack that counts.
ghost use Rattle.std.specs.Prelude.{◌≡◌, ◌≤◌, ◌<◌, ◌-◌, ℕ, true, false, length, drop, OnOk};
ghost use Rattle.device.specs.Disk.{Only, LeavesOnly, HasCause};
ghost use Rattle.packs_journal.specs.Places.{IsArea, page_count, word_count, map_pages, most_changes};
ghost use Rattle.packs_journal.specs.Journal.{map_of, names_pages, rises, patched, is_head};
ghost use Rattle.packs_journal.specs.Reading.{head_in, page_in, gathered, assembled};
ghost use Rattle.packs_journal.specs.Staging.{IsMapped, IsBeside, IsBesideOne, body_page};
ghost use Rattle.packs_journal.specs.Pages.{has_page, DiffersIn};

use crate::changes::Changes;
use crate::difference::find_changes;
use crate::head::{CHANGES_AT, spell_head};
use crate::known::KnownPages;
use crate::map::PageMap;
use crate::page_set::PageSet;
use crate::places::head_at;
use crate::turning::turn_pages;
use device::{DeviceError, Meta};

/// Settles a body as the pack of the other slot, all but its footer. What is known of pages is that of the pack that counts,
/// in `slot`, if it has one, and becomes that of the new pack. Only pages that are touched or noted are read and compared: the
/// body has to be as the copies that count in all others. Where the head has room for each word in which the body differs from
/// the pages, the head alone is written; else each page that differs, and a head without changes.
///
/// Answers DeviceError where the device failed; then the other slot has any pack. The pack in `slot` stays at every moment,
/// and so do both footers.
pub fn stage<M: Meta>(
    meta: &mut M,
    slot: u32,
    pages: &mut KnownPages,
    touched: &PageSet,
    body: &[u8],
) -> Result<(), DeviceError>
    requires mapped { IsMapped M.seen M.may_leave (length body.now) slot pages.old.map meta.old }
    requires differs { (k : ℕ) → k < page_count (length body.now) → has_page touched.now k ≡ false → has_page pages.old.noted k ≡ false
        → page_in (length body.now) pages.old.map k (M.seen meta.old) ≡ body_page (length body.now) k body.now }

    ensures staged { OnOk result (assembled (length body.now) (1 - slot) (M.seen meta.new) ≡ body.now) }
    ensures head { OnOk result (is_head (length body.now) (head_in (1 - slot) (M.seen meta.new)) ≡ true) }
    ensures map { OnOk result (map_of (head_in (1 - slot) (M.seen meta.new)) ≡ pages.new.map) }
    ensures named { names_pages (page_count (length body.now)) pages.new.map map_pages ≡ true }
    ensures noted { OnOk result (DiffersIn pages.new.noted (length body.now) pages.new.map body.now (M.seen meta.new)) }
    ensures durable { OnOk result (Only (M.seen meta.new) (M.may_leave meta.new)) }

    ensures beside { IsBeside (length body.now) slot (M.seen meta.old) (M.seen meta.new) }
    // A crash at any moment of the call leaves an area beside one that it might have left before, also where it fails.
    ensures any_moment { LeavesOnly M.moment M.left_since meta.old meta.new (IsBesideOne M.may_leave (length body.now) slot meta.old) }
    ensures cause { HasCause (M.failed meta.old) (M.failed meta.new) result }
{
    let mut may_differ = *touched;
    may_differ.add(&pages.noted);
    let mut changes = Changes::new();
    prepare(meta, slot, &mut pages.map, &may_differ, body, &mut changes)?;
    write_head(meta, slot, &pages.map, body, &changes)?;
    pages.noted = changes.pages;
    meta.sync()
}

// Notes the words in which the body differs from the pages; where they are too many, writes each page that differs, and notes
// none. Nothing of it is settled yet.
fn prepare<M: Meta>(
    meta: &mut M,
    slot: u32,
    map: &mut PageMap,
    may_differ: &PageSet,
    body: &[u8],
    changes: &mut Changes,
) -> Result<(), DeviceError>
    requires mapped { IsMapped M.seen M.may_leave (length body.now) slot map.old meta.old }
    requires differs { DiffersIn may_differ.now (length body.now) map.old body.now (M.seen meta.old) }
    requires none { changes.old.count ≡ 0 }
    ensures patched { OnOk result (patched changes.new.bytes changes.new.count (gathered (length body.now) map.new (page_count (length body.now)) (M.seen meta.new)) ≡ drop 56 body.now) }
    ensures rises { OnOk result (rises (word_count (length body.now)) changes.new.bytes changes.new.count ≡ true) }
    ensures few { OnOk result (changes.new.count ≤ most_changes) }
    ensures noted { OnOk result (DiffersIn changes.new.pages (length body.now) map.new body.now (M.seen meta.new)) }
    ensures named { names_pages (page_count (length body.now)) map.new map_pages ≡ true }
    ensures beside { IsBeside (length body.now) slot (M.seen meta.old) (M.seen meta.new) }
    ensures any_moment { LeavesOnly M.moment M.left_since meta.old meta.new (IsBesideOne M.may_leave (length body.now) slot meta.old) }
    ensures cause { HasCause (M.failed meta.old) (M.failed meta.new) result }
{
    let found = find_changes(meta, map, may_differ, body, changes)?;
    if found {
        return Ok(());
    }
    turn_pages(meta, slot, map, may_differ, body)?;
    changes.clear();
    Ok(())
}

// Writes the head of the pack in the other slot. Nothing of it is settled yet.
fn write_head<M: Meta>(
    meta: &mut M,
    slot: u32,
    map: &PageMap,
    body: &[u8],
    changes: &Changes,
) -> Result<(), DeviceError>
    requires area { IsArea (length body.now) (M.seen meta.old) }
    requires slot { slot ≤ 1 }
    requires named { names_pages (page_count (length body.now)) map.now map_pages ≡ true }
    requires few { changes.now.count ≤ most_changes }
    requires rises { rises (word_count (length body.now)) changes.now.bytes changes.now.count ≡ true }
    requires patched { patched changes.now.bytes changes.now.count (gathered (length body.now) map.now (page_count (length body.now)) (M.seen meta.old)) ≡ drop 56 body.now }
    ensures staged { OnOk result (assembled (length body.now) (1 - slot) (M.seen meta.new) ≡ body.now) }
    ensures head { OnOk result (is_head (length body.now) (head_in (1 - slot) (M.seen meta.new)) ≡ true) }
    ensures map { OnOk result (map_of (head_in (1 - slot) (M.seen meta.new)) ≡ map.now) }
    ensures pages { (k : ℕ) → k < page_count (length body.now)
        → page_in (length body.now) map.now k (M.seen meta.new) ≡ page_in (length body.now) map.now k (M.seen meta.old) }
    ensures beside { IsBeside (length body.now) slot (M.seen meta.old) (M.seen meta.new) }
    ensures any_moment { LeavesOnly M.moment M.left_since meta.old meta.new (IsBesideOne M.may_leave (length body.now) slot meta.old) }
    ensures cause { HasCause (M.failed meta.old) (M.failed meta.new) result }
{
    let head = spell_head(body, map, changes);
    let bytes = CHANGES_AT + 12 * changes.count as usize;
    meta.write(head_at(1 - slot), &head[..bytes])
}
