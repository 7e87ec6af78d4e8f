//! The search below the entries of a node.
ghost use Rattle.std.specs.Prelude.{◌≡◌, ◌*◌, ◌^◌, ◌<◌, length, MatchOption, IfOk, IfSome};
ghost use Rattle.nodes.specs.Tree.{ShapedIn, entry_at, find_in};
ghost use Rattle.nodes_walks.specs.Data.{IsNextData};
ghost use Rattle.nodes_walks.specs.Lent.{IsNextLent};

use crate::data_walk::{LentBlock, SeekData};
use device::DeviceError;
use nodes::Entries;

// The search below one of the entries.
fn next_at<C: SeekData>(
    below: &Entries<C>,
    place: usize,
    entries: usize,
    from: usize,
) -> Option<usize>
    requires at { place < length below.now.slots.items }
    requires some { 0 < entries }
    requires fits { C.span_of entries < 2 ^ 64 }
    requires shaped { C.shaped entries (entry_at below.now.slots.items place) }
    ensures { IsNextData (C.find entries (entry_at below.now.slots.items place)) from result }
{
    C::next_data(&below.slots[place], entries, from)
}

/// The least index at or past one at which a block stands below entries; None where there is none.
pub fn next_in<C: SeekData>(
    below: &Entries<C>,
    count: usize,
    entries: usize,
    from: usize,
) -> Option<usize>
    requires some { 0 < entries }
    requires fits { C.span_of entries < 2 ^ 64 }
    requires all { count * C.span_of entries < 2 ^ 64 }
    requires shaped { ShapedIn (C.shaped entries) count below.now.slots.items }
    ensures next { IsNextData (find_in (C.find entries) (C.span_of entries) below.now.slots.items) from result }
    ensures within { MatchOption result (Unit {0}) (λ index. index < count * C.span_of entries) }
{
    let span = C::span(entries);
    for place in from / span..count {
        let before = place * span;
        if let Some(index) = next_at(below, place, entries, from.saturating_sub(before)) {
            return Some(before + index);
        }
    }
    None
}

// The search below one of the entries, for a block that is lent.
fn lend_next_at<C: SeekData>(
    below: &mut Entries<C>,
    place: usize,
    entries: usize,
    from: usize,
) -> Result<Option<LentBlock<C::Lease>>, DeviceError>
    requires at { place < length below.old.slots.items }
    requires some { 0 < entries }
    requires fits { C.span_of entries < 2 ^ 64 }
    requires shaped { C.shaped entries (entry_at below.old.slots.items place) }
    ensures same { below.new ≡ below.old }
    ensures next { IfOk result (IsNextLent C.address_of C.content_of C.lent (C.find entries (entry_at below.old.slots.items place)) from) }
{
    C::lend_next(&mut below.slots[place], entries, from)
}

/// The block at the least index at or past one at which one stands below entries, lent; None where there is none. Answers
/// DeviceError where the device failed to lend it. The entries are as they were in each case.
pub fn lend_next_in<C: SeekData>(
    below: &mut Entries<C>,
    count: usize,
    entries: usize,
    from: usize,
) -> Result<Option<LentBlock<C::Lease>>, DeviceError>
    requires some { 0 < entries }
    requires fits { C.span_of entries < 2 ^ 64 }
    requires all { count * C.span_of entries < 2 ^ 64 }
    requires shaped { ShapedIn (C.shaped entries) count below.old.slots.items }
    ensures same { below.new ≡ below.old }
    ensures next { IfOk result (IsNextLent C.address_of C.content_of C.lent (find_in (C.find entries) (C.span_of entries) below.old.slots.items) from) }
    ensures within { IfOk result (λ found. IfSome found (λ lent. lent.index < count * C.span_of entries)) }
{
    let span = C::span(entries);
    for place in from / span..count {
        let before = place * span;
        let found = lend_next_at(below, place, entries, from.saturating_sub(before))?;
        if let Some(lent) = found {
            return Ok(Some(lent.behind(before)));
        }
    }
    Ok(None)
}
