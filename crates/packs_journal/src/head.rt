//! The head of a pack, as its bytes tell it.
ghost use Rattle.std.specs.Prelude.{◌≡◌, ◌≤◌, ◌+◌, length, take, OnOk};
ghost use Rattle.device.specs.Disk.{IsQuiet, HasCause};
ghost use Rattle.image.specs.Reading.{number_at};
ghost use Rattle.packs_journal.specs.Places.{IsBody, IsArea, head_bytes, most_changes};
ghost use Rattle.packs_journal.specs.Journal.{map_of as map_in, changes_of, is_head as is_head_of};
ghost use Rattle.packs_journal.specs.Reading.{head_in};

use crate::bytes::{put_bytes, put_number};
use crate::changes::{Changes, MOST, rises};
use crate::map::{PageMap, names_pages};
use crate::places::{HEAD_BYTES, MAP_BYTES, head_at, page_count, word_count};
use byteorder::{ByteOrder, LittleEndian};
use device::{DeviceError, Meta};

/// Where in a head its changes begin.
pub(crate) const CHANGES_AT: usize = 608;

/// Reads the head of a slot.
pub(crate) fn read_head<M: Meta>(
    meta: &mut M,
    len: u64,
    slot: u32,
    head: &mut [u8; HEAD_BYTES],
) -> Result<(), DeviceError>
    requires area { IsArea len (M.seen meta.old) }
    requires slot { slot ≤ 1 }
    ensures head { OnOk result (head.new ≡ head_in slot (M.seen meta.old)) }
    ensures quiet { IsQuiet M.seen M.may_leave M.moment M.left_since meta.old meta.new }
    ensures cause { HasCause (M.failed meta.old) (M.failed meta.new) result }
{
    meta.read(head_at(slot), head)?;
    Ok(())
}

/// The number of a head's changes.
pub(crate) fn count_of(head: &[u8; HEAD_BYTES]) -> u32
    ensures { result ≡ number_at head.now 56 }
{
    number_in(head, 56)
}

// The number in four bytes of a head.
fn number_in(head: &[u8; HEAD_BYTES], at: usize) -> u32
    requires { at + 4 ≤ length head.now }
    ensures { result ≡ number_at head.now at }
{
    LittleEndian::read_u32(&head[at..])
}

/// A head's map.
pub(crate) fn map_of(head: &[u8; HEAD_BYTES]) -> PageMap
    ensures { result ≡ map_in head.now }
{
    let mut map = [0u8; MAP_BYTES];
    map.copy_from_slice(&head[64..CHANGES_AT]);
    map
}

/// Whether the bytes are a head of a body of this length.
pub(crate) fn is_head(len: u64, head: &[u8; HEAD_BYTES]) -> bool
    requires { IsBody len }
    ensures { result ≡ is_head_of len head.now }
{
    if number_in(head, 60) != 0 {
        return false;
    }
    let count = count_of(head);
    if count > MOST {
        return false;
    }
    if !names_pages(page_count(len), &map_of(head)) {
        return false;
    }
    rises(word_count(len), &head[CHANGES_AT..HEAD_BYTES], count)
}

/// The bytes of a head: the first 56 of a body, the number of the changes, four zeros, a map, and the changes.
pub(crate) fn spell_head(body: &[u8], map: &PageMap, changes: &Changes) -> [u8; HEAD_BYTES]
    requires body { 56 ≤ length body.now }
    requires few { changes.now.count ≤ most_changes }
    ensures long { length result ≡ head_bytes }
    ensures front { take 56 result ≡ take 56 body.now }
    ensures count { number_at result 56 ≡ changes.now.count }
    ensures zeros { number_at result 60 ≡ 0 }
    ensures map { map_in result ≡ map.now }
    ensures changes { changes_of result ≡ changes.now.bytes }
{
    let mut head = [0u8; HEAD_BYTES];
    put_bytes(&mut head, 0, &body[..56]);
    put_number(&mut head, 56, changes.count);
    put_bytes(&mut head, 64, map);
    put_bytes(&mut head, CHANGES_AT, changes.bytes());
    head
}
