//! A body is put together from its head, the pages that the head names, and the head's changes.
ghost use Rattle.std.specs.Prelude.{◌≡◌, ◌≢◌, ◌≤◌, ◌<◌, ◌+◌, suc, true, false, length, take, IfOk, OnOk, MatchOption};
ghost use Rattle.device.specs.Disk.{IsQuiet, HasCause};
ghost use Rattle.packs_journal.specs.Places.{IsBody, IsArea, area_bytes, page_count as pages_of, page_start as start_of_page};
ghost use Rattle.packs_journal.specs.Journal.{map_of as map_in, is_head as is_head_of};
ghost use Rattle.packs_journal.specs.Reading.{head_in, gathered, assembled};

use crate::changes::patch;
use crate::head::{CHANGES_AT, count_of, is_head, map_of, read_head};
use crate::map::{PageMap, copy_of};
use crate::pages::read_page;
use crate::places::{FRONT, HEAD_BYTES, head_at, page_at, page_count, page_size, page_start};
use device::{DeviceError, Meta};
use std::alloc::{AllocError, Global};

/// The map of a slot's pack, of a body of this length. None where its head is none. Answers DeviceError where the device
/// failed.
pub fn find_map<M: Meta>(meta: &mut M, len: u64, slot: u32) -> Result<Option<PageMap>, DeviceError>
    requires area { IsArea len (M.seen meta.old) }
    requires slot { slot ≤ 1 }
    ensures map { IfOk result (λ found. MatchOption found (is_head_of len (head_in slot (M.seen meta.old)) ≡ false)
        (λ map. (is_head_of len (head_in slot (M.seen meta.old)) ≡ true) × (map ≡ map_in (head_in slot (M.seen meta.old))))) }
    ensures quiet { IsQuiet M.seen M.may_leave M.moment M.left_since meta.old meta.new }
    ensures cause { HasCause (M.failed meta.old) (M.failed meta.new) result }
{
    let mut head = [0u8; HEAD_BYTES];
    read_head(meta, len, slot, &mut head)?;
    if is_head(len, &head) {
        Ok(Some(map_of(&head)))
    } else {
        Ok(None)
    }
}

/// Reads the body of a slot's pack, of as many bytes as `out` has. Answers false where its head is none: then the body is
/// shorter. Answers DeviceError where the device failed. The area stays as it is.
pub fn read_body<M: Meta>(meta: &mut M, slot: u32, out: &mut [u8]) -> Result<bool, DeviceError>
    requires area { IsArea (length out.old) (M.seen meta.old) }
    requires slot { slot ≤ 1 }
    ensures body { IfOk result (λ found. found ≡ true → out.new ≡ assembled (length out.old) slot (M.seen meta.old)) }
    ensures none { IfOk result (λ found. found ≡ false → length (assembled (length out.old) slot (M.seen meta.old)) ≢ length out.old) }
    ensures quiet { IsQuiet M.seen M.may_leave M.moment M.left_since meta.old meta.new }
    ensures cause { HasCause (M.failed meta.old) (M.failed meta.new) result }
{
    let len = out.len() as u64;
    let mut head = [0u8; HEAD_BYTES];
    read_head(meta, len, slot, &mut head)?;
    if !is_head(len, &head) {
        return Ok(false);
    }
    let (front, rest) = out.split_at_mut(56);
    front.copy_from_slice(&head[..56]);
    read_pages(meta, len, &map_of(&head), rest)?;
    patch(&head[CHANGES_AT..HEAD_BYTES], count_of(&head), rest);
    Ok(true)
}

/// The body of a slot's pack, of this length, in the bytes of a meta area. None where the slot's head is none: then the body is shorter.
pub fn assemble(
    alloc: Global,
    len: u64,
    area: &[u8],
    slot: u32,
) -> Result<Option<Vec<u8>>, AllocError>
    requires body { IsBody len }
    requires slot { slot ≤ 1 }
    requires long { area_bytes len ≤ length area.now }
    ensures { IfOk result (λ found. MatchOption found (length (assembled len slot area.now) ≢ len)
        (λ body. body.items ≡ assembled len slot area.now)) }
{
    let at = head_at(slot) as usize;
    let mut head = [0u8; HEAD_BYTES];
    head.copy_from_slice(&area[at..at + HEAD_BYTES]);
    if !is_head(len, &head) {
        return Ok(None);
    }
    let mut rest = gather(alloc, len, area, &map_of(&head))?;
    patch(
        &head[CHANGES_AT..HEAD_BYTES],
        count_of(&head),
        rest.as_mut_slice(),
    );
    let mut body = Vec::with_capacity(alloc, len as usize)?;
    body.extend_from_slice(&head[..56])?;
    body.extend_from_slice(rest.as_slice())?;
    Ok(Some(body))
}

// The pages that a map names, one after the other.
fn gather(alloc: Global, len: u64, area: &[u8], map: &PageMap) -> Result<Vec<u8>, AllocError>
    requires body { IsBody len }
    requires long { area_bytes len ≤ length area.now }
    ensures { IfOk result (λ rest. rest.items ≡ gathered len map.now (pages_of len) area.now) }
{
    let mut rest = Vec::with_capacity(alloc, (len - FRONT) as usize)?;
    for k in 0..page_count(len) {
        let from = page_at(k, copy_of(map, k)) as usize;
        rest.extend_from_slice(&area[from..from + page_size(len, k)])?;
    }
    Ok(rest)
}

// Reads the pages that a map names, one after the other.
fn read_pages<M: Meta>(
    meta: &mut M,
    len: u64,
    map: &PageMap,
    rest: &mut [u8],
) -> Result<(), DeviceError>
    requires area { IsArea len (M.seen meta.old) }
    requires long { 56 + length rest.old ≡ len }
    ensures read { OnOk result (rest.new ≡ gathered len map.now (pages_of len) (M.seen meta.old)) }
    ensures long { length rest.new ≡ length rest.old }
    ensures quiet { IsQuiet M.seen M.may_leave M.moment M.left_since meta.old meta.new }
    ensures cause { HasCause (M.failed meta.old) (M.failed meta.new) result }
{
    for k in 0..page_count(len) {
        let from = page_start(len, k) as usize;
        let end = from + page_size(len, k);
        read_page(meta, len, map, k, &mut rest[from..end])?;
    }
    Ok(())
}
