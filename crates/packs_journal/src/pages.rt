//! A page of the meta area, and the same page of a body.
ghost use Rattle.std.specs.Prelude.{◌≡◌, ◌≤◌, ◌<◌, length, OnOk};
ghost use Rattle.device.specs.Disk.{IsQuiet, HasCause};
ghost use Rattle.packs_journal.specs.Places.{IsBody, IsArea, page_count, page_size as size_of_page};
ghost use Rattle.packs_journal.specs.Reading.{page_in};
ghost use Rattle.packs_journal.specs.Staging.{body_page};

use crate::map::{PageMap, copy_of};
use crate::places::{page_at, page_size, page_start};
use device::{DeviceError, Meta};

/// Reads the copy of a page that counts, of the pages of a body of this length.
pub(crate) fn read_page<M: Meta>(
    meta: &mut M,
    len: u64,
    map: &PageMap,
    k: u32,
    out: &mut [u8],
) -> Result<(), DeviceError>
    requires area { IsArea len (M.seen meta.old) }
    requires within { k < page_count len }
    requires size { length out.old ≡ size_of_page len k }
    ensures page { OnOk result (out.new ≡ page_in len map.now k (M.seen meta.old)) }
    ensures long { length out.new ≡ length out.old }
    ensures quiet { IsQuiet M.seen M.may_leave M.moment M.left_since meta.old meta.new }
    ensures cause { HasCause (M.failed meta.old) (M.failed meta.new) result }
{
    meta.read(page_at(k, copy_of(map, k)), out)?;
    Ok(())
}

/// A page of the rest of a body.
pub(crate) fn page_of(body: &[u8], k: u32) -> &[u8]
    requires body { IsBody (length body.now) }
    requires within { k < page_count (length body.now) }
    ensures page { result.now ≡ body_page (length body.now) k body.now }
    ensures size { length result.now ≡ size_of_page (length body.now) k }
    ensures few { length result.now ≤ 4096 }
{
    let len = body.len() as u64;
    let from = 56 + page_start(len, k) as usize;
    &body[from..from + page_size(len, k)]
}
