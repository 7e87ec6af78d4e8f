//! The bytes of a pack's body, and which of its pages have been touched.
ghost use Rattle.std.specs.Prelude.{◌≡◌, ◌<◌, ◌≤◌, ◌+◌, ◌-◌, ◌*◌, ◌/◌, ℕ, [], true, length};
ghost use Rattle.device.specs.Disk.{Holds, part};
ghost use Rattle.packs_journal.specs.Places.{IsBody, map_pages};
ghost use Rattle.packs_journal.specs.Pages.{has_page};
ghost use Rattle.checkpoint_image.specs.Touched.{AreTouched, lies_in};

use packs_journal::PageSet;
use std::alloc::Global;

// A page has so many bytes, the first behind header and logs.
const PAGE: usize = 4096;

// Header and logs take so many bytes, which are in no page.
const HEAD: usize = 56;

/// The body of a pack, and each of its pages that was touched since it was the body of the pack that counts.
#[derive(Drop)]
pub struct TouchedBody {
    /// None, or all bytes of the body.
    pub bytes: Vec<u8>,
    pub touched: PageSet,
}

impl TouchedBody {
    /// A body of which no byte is there, and each page counts as touched.
    pub fn new(alloc: Global) -> TouchedBody
        ensures none { result.bytes.items ≡ [] }
        ensures touched { (k : ℕ) → k < map_pages → has_page result.touched k ≡ true }
    {
        TouchedBody {
            bytes: Vec::new(alloc),
            touched: PageSet::all(),
        }
    }

    /// Puts bytes over others behind header and logs. Their pages are touched, unless they are the same.
    pub(crate) fn put(&mut self, at: usize, bytes: &[u8])
        requires body { IsBody (length self.old.bytes.items) }
        requires behind { 56 ≤ at }
        requires within { at + length bytes.now ≤ length self.old.bytes.items }
        ensures bytes { Holds self.old.bytes.items at bytes.now self.new.bytes.items }
        ensures touched { AreTouched (length self.old.bytes.items) self.old self.new }
    {
        if stands_at(self.bytes.as_slice(), at, bytes) {
            return;
        }
        touch(&mut self.touched, at - HEAD, bytes.len());
        put_bytes(&mut self.bytes, at, bytes);
    }
}

// Whether these bytes stand at a place.
fn stands_at(all: &[u8], at: usize, bytes: &[u8]) -> bool
    requires { at + length bytes.now ≤ length all.now }
    ensures { result ≡ true → part at (length bytes.now) all.now ≡ bytes.now }
{
    let there = &all[at..at + bytes.len()];
    *there == *bytes
}

/// Puts bytes over others.
pub(crate) fn put_bytes(all: &mut Vec<u8>, at: usize, bytes: &[u8])
    requires { at + length bytes.now ≤ length all.old.items }
    ensures { Holds all.old.items at bytes.now all.new.items }
{
    let end = at + bytes.len();
    all.as_mut_slice()[at..end].copy_from_slice(bytes);
}

// Touches each page in which some of so many bytes lie, the first of them so far behind header and logs.
fn touch(pages: &mut PageSet, from: usize, count: usize)
    requires few { from + count ≤ 17825792 }
    ensures touched { (k : ℕ) → lies_in from count k → has_page pages.new k ≡ true }
    ensures others { (k : ℕ) → has_page pages.old k ≡ true → has_page pages.new k ≡ true }
{
    for k in from / PAGE..(from + count).div_ceil(PAGE) {
        pages.insert(k as u32);
    }
}
