//! Neighbouring blocks of a file are read at once.
ghost use Rattle.std.specs.Prelude.{◌≡◌, ◌+◌, ◌-◌, ◌*◌, ◌<◌, ◌≤◌, true, length, max, IfOk, OnOk};
ghost use Rattle.std.specs.Arc.{arc_value};
ghost use Rattle.file_device.specs.Held.{content_in, geometry_of, is_read, size_of};
ghost use Rattle.file_device.specs.declared.held.Held.TheVariants.{From};
ghost use Rattle.geometry.specs.Area.{block_count};
ghost use Rattle.geometry.specs.Shape.{block_bytes};

use crate::fault::FileFault;
use crate::held::Held;
use crate::kept::{SharedBytes, Site};
use crate::reading::fault_of;
use crate::whole::place_of;
use geometry::Error;
use std::alloc::{AllocError, Global};
use std::fs::File;
use std::os::unix::fs::FileExt;
use std::sync::Arc;

// The bytes that are read in one call at most.
const MOST_BYTES: u32 = 131_072;

/// Neighbouring blocks that were read in one call: so many, from a place on.
#[derive(Drop)]
pub(crate) struct Run {
    kept: Arc<SharedBytes<File>>,
    first: u32,
    count: u32,
    ghost begins: { (arc_value kept).held ≡ From (first + 1) },
    ghost long: { count * size_of (arc_value kept) ≤ length (arc_value kept).bytes.items },
}

impl Run {
    /// No block.
    pub(crate) fn none(alloc: Global, site: &Arc<Site<File>>) -> Result<Run, AllocError>
        ensures { IfOk result (λ run. geometry_of (arc_value run.kept) ≡ (arc_value site.now).geometry) }
    {
        let kept = SharedBytes::new(site, Held::From(1), Vec::new(alloc))?;
        Ok(Run {
            kept,
            first: 0,
            count: 0,
        })
    }

    /// What the block at a place holds, which the run has.
    pub(crate) fn block(&self, place: u32) -> Result<Arc<SharedBytes<File>>, AllocError>
        requires from { self.now.first ≤ place }
        requires below { place < self.now.first + self.now.count }
        ensures numbers { IfOk result (λ kept. geometry_of (arc_value kept) ≡ geometry_of (arc_value self.now.kept)) }
        ensures bytes { IfOk result (λ kept. content_in (arc_value kept) (place + 1) ≡ content_in (arc_value self.now.kept) (place + 1)) }
        ensures read { IfOk result (λ kept. is_read (arc_value kept).held ≡ true) }
        ensures length { IfOk result (λ kept. length (content_in (arc_value kept) (place + 1)) ≡ size_of (arc_value self.now.kept)) }
    {
        let _place = place;
        Arc::try_clone(&self.kept)
    }

    /// The run has the block at a place. If it has not yet, that block is read, and with it those behind it that are named.
    pub(crate) fn reach(
        &mut self,
        alloc: Global,
        site: &Arc<Site<File>>,
        named: &[bool],
        place: u32,
    ) -> Result<(), FileFault>
        requires numbers { geometry_of (arc_value self.old.kept) ≡ (arc_value site.now).geometry }
        requires named { length named.now ≡ block_count (arc_value site.now).geometry }
        requires place { place < block_count (arc_value site.now).geometry }
        ensures numbers { geometry_of (arc_value self.new.kept) ≡ (arc_value site.now).geometry }
        ensures from { OnOk result (self.new.first ≤ place) }
        ensures below { OnOk result (place < self.new.first + self.new.count) }
    {
        if self.first > place || place - self.first >= self.count {
            *self = read_run(alloc, site, named, place)?;
        }
        Ok(())
    }
}

// Reads the block at a place, and with it those behind it that are named, as far as one call goes.
fn read_run(
    alloc: Global,
    site: &Arc<Site<File>>,
    named: &[bool],
    place: u32,
) -> Result<Run, FileFault>
    requires named { length named.now ≡ block_count (arc_value site.now).geometry }
    requires place { place < block_count (arc_value site.now).geometry }
    ensures numbers { IfOk result (λ run. geometry_of (arc_value run.kept) ≡ (arc_value site.now).geometry) }
    ensures first { IfOk result (λ run. run.first ≡ place) }
    ensures some { IfOk result (λ run. 0 < run.count) }
{
    let size = site.geometry.shape.block_bytes();
    let count = count_named(&named[place as usize..], MOST_BYTES / size);
    let mut bytes = vec![in alloc; 0u8; count as usize * size as usize]?;
    let at = place_of(&site.geometry, place + 1);
    match site.store.store.read_exact_at(bytes.as_mut_slice(), at) {
        Ok(()) => Ok(Run {
            kept: SharedBytes::new(site, Held::From(place + 1), bytes)?,
            first: place,
            count,
        }),
        Err(error) => Err(fault_of(error, Error::BadImage(1))),
    }
}

// How many flags are set in front, at most so many; one counts always.
fn count_named(named: &[bool], most: u32) -> u32
    ensures some { 0 < result }
    ensures most { result ≤ max 1 most }
{
    let mut count = 1;
    for is_named in named.iter().skip(1) {
        if !*is_named || count >= most {
            break;
        }
        count += 1;
    }
    count
}
