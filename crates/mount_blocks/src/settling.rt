//! The state of a segment, once its blocks have come.
ghost use Rattle.std.specs.Prelude.{◌≡◌, ◌+◌, ◌<◌, ◌≤◌, [], length, replicate, None, vec_capacity, IfOk};
ghost use Rattle.image.specs.Rules.{IsLawful};
ghost use Rattle.image.specs.View.{image_view};
ghost use Rattle.words.specs.Claims.{fresh_life};
ghost use Rattle.mount_blocks.specs.States.{HasOwners, AreSegmentsFrom};

use crate::owners::{log_in, numbers_of};
use crate::segment_rights::StateRight;
use device::Block;
use geometry::Geometry;
use image::Image;
use rights_books::Books;
use sit::{Loading, SegmentState};
use std::alloc::{AllocError, Global};
use words::{StoredOpenSlip, StoredSlip, Words};

/// Segments, the last one first, the slips of those that are free, and for each log the slip of the segment in which it
/// stands.
#[derive(Drop)]
pub struct LoadedSegments<B: Block + Drop> {
    pub states: Vec<SegmentState<B>>,
    pub free: Vec<StoredSlip>,
    pub logs: Vec<Option<StoredOpenSlip>>,
}

impl<B: Block + Drop> LoadedSegments<B> {
    /// The memory of the segments of a volume.
    pub fn new(alloc: Global, geometry: &Geometry) -> Result<LoadedSegments<B>, AllocError>
        ensures none { IfOk result (λ segments. (segments.states.items ≡ []) × (segments.free.items ≡ []) × (segments.logs.items ≡ replicate 6 None)) }
        ensures states { IfOk result (λ segments. geometry.now.segments ≤ vec_capacity segments.states) }
        ensures free { IfOk result (λ segments. geometry.now.segments ≤ vec_capacity segments.free) }
    {
        let count = geometry.segments as usize;
        let states = Vec::with_capacity(alloc, count)?;
        let free = Vec::with_capacity(alloc, count)?;
        let mut logs = Vec::with_capacity(alloc, 6)?;
        for _log in 0u32..6 {
            logs.push_reserved(None);
        }
        Ok(LoadedSegments { states, free, logs })
    }

    /// A segment whose blocks have all come is open where a log stands in it, free where no block is valid, and else sealed.
    pub(crate) fn settle(
        &mut self,
        geometry: &Geometry,
        image: &Image,
        books: &Books,
        words: &Words,
        loading: Loading<B>,
        number: u32,
        right: StateRight,
    )
        requires lawful { IsLawful geometry.now (image_view image.now) }
        requires number { number < geometry.now.segments }
        requires left { loading.left ≡ 0 }
        requires whose { (loading.shape ≡ geometry.now.shape) × (loading.number ≡ number) × (loading.book ≡ books.now.book) }
        requires owners { HasOwners geometry.now (image_view image.now) number 0 loading.summaries }
        requires standing { right.standing ≡ record { table = words.now.table; life = fresh_life number } }
        requires slip { right.slip ≡ record { table = words.now.table; segment = number } }
        requires before { AreSegmentsFrom geometry.now (image_view image.now) books.now.book words.now.table (number + 1) self.old.states.items self.old.free.items self.old.logs.items }
        requires states { geometry.now.segments ≤ vec_capacity self.old.states }
        requires free { geometry.now.segments ≤ vec_capacity self.old.free }
        ensures segments { AreSegmentsFrom geometry.now (image_view image.now) books.now.book words.now.table number self.new.states.items self.new.free.items self.new.logs.items }
        ensures states { vec_capacity self.new.states ≡ vec_capacity self.old.states }
        ensures free { vec_capacity self.new.free ≡ vec_capacity self.old.free }
    {
        let _books = books;
        let _geometry = geometry;
        let StateRight {
            standing,
            slip: stored,
        } = right;
        let (valid, mtime) = numbers_of(image, number);
        match log_in(image, number) {
            Some((log, place)) => {
                let slip = stored.restore();
                let (state, opened) = loading.into_open(words, standing, slip, place.next, mtime);
                self.logs[log] = Some(opened.store());
                self.states.push_reserved(state);
            }
            None => {
                if valid == 0 {
                    self.free.push_reserved(stored);
                    self.states
                        .push_reserved(loading.into_free(standing, mtime));
                } else {
                    let slip = stored.restore();
                    let state = loading.into_sealed(words, standing, slip, mtime);
                    self.states.push_reserved(state);
                }
            }
        }
    }
}
