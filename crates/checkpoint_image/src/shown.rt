//! The rows of what is held.
ghost use Rattle.std.specs.Prelude.{replicate};
ghost use Rattle.std.specs.List.{flat_map};
ghost use Rattle.image.specs.Image.{no_node};
ghost use Rattle.checkpoint_image.specs.Held.{entries_in, infos_in, summaries_in};
ghost use Rattle.checkpoint_image.specs.Taken.{put_rows, nodes_in};

use crate::held::{HoldsFile, HoldsSegment, HoldsShard};
use crate::row_log::ShowsRows;
use device::Block;
use std::marker::PhantomData;

/// Shards, segments, and files, whose nodes stand in as many rows as there are node numbers, each in the row of its number.
#[derive(Drop)]
pub(crate) struct HeldRows<'a, B, S: 'a, H: 'a, F: 'a> {
    pub(crate) count: u32,
    pub(crate) shards: &'a [H],
    pub(crate) segments: &'a [S],
    pub(crate) files: &'a [F],
    pub(crate) block: PhantomData<B>,
}

impl<
    'a,
    B: Block + Drop,
    S: HoldsSegment<B> + 'a,
    H: HoldsShard<B> + 'a,
    F: HoldsFile + 'a,
> ShowsRows for HeldRows<'a, B, S, H, F> {
    ghost rows = { λ s. record {
      entries = entries_in H.shown s.shards.now s.count;
      segments = infos_in S.shown s.segments.now;
      summaries = summaries_in S.shown s.segments.now;
      nodes = put_rows (replicate s.count no_node) (flat_map (λ f. nodes_in (F.shown f).tree) s.files.now);
    } };
}
