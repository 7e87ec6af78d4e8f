//! What has changed of segments and shards is spelled into the kept body.
ghost use Rattle.std.specs.Prelude.{◌≡◌, ◌≢◌, ◌<◌, ◌+◌, ℕ, map, length, Some, OnOk};
ghost use Rattle.image.specs.Pack.{body_bytes};
ghost use Rattle.sit.specs.Noted.{segment_row};
ghost use Rattle.nat.specs.Noted.{shard_row};
ghost use Rattle.checkpoint_image.specs.Cells.{IsSegmentAt, IsShardAt};
ghost use Rattle.checkpoint_image.specs.Held.{segments_in, shards_in};
ghost use Rattle.checkpoint_image.specs.Kept.{row_at, AreSegmentParts, AreShardParts, AreNotedSegments, AreNotedShards};
ghost use Rattle.checkpoint_image.specs.Noting.{KeepsNumbers, AreSegmentsAt, AreShardsAt};
ghost use Rattle.checkpoint_image.specs.Touched.{AreTouched};

use crate::audited::{AuditedSegment, AuditedShard};
use crate::kept_body::KeptBody;
use crate::placing::{put_entries, put_segment};
use crate::segment::spell_row;
use device::Block;
use std::alloc::AllocError;

impl KeptBody {
    /// Spells each segment and each shard that has changed since its row was noted, and notes it. Then the body spells all of
    /// them as they are.
    ///
    /// The only error is that memory was refused: then some may be spelled and noted, and the others are as they were.
    pub(crate) fn note_all<B: Block + Drop, S: AuditedSegment<B>, H: AuditedShard<B>>(
        &mut self,
        segments: &mut Vec<S>,
        shards: &mut Vec<H>,
    ) -> Result<(), AllocError>
        requires every_segment { length segments.old.items ≡ self.old.geometry.segments }
        requires segments { AreSegmentsAt self.old.geometry (map S.shown segments.old.items) }
        requires segment_parts { AreSegmentParts self.old.rows (map S.shown segments.old.items) }
        requires every_shard { length shards.old.items ≡ 16 }
        requires shards { AreShardsAt self.old.geometry (map H.shown shards.old.items) }
        requires shard_parts { AreShardParts self.old.rows self.old.geometry.segments (map H.shown shards.old.items) }
        ensures same_segments { map S.shown segments.new.items ≡ map S.shown segments.old.items }
        ensures same_shards { map H.shown shards.new.items ≡ map H.shown shards.old.items }
        ensures there { OnOk result (0 < length self.new.body.bytes.items) }
        ensures noted_segments { OnOk result (AreNotedSegments self.new.twins.items (map S.shown segments.old.items)) }
        ensures noted_shards { OnOk result (AreNotedShards self.old.geometry.segments self.new.twins.items (map H.shown shards.old.items)) }
        ensures touched { AreTouched (body_bytes self.old.geometry) self.old.body self.new.body }
        ensures numbers { KeepsNumbers self.old self.new }
    {
        self.lay()?;
        self.note_segments(segments)?;
        self.note_shards(shards);
        Ok(())
    }

    // The segments.
    fn note_segments<B: Block + Drop, S: AuditedSegment<B>>(
        &mut self,
        segments: &mut Vec<S>,
    ) -> Result<(), AllocError>
        requires there { 0 < length self.old.body.bytes.items }
        requires every { length segments.old.items ≡ self.old.geometry.segments }
        requires segments { AreSegmentsAt self.old.geometry (map S.shown segments.old.items) }
        requires parts { AreSegmentParts self.old.rows (map S.shown segments.old.items) }
        ensures same { map S.shown segments.new.items ≡ map S.shown segments.old.items }
        ensures there { 0 < length self.new.body.bytes.items }
        ensures noted { OnOk result (AreNotedSegments self.new.twins.items (map S.shown segments.old.items)) }
        ensures touched { AreTouched (body_bytes self.old.geometry) self.old.body self.new.body }
        ensures numbers { KeepsNumbers self.old self.new }
    {
        let mut row = Vec::new(self.alloc);
        for number in 0..segments.len() {
            self.note_segment(&mut row, number, &mut segments[number])?;
        }
        Ok(())
    }

    // One segment.
    fn note_segment<B: Block + Drop, S: AuditedSegment<B>>(
        &mut self,
        row: &mut Vec<u8>,
        number: usize,
        segment: &mut S,
    ) -> Result<(), AllocError>
        requires there { 0 < length self.old.body.bytes.items }
        requires number { number < self.old.geometry.segments }
        requires segment { IsSegmentAt self.old.geometry number (S.shown segment.old).segment }
        requires part { (S.shown segment.old).part ≡ Some (record { book = self.old.rows; number = number }) }
        ensures same { S.shown segment.new ≡ S.shown segment.old }
        ensures there { 0 < length self.new.body.bytes.items }
        ensures noted { OnOk result (row_at self.new.twins.items number ≡ segment_row (S.shown segment.old).segment) }
        ensures others { (k : ℕ) → k ≢ number → row_at self.new.twins.items k ≡ row_at self.old.twins.items k }
        ensures touched { AreTouched (body_bytes self.old.geometry) self.old.body self.new.body }
        ensures numbers { KeepsNumbers self.old self.new }
    {
        if segment.segment().is_noted(&self.rows, &self.twins[number]) {
            return Ok(());
        }
        spell_row(row, self.geometry.shape, segment.segment())?;
        put_segment(&mut self.body, &self.geometry, number, row.as_slice());
        segment.note(&self.rows, &mut self.twins[number]);
        Ok(())
    }

    // The shards.
    fn note_shards<B: Block + Drop, H: AuditedShard<B>>(&mut self, shards: &mut Vec<H>)
        requires there { 0 < length self.old.body.bytes.items }
        requires every { length shards.old.items ≡ 16 }
        requires shards { AreShardsAt self.old.geometry (map H.shown shards.old.items) }
        requires parts { AreShardParts self.old.rows self.old.geometry.segments (map H.shown shards.old.items) }
        ensures same { map H.shown shards.new.items ≡ map H.shown shards.old.items }
        ensures there { 0 < length self.new.body.bytes.items }
        ensures noted { AreNotedShards self.old.geometry.segments self.new.twins.items (map H.shown shards.old.items) }
        ensures segments { (k : ℕ) → k < self.old.geometry.segments → row_at self.new.twins.items k ≡ row_at self.old.twins.items k }
        ensures touched { AreTouched (body_bytes self.old.geometry) self.old.body self.new.body }
        ensures numbers { KeepsNumbers self.old self.new }
    {
        for number in 0..shards.len() {
            self.note_shard(number, &mut shards[number]);
        }
    }

    // One shard.
    fn note_shard<B: Block + Drop, H: AuditedShard<B>>(&mut self, number: usize, shard: &mut H)
        requires there { 0 < length self.old.body.bytes.items }
        requires number { number < 16 }
        requires shard { IsShardAt self.old.geometry number (H.shown shard.old) }
        requires part { (H.shown shard.old).part ≡ Some (record { book = self.old.rows; number = self.old.geometry.segments + number }) }
        ensures same { H.shown shard.new ≡ H.shown shard.old }
        ensures there { 0 < length self.new.body.bytes.items }
        ensures noted { row_at self.new.twins.items (self.old.geometry.segments + number) ≡ shard_row (H.shown shard.old).taken }
        ensures others { (k : ℕ) → k ≢ self.old.geometry.segments + number → row_at self.new.twins.items k ≡ row_at self.old.twins.items k }
        ensures touched { AreTouched (body_bytes self.old.geometry) self.old.body self.new.body }
        ensures numbers { KeepsNumbers self.old self.new }
    {
        let part = self.geometry.segments as usize + number;
        if shard.shard().is_noted(&self.rows, &self.twins[part]) {
            return;
        }
        put_entries(&mut self.body, &self.geometry, number, shard.shard());
        shard.note(&self.rows, &mut self.twins[part]);
    }
}
