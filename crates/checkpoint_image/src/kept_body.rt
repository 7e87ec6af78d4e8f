//! The body of a pack is kept from one checkpoint to the next.
ghost use Rattle.std.specs.Prelude.{◌≡◌, ◌<◌, ◌+◌, ◌^◌, ℕ, [], ◌∷◌, ◌++◌, true, false, length, take, drop, OnOk};
ghost use Rattle.packs_journal.specs.Places.{map_pages};
ghost use Rattle.std.specs.List.{flat_map};
ghost use Rattle.image.specs.Node.{numbers};
ghost use Rattle.image.specs.Pack.{body_bytes, log_bytes};
ghost use Rattle.packs_journal.specs.Pages.{has_page};
ghost use Rattle.rights_books.specs.RowAccounts.{AreBlank};
ghost use Rattle.rights_books.specs.PartRow.{AreInOrder};
ghost use Rattle.rights_books.specs.RowRules.{blank};
ghost use Rattle.checkpoint_image.specs.Kept.{IsKeptBody, row_at};
ghost use Rattle.checkpoint_image.specs.Touched.{AreTouched};

use crate::touched_body::{TouchedBody, put_bytes};
use geometry::Geometry;
use image::LogHead;
use pack_tables::spell_head;
use packs_journal::PageSet;
use rights_books::{KeptAccount, Rows};
use std::alloc::{AllocError, Global};

/// The body of the pack that was written last, and the row of each part that it spells. The twins of these rows lie with the
/// parts: so of a part that has not changed since its row was noted it is known that the body spells it.
///
/// As long as no checkpoint was taken it has no bytes, and no row is noted.
#[derive(Drop)]
pub struct KeptBody {
    pub alloc: Global,
    /// The numbers of the volume.
    pub geometry: Geometry,
    /// The rows of the volume's parts, its segments first and then its shards.
    pub rows: Rows,
    /// The twin of the account of each part.
    pub twins: Vec<KeptAccount>,
    /// The bytes, and which pages may differ from the pack that counts.
    pub body: TouchedBody,
    pub ghost every_twin: { length twins.items ≡ geometry.segments + 16 },
    pub ghost in_order: { AreInOrder rows twins.items },
    pub ghost spelled: { 0 < length body.bytes.items → IsKeptBody geometry twins.items body.bytes.items },
    pub ghost unspelled: { length body.bytes.items ≡ 0 → (k : ℕ) → row_at twins.items k ≡ blank },
    pub ghost fresh: { length body.bytes.items ≡ 0 → (k : ℕ) → k < map_pages → has_page body.touched k ≡ true },
}

impl KeptBody {
    /// That of a volume of which no checkpoint was taken. It takes memory with the first one.
    pub fn new(alloc: Global, geometry: &Geometry, rows: Rows, twins: Vec<KeptAccount>) -> KeptBody
        requires every { length twins.items ≡ geometry.now.segments + 16 }
        requires blank { AreBlank rows twins.items }
        ensures geometry { result.geometry ≡ geometry.now }
        ensures rows { result.rows ≡ rows }
        ensures touched { (k : ℕ) → k < map_pages → has_page result.body.touched k ≡ true }
    {
        KeptBody {
            alloc,
            geometry: *geometry,
            rows,
            twins,
            body: TouchedBody::new(alloc),
        }
    }

    /// The body is that of the pack that counts from now on: no page of it is touched.
    pub fn settle(&mut self)
        requires there { 0 < length self.old.body.bytes.items }
        ensures pages { (k : ℕ) → has_page self.new.body.touched k ≡ false }
        ensures bytes { self.new.body.bytes ≡ self.old.body.bytes }
        ensures numbers { (self.new.geometry ≡ self.old.geometry) × (self.new.rows ≡ self.old.rows) }
    {
        self.body.touched = PageSet::new();
    }

    // Takes the memory of all bytes, if it is not there yet. A body of zeros spells blank rows. The only error is that it was
    // refused, and then nothing has changed.
    pub(crate) fn lay(&mut self) -> Result<(), AllocError>
        ensures there { OnOk result (0 < length self.new.body.bytes.items) }
        ensures twins { self.new.twins ≡ self.old.twins }
        ensures touched { AreTouched (body_bytes self.old.geometry) self.old.body self.new.body }
        ensures numbers { (self.new.geometry ≡ self.old.geometry) × (self.new.rows ≡ self.old.rows) }
    {
        if self.body.bytes.len() > 0 {
            return Ok(());
        }
        let bytes = self.geometry.pack_bytes() as usize - 4;
        self.body.bytes = vec![in self.alloc; 0u8; bytes]?;
        Ok(())
    }

    // Spells header and logs in front of the rows. The only error is that memory was refused, and then nothing has changed.
    pub(crate) fn put_head(
        &mut self,
        version: u32,
        total: u32,
        logs: &[Option<LogHead>],
    ) -> Result<(), AllocError>
        requires there { 0 < length self.old.body.bytes.items }
        requires six { length logs.now ≡ 6 }
        ensures front { OnOk result (take 56 self.new.body.bytes.items ≡ numbers (version ∷ total ∷ []) ++ flat_map log_bytes logs.now) }
        ensures small { OnOk result ((version < 2 ^ 32) × (total < 2 ^ 32)) }
        ensures rest { drop 56 self.new.body.bytes.items ≡ drop 56 self.old.body.bytes.items }
        ensures there { length self.new.body.bytes.items ≡ length self.old.body.bytes.items }
        ensures twins { self.new.twins ≡ self.old.twins }
        ensures touched { AreTouched (body_bytes self.old.geometry) self.old.body self.new.body }
        ensures numbers { (self.new.geometry ≡ self.old.geometry) × (self.new.rows ≡ self.old.rows) }
    {
        let mut head = Vec::new(self.alloc);
        spell_head(&mut head, version, total, logs)?;
        put_bytes(&mut self.body.bytes, 0, head.as_slice());
        Ok(())
    }
}
