//! What a main area is put together from.
ghost use Rattle.std.specs.Prelude.{◌≡◌, ◌+◌, ◌<◌, ◌≤◌, ◌++◌, ◌∷◌, [], length, vec_len, vec_capacity};
ghost use Rattle.pool.specs.Law.{all_parts};
ghost use Rattle.area.specs.Opening.{SegmentsFall, PartsFall, AreSlips};
ghost use Rattle.area.specs.Slips.{HavePut};

use crate::cells::SegmentCell;
use device::Block;
use pool::{Pool, PoolPass};
use rights_books::PartAccount;
use rights_permits::{PoolName, VolumeName, WordsName};
use sit::SegmentState;
use std::sync::{Mutex, Wait};
use words::StoredSlip;

/// Puts the slips of free segments into the pool, the last one first, so that the reserve is filled before the ordinary
/// queue. The pass has all parts, so that none is refused: each is put, and none is kept. It takes no memory.
pub fn put_slips<W: WordsName, P: PoolName, R: Wait>(
    rt: &R,
    pool: &Pool<W, P>,
    pass: &mut PoolPass<W, P>,
    mut slips: Vec<StoredSlip>,
)
    requires all { all_parts ≤ pass.old.ordinary.parts }
    requires words { AreSlips W.words slips.items }
    requires room { length pass.old.ordinary.put + vec_len slips ≤ P.ordinary.slots }
    ensures put { HavePut [] pass.old pass.new slips.items [] }
{
    'slips: while let Some(stored) = slips.pop() {
        match pool.put(rt, pass, stored.restore()) {
            Ok(()) => {}
            Err(back) => {
                let _back = back.store();
                unreachable!()
            }
        }
    }
}

/// A lock for each segment, in rising order, with the account of its row. The segments and the accounts come in falling order,
/// those of the shards first, which stay; and there is room for the locks.
pub fn lock_segments<V: VolumeName, B: Block + Drop>(
    mut states: Vec<SegmentState<B>>,
    rows: &mut Vec<PartAccount>,
    mut cells: Vec<Mutex<SegmentCell<V, B>>>,
) -> Vec<Mutex<SegmentCell<V, B>>>
    requires states { SegmentsFall V.Numbers.geometry V.Books.books.book V.Words.words V.Numbers.geometry.segments states.items }
    requires count { vec_len states ≡ V.Numbers.geometry.segments }
    requires rows { PartsFall V.Books.rows (V.Numbers.geometry.segments + 16) rows.old.items }
    requires every_row { vec_len rows.old ≡ V.Numbers.geometry.segments + 16 }
    requires none { vec_len cells ≡ 0 }
    requires room { V.Numbers.geometry.segments ≤ vec_capacity cells }
    ensures count { vec_len result ≡ V.Numbers.geometry.segments }
    ensures rows { PartsFall V.Books.rows (V.Numbers.geometry.segments + 16) rows.new.items }
    ensures every_row { vec_len rows.new ≡ 16 }
{
    'states: while let Some(state) = states.pop() {
        let number = cells.len() as u32;
        let row = take_row(rows);
        cells.push_reserved(Mutex::new(SegmentCell::new(number, state, row)));
    }
    cells
}

/// The last account of some rows, which is there no more.
pub fn take_row(rows: &mut Vec<PartAccount>) -> PartAccount
    requires { 0 < vec_len rows.old }
    ensures { rows.old.items ≡ rows.new.items ++ result ∷ [] }
{
    match rows.pop() {
        Some(row) => row,
        None => unreachable!(),
    }
}
