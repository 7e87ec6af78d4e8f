//! Two threads write three files on a new volume in memory, which is closed and mounted again; then what it has is printed.
use crate::fill::Fill;
use crate::read_all::ReadAll;
use flash_volume::{
    Beside, Error, Geometry, Leave, MemDevice, Shape, work_on, work_side_by_side_on_new,
};
use std::alloc::Global;
use std::rt::Runtime;
use std::sync::Wait;
use std::thread::Threads;

pub fn write_and_read<R: Runtime + Threads + Wait + Sync>(
    rt: &R,
    alloc: Global,
) -> Result<(), Error> {
    // 16 segments of 8 blocks of 64 bytes, each a section of its own; at most 4 files, and 32 nodes.
    let geometry = Geometry::new(Shape::TINY, 16, 1, 4, 32)?;
    let parts = MemDevice::new(alloc, &geometry)?.split();
    let (one, other) = (Fill(b"ab"), Fill(b"c"));
    let works = vec![in alloc; Beside::new(alloc, one), Beside::new(alloc, other)]?;
    let made = work_side_by_side_on_new(rt, alloc, parts, geometry, Leave::Close, works)?;
    let mut found = work_on(rt, alloc, made.parts, Leave::Discard, ReadAll)?.output;
    found.sort()?; // which thread makes its files first is open
    let _ = println!(rt; "the files begin with {found:?}");
    Ok(())
}
