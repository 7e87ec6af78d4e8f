//! Three files are written on a new volume in memory, which is synced, closed and mounted again; then what it has is printed.
use crate::fill::Fill;
use crate::read_all::ReadAll;
use flash_volume::{Error, Geometry, Leave, MemDevice, Shape, work_on, work_on_new};
use std::alloc::Global;
use std::rt::Runtime;
use std::sync::Wait;

pub fn write_and_read<R: Runtime + Wait>(rt: &R, alloc: Global) -> Result<(), Error> {
    // 16 segments of 8 blocks of 64 bytes, each a section of its own; at most 4 files, and 32 nodes.
    let geometry = Geometry::new(Shape::TINY, 16, 1, 4, 32)?;
    let parts = MemDevice::new(alloc, &geometry)?.split();
    let written = work_on_new(rt, alloc, parts, geometry, Leave::Close, Fill(b"abc"))?;
    let read = work_on(rt, alloc, written.parts, Leave::Discard, ReadAll)?;
    let _ = println!(rt; "the files begin with {:?}", read.output);
    Ok(())
}
