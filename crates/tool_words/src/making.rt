//! A new volume is made.
use crate::fault::Fault;
use crate::limits::ask_numbers;
use crate::opener::Opener;
use file_device::FileFault;
use flash_volume::{Geometry, Leave, Packing, Shape, work_on_new};
use named_files::MakeFolder;
use std::fs;
use std::fs::{File, Files};
use std::sync::Wait;
use tool_syntax::VolumeSizes;

/// Makes an image file with a volume without files. Where that fails, no file is left.
pub fn make<P: Opener, R: AllocGlobal + Wait + Files<File = File>>(
    rt: &R,
    opener: &P,
    path: &str,
    numbers: VolumeSizes,
) -> Result<Geometry, Fault> {
    ask_numbers(&numbers)?;
    let geometry = geometry_of(numbers)?;
    let parts = match opener.create(rt, rt.alloc(), path, &geometry) {
        Ok(parts) => parts,
        Err(FileFault::Io(error)) => return Err(Fault::of_file(rt.alloc(), path, error)),
        Err(fault) => return Err(Fault::from(fault)),
    };
    match work_on_new(rt, rt.alloc(), parts, geometry, Leave::Close, MakeFolder) {
        Ok(_) => Ok(geometry),
        Err(fault) => {
            // What can't be removed either stays.
            let _ = fs::remove_file(rt, path);
            Err(Fault::Unmade(fault.error))
        }
    }
}

fn geometry_of(numbers: VolumeSizes) -> Result<Geometry, Fault> {
    let VolumeSizes {
        is_tiny,
        segments,
        per_section,
        files,
        nodes,
    } = numbers;
    let shape = if is_tiny { Shape::TINY } else { Shape::KERNEL };
    let geometry = Geometry::new(shape, segments, per_section, files, nodes)?;
    Ok(geometry.with_packing(Packing::Pages))
}
