//! A volume of any format is written anew in format 3.
use crate::fault::Fault;
use crate::image_run::open_volume;
use crate::new_file::UnnamedFile;
use flash_volume::Geometry;
use image_reading::upgrade;
use named_reading::OpenVolume;
use std::fs::{File, Files};
use std::time::Clock;
use tool_syntax::ImageFile;

/// Writes the volume of an image file, which is not changed, into a new image file of format 3, and answers the new volume's numbers.
/// That file gets its name once all of it is settled: where anything fails, or the program ends before, no file has the name.
pub fn upgrade_image<R: AllocGlobal + Clock + Files<File = File>>(
    rt: &R,
    image: ImageFile<'_>,
    to: &str,
) -> Result<Geometry, Fault> {
    let OpenVolume {
        geometry,
        image,
        source,
    } = open_volume(rt, image)?;
    let mut source = source;
    let mut new = UnnamedFile::beside(rt, to)?;
    let written = upgrade(rt.alloc(), &geometry, image, &mut source, &mut new.bytes);
    match written {
        Ok(made) => {
            new.settle_as(rt, to)?;
            Ok(made)
        }
        Err(fault) => Err(new.drop_for(rt, to, Fault::from(fault))),
    }
}
