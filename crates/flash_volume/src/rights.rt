//! What the calls of a volume ask for.
use file_cells::{FilePass, Seat};
use rights_permits::VolumeName;

/// The rights to a volume that are out: seats of readers, and passes of files. A volume is closed with all of them.
#[derive(Drop)]
pub struct Rights<V: VolumeName> {
    pub seats: Vec<Seat<V>>,
    pub passes: Vec<FilePass<V>>,
}
