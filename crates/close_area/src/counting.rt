//! How many files live.
ghost use Rattle.std.specs.Prelude.{◌≡◌, ◌≤◌, vec_len};
ghost use Rattle.close_area.specs.Returned.{living};

use crate::written::WrittenFile;
use device::Block;
use rights_permits::VolumeName;

/// How many of the files live.
pub fn count_living<V: VolumeName, B: Block + Drop>(files: &Vec<WrittenFile<V, B>>) -> usize
    ensures count { result ≡ living files.now.items }
    ensures few { result ≤ vec_len files.now }
{
    let mut count = 0;
    for k in 0..files.len() {
        if files[k].lives() {
            count += 1;
        }
    }
    count
}
