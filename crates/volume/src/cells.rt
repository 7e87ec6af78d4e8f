//! What lies under a volume's locks beside its main area, its files and its packs.
ghost use Rattle.std.specs.Prelude.{◌≡◌, ◌≤◌, vec_len, vec_capacity};

use area_emptying::CloseRows;
use device::Block;
use rights_books::FileAccount;
use rights_permits::VolumeName;

/// Room for all that lies in a volume's locks.
pub struct SpareCell<V: VolumeName, B: Block + Drop> {
    pub rows: CloseRows<V, B>,
    pub accounts: Vec<FileAccount>,
    pub ghost none: { vec_len accounts ≡ 0 },
    pub ghost fit: { V.Numbers.geometry.files ≤ vec_capacity accounts },
}
