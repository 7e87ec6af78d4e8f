//! Two laws of volumes: of mounting a device on which an image stands whole, as a format or a close leaves it; and the
//! headline, that what a volume's passes showed when it was closed is what they show once its device is mounted again.
#![tactic(auto)]

mod headline;
mod mount_laws;

pub use headline::headline_law;
pub use mount_laws::{format_law, mount_law};
