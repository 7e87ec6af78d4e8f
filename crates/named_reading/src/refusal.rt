//! Why a command on named files was refused.
use thiserror::Error;

/// Why work on named files was refused, before anything was changed.
#[derive(Clone, Copy, Debug, PartialEq, Eq, Error)]
pub enum NameRefusal {
    /// The volume has no folder: its first file is none, or was not written by these calls.
    #[error("the volume has no folder of names")]
    NoFolder,
    /// The name is none: see `is_name`.
    #[error("a name has 1 to 255 bytes, is not . or .., and has no slash, line end or other control character")]
    BadName,
    /// The folder has no such name, or there is no file of such a number.
    #[error("there is no such file")]
    NoSuchFile,
    /// The folder names a file that is not there: another program deleted it. Its number would be a new file's.
    #[error("the folder names a file that is not there")]
    LostFile,
    /// The folder has the name already, and the file is not to be replaced.
    #[error("there is a file of that name")]
    NameTaken,
    /// The file would have more blocks than the volume has room for: see `flash_volume::usable_blocks`.
    #[error("the volume has no room for the file")]
    NoRoom,
}
