//! Named files of bytes on a volume: what each command of the tool does with them, as work over the front door.
//!
//! The folder (`named_folder`) is the file of number 1. No call but `Clean` and `MakeRoom` writes a checkpoint, so that what a piece of
//! work did is seen by a later run whole, once the volume is closed, or not at all.
#![tactic(auto)]

mod content;
mod law;
mod making_room;
mod room;
mod tidy;
mod walk;
mod work;

pub use law::{file_law, put_get_law, put_kept_law};
pub use making_room::work_making_room;
pub use room::{MakeRoom, RoomTaken, has_room, kept_for_folder};
pub use tidy::{Clean, Tidied};
pub use work::{
    Append, DeleteFile, FolderRows, MakeFolder, NewFile, Put, PutAll, ReadFolder, Remove, Rename,
};
