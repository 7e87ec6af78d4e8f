//! The front door: all that a program over a flash volume names, and calls that make or mount a volume, do the program's work on it,
//! in this thread or side by side on many, and hand its device back.
//!
//! A volume's tables are known to the proofs by names in its type, which are picked while the volume comes to be. Who writes a
//! `Work` meets them as one type parameter of its method, and nowhere else.
#![tactic(auto)]

mod answers;
mod beside;
mod block;
mod erasing;
mod fault;
mod ladder;
mod law;
mod leave;
mod leaving;
mod lent;
mod mounting;
mod new;
mod one_work;
mod pass_table;
mod rights;
mod room;
mod rounds;
mod scheduler;
mod scheduler_ladder;
mod serve;
mod serve_ladder;
mod service;
mod side_by_side;
mod visit;
mod work;
mod works;

pub use answers::{flush, read_block, read_part, sync_passes, write_part};
pub use area::{CheckpointRoom, HoleReuse};
pub use beside::Beside;
pub use block::SharedBlock;
pub use checkpoint::Stored;
pub use cleaning::{Cleaned, Policy};
pub use device::{Block, DeviceError, MemBlock, MemDevice, MemMeta, Meta, Parts};
pub use erasing::erase_in_room;
pub use file_cells::{FilePass, Reader, Seat, Status};
pub use geometry::{Error, Geometry, Kind, Packing, Shape};
pub use ladder::visit_volume;
pub use law::work_law;
pub use leave::{Done, Leave, LeaveFault, Stage};
pub use lent::Lent;
pub use mount_reading::OpenFault;
pub use new::{work_on_new, work_side_by_side_on_new};
pub use one_work::work_on;
pub use pass_table::PassTable;
pub use rights::Rights;
pub use rights_permits::VolumeName;
pub use room::{Ending, Room, make_room, usable_blocks};
pub use scheduler::{Ended, PartJob, ScheduledPart, Scheduler, SchedulerRound};
pub use scheduler_ladder::visit_by_rounds;
pub use serve::serve_volume;
pub use service::Service;
pub use side_by_side::work_side_by_side;
pub use visit::Visit;
pub use volume::{Base, Volume};
pub use work::Work;
