//! The slips of the free segments, in two queues that threads share with no lock: an ordinary one for as many slips as
//! there are segments, and a reserve of four, on which only the cleaner and the checkpoint draw.
//!
//! A slip that goes into a queue comes out of it once, first in, first out. Who puts and takes has a pass without bytes,
//! which lists what went through it. There are seven parts of the right to know the whole: whose passes have all
//! of them knows what the queues hold.
#![tactic(auto)]

mod law;
mod opened;
mod pass;
mod pool;
mod slip;

pub use law::{Account, SlipTally};
pub use opened::OpenedPool;
pub use pass::PoolPass;
pub use pool::{Pool, SlipCounts};
