//! A disk on the files of a flash volume, served to one client by the NBD protocol: over a stream of requests and a stream of answers,
//! with many requests in flight, a cleaner in the background and a checkpoint at each flush.
//!
//! Who serves greets the client (`greet`), makes a `DiskService` of what it reads from and writes to, and hands that to
//! `flash_volume::serve_volume` with as many threads as `DiskService::threads` tells.
#![tactic(auto)]

mod answers;
mod counts;
mod disk;
mod erasing;
mod handshake;
mod jobs;
mod keeping;
mod layout;
mod parts;
mod progress;
mod reading;
mod request_reader;
mod room;
mod working;
mod writing;

pub use counts::Counts;
pub use disk::{DiskService, DiskSettings};
pub use handshake::{Export, Greeted, LONGEST_NAME, greet};
pub use layout::{BlockPlace, DiskLayout, Stripe, place_law};
pub use parts::{BlockPart, part_at};
pub use request_reader::{Farewell, MOST_BYTES};
