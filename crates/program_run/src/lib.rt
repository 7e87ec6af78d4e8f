//! A script is run on a volume in memory, parts of it by workers side by side, each on its share of the volume's files; and an image
//! file is checked: what the program does, over a reader and writers.
//!
//! A volume under a script (`session`): its files by their numbers, the readers that were taken, what each piece of work makes of
//! them (`work`), and the line that it writes (`lines`).
#![tactic(auto)]

mod calls;
mod check;
pub mod content;
mod disk;
mod files;
pub mod gate;
mod hand;
pub mod lines;
mod moves;
pub mod part;
mod places;
mod reading;
mod remounting;
mod run;
mod scheduler;
pub mod session;
mod setting;
pub mod status;
mod steps;
mod stop;
pub mod synced;
mod tasks;
mod telling;
pub mod work;
mod worker_lines;

pub use check::check_image;
pub use content::Content;
pub use files::tell_files;
pub use gate::{Gate, OpenGate};
pub use hand::Hand;
pub use part::{give_shares, take_shares};
pub use places::{close_readers, no_items};
pub use run::run_script;
pub use session::Session;
pub use setting::Rules;
pub use stop::{tell_failure, tell_io_failure, tell_no_memory};
pub use synced::Synced;
pub use work::{policy_of, run_work};
