//! The body of a checkpoint pack in pages and a journal, over any meta area.
//!
//! A body lies in two places: its header and its logs in a head, of which there are two, and the rest in pages of 4,096
//! bytes, of each of which there are two copies. The head's map says which copy of each page counts, and its journal has
//! the words that have changed since the pages were written. A small checkpoint writes one head; where the journal has no
//! room, each page that differs is written over the copy that does not count, and the journal is empty. So what the pack
//! that counts is made of stays until the other one counts, and a checkpoint writes what has changed and not what the
//! volume is (Rosenblum and Ousterhout 1991, checkpoint regions; the layout is this project's own).
#![tactic(auto)]

mod bytes;
mod changes;
mod difference;
mod head;
mod known;
mod map;
mod page_set;
mod pages;
mod places;
mod reading;
mod staging;
mod turning;

pub use known::KnownPages;
pub use map::PageMap;
pub use page_set::PageSet;
pub use places::{HEAD_BYTES, MAP_BYTES, MAP_PAGES, footer_at, head_at};
pub use reading::{assemble, find_map, read_body};
pub use staging::stage;
