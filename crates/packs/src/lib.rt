//! Two checkpoint packs that are written in turn, over any meta area.
//!
//! A pack is a body and a footer. The body begins with its version, and the footer says it once more: a pack is sound
//! only where both agree. Version V lies in slot V mod 2. The body's two tables are cut into parts, each of which lies in
//! either slot, as the slot's map says; so a write puts only those that changed, each where the pack that counts does not
//! lie, and a crash at any moment leaves the old pack or the new one (Rosenblum and Ousterhout 1991; Lee and others, FAST
//! 2015).
#![tactic(auto)]

mod area;
mod begin;
mod choice;
mod law;
mod map;
mod open;
mod packs;
mod parts;
mod reading;
mod staging;
mod stored;

pub use area::{footer_at, header_at};
pub use choice::{Ends, pick};
pub use law::crash_law;
pub use map::Map;
pub use packs::{Known, Packs};
pub use packs_journal::PageSet;
pub use reading::assemble;
pub use stored::WrittenPack;
