//! The check of an image: it is lawful, or the first of the ten rules that it breaks. The check is linear in the image,
//! also where the image was made to mislead it.
#![tactic(auto)]

mod faults;
mod lengths;
mod logs;
mod marks;
mod naming;
mod numbers;
mod range;
mod trees;
mod used;

pub use faults::check;
pub use used::used_of;
