//! The words of the tool `rusziveg`, and what each does: a call that takes the words, and the streams to read and write.
#![tactic(auto)]

mod advice;
mod asking;
mod check;
mod commands;
mod fault;
mod folders;
mod getting;
mod image_run;
mod importing;
mod json_text;
mod limits;
mod machine;
mod making;
mod making_room;
mod map;
mod new_file;
mod opener;
mod putting;
mod room;
mod run;
mod screen;
mod serving;
mod shown;
mod sparse;
mod stat;
mod streams;
mod telling;
mod upgrading;
mod window;

pub use fault::Fault;
pub use limits::Beyond;
pub use machine::Machine;
pub use opener::{FileOpener, Opener};
pub use run::{run_words, words_of_call};
pub use screen::Screen;
pub use streams::take_closed_streams;
