//! The words of the tool `rusziveg`: which commands and options there are, what they ask for, and what is told of them: help,
//! completions for shells, and the manual page.
#![tactic(auto)]

mod command_line;
mod completing;

pub use command_line::{
    ArgumentWords, ImageFile, Portion, ServeWords, Task, VolumeSizes, read_words,
};
pub use completing::{write_completions, write_manual};
