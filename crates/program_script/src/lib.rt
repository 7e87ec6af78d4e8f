//! The grammar of scripts, and the words that the program is called with. Nothing here runs anything.
#![tactic(auto)]

pub mod command;
pub mod error;
mod line;
mod number;
mod parser;
mod part;
pub mod script;
pub mod words;

pub use command::{Cleaning, Command, Failure, WorkerDeed};
pub use error::ScriptError;
pub use script::{Numbers, Script, Step, Worker, WorkerTask};
pub use words::{CommandLine, WordsError};
