//! What a script is.
ghost use Rattle.std.specs.Prelude.{◌≡◌, None, vec_len};

use crate::parser::Parser;
use crate::{Command, ScriptError, WorkerDeed};
use geometry::Shape;
use std::alloc::Global;

/// The numbers of the volume that a script asks for. They are not tested here.
#[derive(Clone, Copy)]
pub struct Numbers {
    pub shape: Shape,
    pub segments: u32,
    pub per_section: u32,
    pub files: u32,
    pub nodes: u32,
}

/// A worker's command, and its line.
#[derive(Clone, Copy)]
pub struct WorkerTask {
    pub line: u64,
    pub work: WorkerDeed,
}

/// A worker of a parallel part.
#[derive(Drop)]
pub struct Worker {
    pub tasks: Vec<WorkerTask>,
}

/// A step of a script, and the line where it begins.
#[derive(Drop)]
pub enum Step {
    /// A command.
    Command { line: u64, command: Command },
    /// Workers that run side by side. No file and no reader is named by two of them.
    Part { line: u64, workers: Vec<Worker> },
}

/// A script: the volume that it asks for, and its steps in order. One without a volume has no step.
#[derive(Drop)]
pub struct Script {
    pub volume: Option<Numbers>,
    pub steps: Vec<Step>,
    ghost begun: { volume ≡ None → vec_len steps ≡ 0 },
}

impl Script {
    /// The script that a text is. Lines end with a line feed, which the last one may lack; empty lines and those that
    /// begin with `#` count and say nothing; one space stands between two words.
    ///
    /// Answers BadCommand with the first line that is not of the grammar, which for a part without its end is the line where
    /// it begins, and NoMemory where a growth was refused.
    pub fn parse(alloc: Global, text: &[u8]) -> Result<Script, ScriptError> {
        let mut parser = Parser::new(alloc);
        for (index, line) in text.split(|byte| *byte == b'\n').enumerate() {
            parser.take(index as u64 + 1, line)?;
        }
        parser.finish()
    }
}
