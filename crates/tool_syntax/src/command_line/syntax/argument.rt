//! A word or an option of a command, as a row of a table.
use clap::{Arg, ArgAction, value_parser};
use std::alloc::Global;

// The words for the shapes of a volume.
const SHAPES: [&str; 2] = ["kernel", "tiny"];

// The shells that complete words.
const SHELLS: [&str; 3] = ["bash", "zsh", "fish"];

/// What an argument takes.
#[derive(Clone, Copy)]
pub enum Takes {
    /// A word that has to be there.
    Word,
    /// A word.
    OneWord,
    /// One word or more.
    Words,
    /// The name of a shell, which has to be there.
    Shell,
    /// `--id`.
    Flag,
    /// `--id TEXT`.
    Text,
    /// `--id SHAPE`.
    Shape,
    /// `--id NUMBER`.
    Number,
    /// `--id NUMBER`, from 1 to 16.
    Workers,
    /// `--id BYTES`.
    Bytes,
}

/// A word or an option of a command.
#[derive(Clone, Copy)]
pub struct Argument {
    pub id: &'static str,
    pub takes: Takes,
    /// What stands for its value in the help.
    pub value: &'static str,
    /// Its value where none is given. Empty: none.
    pub otherwise: &'static str,
    pub help: &'static str,
}

impl Argument {
    /// The argument, as the library has it.
    pub fn made<'a>(&self, alloc: Global) -> Arg<'a> {
        let made = Arg::new(alloc, self.id).help(self.help);
        let made = match self.takes {
            Takes::Word | Takes::OneWord | Takes::Words | Takes::Shell => made,
            _ => made.long(self.id),
        };
        let made = match self.takes {
            Takes::Flag => made.action(ArgAction::SetTrue),
            _ => made.value_name(self.value),
        };
        let made = if self.otherwise.is_empty() {
            made
        } else {
            made.default_value(self.otherwise)
        };
        match self.takes {
            Takes::Word => made.required(true),
            Takes::Words => made.num_args(1..).required(true),
            Takes::Shell => made.value_parser(SHELLS.as_slice()).required(true),
            Takes::Shape => made.value_parser(SHAPES.as_slice()),
            Takes::Number => made.value_parser(value_parser!(u32)),
            Takes::Workers => made.value_parser(value_parser!(u32).range(1..=16)),
            Takes::Bytes => made.value_parser(value_parser!(u64)),
            Takes::OneWord | Takes::Flag | Takes::Text => made,
        }
    }
}
