//! A script that is being read, a line at a time.
ghost use Rattle.std.specs.Prelude.{IsSome};

use crate::line::{Statement, statement_of};
use crate::part::Part;
use crate::{Command, Script, ScriptError, Step};
use std::alloc::Global;

#[derive(Drop)]
pub struct Parser {
    alloc: Global,
    script: Script,
    // The part that has no end yet.
    part: Option<Part>,
    // The first bad line, where it stands in a part. It is the one to name only if the part has an end.
    bad: Option<u64>,
}

impl Parser {
    pub fn new(alloc: Global) -> Parser {
        Parser {
            alloc,
            script: Script {
                volume: None,
                steps: Vec::new(alloc),
            },
            part: None,
            bad: None,
        }
    }

    /// Reads the next line.
    pub fn take(&mut self, number: u64, line: &[u8]) -> Result<(), ScriptError> {
        if let Some(bad) = self.bad {
            return match line {
                b"end" => Err(ScriptError::BadCommand { line: bad }),
                _ => Ok(()),
            };
        }
        match line {
            [] | [b'#', ..] => Ok(()),
            _ => match self.read(number, line) {
                Err(ScriptError::BadCommand { line }) if self.part.is_some() => {
                    self.bad = Some(line);
                    Ok(())
                }
                other => other,
            },
        }
    }

    /// The script, when all lines are read.
    pub fn finish(self) -> Result<Script, ScriptError> {
        let Parser {
            alloc: _,
            script,
            part,
            bad: _,
        } = self;
        match part {
            Some(part) => Err(ScriptError::BadCommand { line: part.line }),
            None => Ok(script),
        }
    }

    fn read(&mut self, number: u64, line: &[u8]) -> Result<(), ScriptError> {
        let words: Vec<&[u8]> = line.split(|byte| *byte == b' ').collect(self.alloc)?;
        match statement_of(&words) {
            Some(statement) => self.add(number, statement),
            None => Err(ScriptError::BadCommand { line: number }),
        }
    }

    fn add(&mut self, line: u64, statement: Statement) -> Result<(), ScriptError> {
        let bad = Err(ScriptError::BadCommand { line });
        if self.script.volume.is_none() {
            return match statement {
                Statement::Format(numbers) => {
                    self.script.volume = Some(numbers);
                    Ok(())
                }
                _ => bad,
            };
        }
        match statement {
            Statement::Format(_) => bad,
            Statement::Command(command) => self.add_command(line, command),
            Statement::Par => match self.part {
                Some(_) => bad,
                None => {
                    self.part = Some(Part::new(self.alloc, line));
                    Ok(())
                }
            },
            Statement::Worker => match &mut self.part {
                Some(part) => part.begin_worker(self.alloc),
                None => bad,
            },
            Statement::End => match self.part.take() {
                Some(part) => {
                    self.script.steps.push(part.into_step())?;
                    Ok(())
                }
                None => bad,
            },
        }
    }

    fn add_command(&mut self, line: u64, command: Command) -> Result<(), ScriptError>
        requires begun { IsSome self.old.script.volume }
    {
        match (&mut self.part, command) {
            (Some(part), Command::Work(work)) => part.add(line, work),
            (Some(_), _) => Err(ScriptError::BadCommand { line }),
            (None, command) => {
                self.script.steps.push(Step::Command { line, command })?;
                Ok(())
            }
        }
    }
}
