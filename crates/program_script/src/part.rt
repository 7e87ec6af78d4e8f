//! A parallel part that is being read.
use crate::{ScriptError, Step, Worker, WorkerDeed, WorkerTask};
use std::alloc::Global;
use std::collections::BTreeMap;

/// What only one worker of a part may name.
#[derive(Clone, Copy, PartialEq, Eq, PartialOrd, Ord)]
enum Name {
    File(u32),
    Reader(u32),
}

#[derive(Drop)]
pub struct Part {
    /// The line where it begins.
    pub line: u64,
    workers: Vec<Worker>,
    // Which worker has each name.
    owners: BTreeMap<Name, usize>,
}

impl Part {
    pub fn new(alloc: Global, line: u64) -> Part {
        Part {
            line,
            workers: Vec::new(alloc),
            owners: BTreeMap::new(alloc),
        }
    }

    pub fn begin_worker(&mut self, alloc: Global) -> Result<(), ScriptError> {
        self.workers.push(Worker {
            tasks: Vec::new(alloc),
        })?;
        Ok(())
    }

    /// Gives the last worker a command. Answers BadCommand where there is no worker, or another one names the file or
    /// the reader.
    pub fn add(&mut self, line: u64, work: WorkerDeed) -> Result<(), ScriptError> {
        let count = self.workers.len();
        let Some(worker) = self.workers.last_mut() else {
            return Err(ScriptError::BadCommand { line });
        };
        if let Some(name) = name_of(work) {
            match self.owners.get(&name) {
                Some(owner) if *owner != count => return Err(ScriptError::BadCommand { line }),
                Some(_) => {}
                None => {
                    self.owners.insert(name, count)?;
                }
            }
        }
        worker.tasks.push(WorkerTask { line, work })?;
        Ok(())
    }

    pub fn into_step(self) -> Step {
        Step::Part {
            line: self.line,
            workers: self.workers,
        }
    }
}

fn name_of(work: WorkerDeed) -> Option<Name> {
    match work {
        WorkerDeed::Write { file, .. }
        | WorkerDeed::Fill { file, .. }
        | WorkerDeed::Read { file, .. }
        | WorkerDeed::Cut { file, .. } => Some(Name::File(file)),
        WorkerDeed::Look { reader } => Some(Name::Reader(reader)),
        WorkerDeed::Clean(_) | WorkerDeed::Sync => None,
    }
}
