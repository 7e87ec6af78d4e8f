//! What a worker of a part is given, and what it does.
ghost use Rattle.std.specs.Prelude.{◌≡◌, Ok, IfOk};
ghost use Rattle.program_run.specs.Files.{AreInOrder};
ghost use Rattle.program_run.specs.PartJobs.{IsDone};

use crate::Session;
use crate::calls::Calls;
use crate::gate::Gate;
use crate::tasks::run_tasks;
use flash_volume::{Block, Error, Lent, Meta, ScheduledPart, Volume, VolumeName};
use program_script::WorkerTask;
use std::alloc::Global;
use std::io;
use std::io::ErrorKind;
use std::marker::Model;
use std::sync::Wait;

/// A worker's number, its tasks, the time, and the gate of its calls.
#[derive(Drop)]
pub struct Hand<'t, G: Gate> {
    number: usize,
    tasks: &'t [WorkerTask],
    time: u64,
    gate: &'t G,
}

impl<'t, G: Gate> Model for Hand<'t, G> {
    ghost use Rattle.std.specs.Coded.{codes};
    ghost use Rattle.program_run.specs.PartJobs.{Hand};

    ghost Value = { Hand };

    ghost coded = { Prim.hlevel (codes) };

    ghost view = { λ h. record { number = h.number; tasks = h.tasks.now; time = h.time } };
}

impl<'t, G: Gate> Hand<'t, G> {
    /// A worker with its number and its tasks, at a time.
    pub(crate) fn new(number: usize, tasks: &'t [WorkerTask], time: u64, gate: &'t G) -> Hand<'t, G>
        ensures { result ≡ record { number = number; tasks = tasks.now; time = time } }
    {
        Hand {
            number,
            tasks,
            time,
            gate,
        }
    }

    // Does the tasks on a share, and answers what they tell and what is handed back.
    fn work<'v, V: VolumeName, M: Meta, B: Block + Drop, R: Wait>(
        self,
        rt: &R,
        alloc: Global,
        volume: &'v Volume<V, M, B>,
        lent: Lent<'v, V, B>,
    ) -> io::Result<(Vec<u8>, Lent<'v, V, B>)>
        requires { AreInOrder V.Numbers.geometry.files lent.passes }
        ensures { IfOk result (λ made. IsDone V.Numbers.geometry self.entry lent.entry made.0.items made.1) }
    {
        let mut share = memory(Session::of(alloc, volume, lent, self.time))?;
        let mut text = Vec::new(alloc);
        let mut calls = Calls::new(self.gate, self.number);
        run_tasks(rt, &mut calls, &mut share, self.tasks, &mut text)?;
        let back = memory(share.end())?;
        Ok((text, back))
    }
}

// The only error of what is asked for is NoMemory.
pub(crate) fn memory<T>(made: Result<T, Error>) -> io::Result<T>
    ensures { IfOk result (λ value. made ≡ Ok value) }
{
    made.map_err(|_| io::Error::from(ErrorKind::OutOfMemory))
}

impl<'t, M: Meta, B: Block + Drop, G: Gate> ScheduledPart<M, B> for Hand<'t, G> {
    ghost use Rattle.std.specs.Prelude.{IfOk};
    ghost use Rattle.program_run.specs.Files.{AreInOrder};
    ghost use Rattle.program_run.specs.PartJobs.{IsDone};

    type Done = io::Result<Vec<u8>>;

    ghost fits = { λ hand geometry held. AreInOrder geometry.files held.passes };

    ghost did = { λ hand geometry before done after. IfOk done (λ text. IsDone geometry hand before text.items after) };

    fn run<'v, V: VolumeName, R: Wait>(
        self,
        rt: &R,
        alloc: Global,
        volume: &'v Volume<V, M, B>,
        lent: &mut Lent<'v, V, B>,
    ) -> io::Result<Vec<u8>> {
        let (text, back) = self.work(rt, alloc, volume, lent.take(alloc))?;
        lent.put(back);
        Ok(text)
    }
}
