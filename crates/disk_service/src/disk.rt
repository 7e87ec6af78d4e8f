//! A disk that is served to one client.
ghost use Rattle.std.specs.Prelude.{◌≡◌, IfErr};
ghost use Rattle.geometry.specs.declared.error.Error.TheVariants.{NoMemory};

use crate::answers::Answers;
use crate::counts::{Counters, Counts};
use crate::jobs::JobQueue;
use crate::layout::DiskLayout;
use crate::progress::Progress;
use crate::request_reader::{Farewell, MOST_BYTES, take_requests};
use crate::room::Cleaner;
use flash_volume::{Block, Error, Meta, PassTable, Service, Volume, VolumeName, flush};
use nbd_words::Disk;
use std::alloc::Global;
use std::io::{Read, Write};
use std::sync::{Mutex, Wait};
use std::time::Clock;

/// How a disk is served.
#[derive(Clone, Copy, PartialEq, Eq)]
pub struct DiskSettings {
    /// Requests that would change the disk are refused, nothing is cleaned, and no checkpoint is written.
    pub read_only: bool,
    /// After so many seconds a checkpoint is written of what none has yet. None: only the client asks for checkpoints, and cleaning writes
    /// some.
    pub flush_every: Option<u32>,
    /// How many threads do requests.
    pub workers: usize,
}

/// A disk on the files of a volume, served to one client that has been greeted: it reads requests from `I` and answers on `O`.
///
/// Thread 0 takes the requests, thread 1 cleans and writes checkpoints in time, and each other thread does requests. They all end once
/// the client has left, its stream has ended or can't be understood, or an answer could not be sent: each request that was taken is done
/// and answered before.
#[derive(Drop)]
pub struct DiskService<C, I, O> {
    pub(crate) alloc: Global,
    pub(crate) clock: C,
    pub(crate) layout: DiskLayout,
    pub(crate) settings: DiskSettings,
    input: Mutex<I>,
    pub(crate) answers: Answers<O>,
    pub(crate) jobs: JobQueue,
    pub(crate) cleaner: Cleaner,
    pub(crate) progress: Progress,
    pub(crate) counters: Counters,
    farewell: Mutex<Option<Farewell>>,
}

impl<C: Clock + Drop, I: Read + Drop, O: Write + Drop> DiskService<C, I, O> {
    /// A service of the disk with this layout. The only error is NoMemory.
    pub fn new(
        alloc: Global,
        clock: C,
        input: I,
        output: O,
        layout: DiskLayout,
        settings: DiskSettings,
    ) -> Result<DiskService<C, I, O>, Error>
        ensures error { IfErr result (λ error. error ≡ NoMemory) }
    {
        let jobs = JobQueue::new(alloc)?;
        Ok(DiskService {
            alloc,
            clock,
            layout,
            settings,
            input: Mutex::new(input),
            answers: Answers::new(output),
            jobs,
            cleaner: Cleaner::new(),
            progress: Progress::new(),
            counters: Counters::new(),
            farewell: Mutex::new(None),
        })
    }

    /// On how many threads it is to be served: the reader of requests, the background cleaner, and the workers.
    pub fn threads(&self) -> usize {
        self.settings.workers.saturating_add(2)
    }

    /// What it has done so far.
    pub fn counts(&self) -> Counts {
        self.counters.counts(&self.cleaner)
    }

    /// Why no more requests are taken. None while some are.
    pub fn farewell<R: Wait>(&self, rt: &R) -> Option<Farewell> {
        *self.farewell.lock(rt)
    }

    // The disk, as requests are judged.
    pub(crate) fn disk(&self) -> Disk {
        Disk {
            bytes: self.layout.bytes(),
            most: MOST_BYTES,
            read_only: self.settings.read_only,
        }
    }

    // The seconds since 1970, 0 where the clock fails.
    pub(crate) fn now(&self) -> u64 {
        match self.clock.since_1970() {
            Ok(since) => since.as_secs(),
            Err(_) => 0,
        }
    }

    // Writes a checkpoint that has all that was written before.
    pub(crate) fn flush<V: VolumeName, M: Meta, B: Block + Drop, R: Wait>(
        &self,
        rt: &R,
        volume: &Volume<V, M, B>,
        pass_table: &PassTable<V>,
    ) -> Result<(), Error> {
        let written = self.progress.written();
        flush(rt, self.alloc, volume, pass_table)?;
        self.progress.keep(written);
        Ok(())
    }

    // Takes requests until there is a reason to end, and has the workers leave.
    fn receive<R: Wait>(&self, rt: &R) {
        let mut input = self.input.lock(rt);
        let farewell = take_requests(rt, self.alloc, &mut *input, &self.jobs, &self.answers);
        *self.farewell.lock(rt) = Some(farewell);
        self.jobs.end(rt);
    }
}

impl<M: Meta, B: Block + Drop, C: Clock + Drop, I: Read + Drop, O: Write + Drop> Service<M, B>
    for DiskService<C, I, O> {
    // The only error is BadGeometry, of each thread, where the blocks of the volume are not as large as those of the disk.
    fn serve<V: VolumeName, R: Wait>(
        &self,
        rt: &R,
        _alloc: Global,
        volume: &Volume<V, M, B>,
        pass_table: &PassTable<V>,
        thread: usize,
    ) -> Result<(), Error> {
        if volume.geometry().shape.block_bytes() != self.layout.block_bytes() {
            return Err(Error::BadGeometry);
        }
        match thread {
            0 => self.receive(rt),
            1 => self.keep(rt, volume, pass_table),
            _ => self.work(rt, volume, pass_table),
        }
        Ok(())
    }
}
