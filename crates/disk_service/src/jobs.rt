//! The queue of what a client asks, between who takes requests and who does them.
ghost use Rattle.std.specs.Prelude.{◌≡◌, vec_len, IfErr};
ghost use Rattle.geometry.specs.declared.error.Error.TheVariants.{NoMemory};
ghost use Rattle.nbd_words.specs.Fields.{words_of};
ghost use Rattle.nbd_words.specs.Request.{data_bytes};

use crate::counts::Counter;
use crossbeam_channel::{Receiver, Sender, bounded};
use flash_volume::Error;
use nbd_words::Request;
use std::alloc::Global;
use std::sync::Wait;
use std::sync::atomic::{AtomicBool, Ordering};

// How many jobs may wait. Each may carry the data of a write.
const WAITING: usize = 16;

/// A request, with the data that lay behind it.
#[derive(Drop)]
pub(crate) struct ReceivedRequest {
    pub request: Request,
    pub bytes: Vec<u8>,
    ghost whole: { vec_len bytes ≡ data_bytes (words_of request) },
}

/// What a worker is to do next.
#[derive(Drop)]
pub(crate) enum Job {
    Do(ReceivedRequest),
    /// For the data of the request of this cookie there was no memory, and they were read over.
    Refuse { cookie: u64 },
    /// No more requests come.
    Leave,
}

/// The jobs that wait, and how many there were.
#[derive(Drop)]
pub(crate) struct JobQueue {
    sender: Sender<Job>,
    receiver: Receiver<Job>,
    put: Counter,
    done: Counter,
    ended: AtomicBool,
}

impl JobQueue {
    pub fn new(alloc: Global) -> Result<JobQueue, Error>
        ensures error { IfErr result (λ error. error ≡ NoMemory) }
    {
        let (sender, receiver) = bounded(alloc, WAITING)?;
        Ok(JobQueue {
            sender,
            receiver,
            put: Counter::new(),
            done: Counter::new(),
            ended: AtomicBool::new(false),
        })
    }

    // Hands a job on. It waits while as many are under way as may wait.
    pub fn put<R: Wait>(&self, rt: &R, job: Job) {
        self.put.add(1);
        self.send(rt, job);
    }

    // The next job. It waits for one.
    pub fn take<R: Wait>(&self, rt: &R) -> Job {
        match self.receiver.recv(rt) {
            Ok(Job::Leave) | Err(_) => {
                // The next worker is to leave too.
                self.send(rt, Job::Leave);
                Job::Leave
            }
            Ok(job) => job,
        }
    }

    // A job that was taken is done.
    pub fn finish(&self) {
        self.done.add(1);
    }

    // No more are put. Who takes one once all are taken is to leave.
    pub fn end<R: Wait>(&self, rt: &R) {
        self.ended.store(true, Ordering::SeqCst);
        self.send(rt, Job::Leave);
    }

    // Whether no more are put, and all are done.
    pub fn are_over(&self) -> bool {
        self.ended.load(Ordering::SeqCst) && self.done.get() >= self.put.get()
    }

    // Both ends of the channel are here, so it refuses nothing.
    fn send<R: Wait>(&self, rt: &R, job: Job) {
        let _sent = self.sender.send(rt, job);
    }
}
