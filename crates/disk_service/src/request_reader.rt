//! Takes a client's requests.
ghost use Rattle.std.specs.Prelude.{ℕ, List, IfOk, OnOk};
ghost use Rattle.std.specs.Io.KnownBytes.{Consumes};
ghost use Rattle.disk_service.specs.Sent.{IsSent, IsSentBehind};

use crate::answers::Answers;
use crate::jobs::{Job, JobQueue, ReceivedRequest};
use nbd_words::{REQUEST_BYTES, Request, parse_request};
use std::alloc::Global;
use std::io;
use std::io::{Read, Write};
use std::sync::Wait;

/// The most bytes that are read or written by one request: 32 MiB.
pub const MOST_BYTES: u32 = 33_554_432;

// How many bytes are read over at once.
const SKIPPED: usize = 4096;

/// Why no more requests are taken.
#[derive(Clone, Copy, PartialEq, Eq)]
pub enum Farewell {
    /// The client said that it goes.
    Left,
    /// The stream of requests ended, or could not be read.
    InputEnded,
    /// There were bytes that are no request.
    NoRequest,
    /// A write had more than `MOST_BYTES`.
    TooLong,
    /// An answer could not be sent.
    OutputFailed,
}

// Reads requests and hands them on, until there is a reason to end.
pub(crate) fn take_requests<I: Read, O: Write + Drop, R: Wait>(
    rt: &R,
    alloc: Global,
    input: &mut I,
    jobs: &JobQueue,
    answers: &Answers<O>,
) -> Farewell {
    for _ in rt.forever() {
        if answers.have_failed() {
            return Farewell::OutputFailed;
        }
        match read_job(alloc, input) {
            Ok(job) => jobs.put(rt, job),
            Err(farewell) => return farewell,
        }
    }
    unreachable!()
}

// Reads the next request, with its data.
fn read_job<I: Read>(alloc: Global, input: &mut I) -> Result<Job, Farewell>
    ensures sent { IfOk result (λ job. IsSent (I.remaining input.old) (I.remaining input.new) job) }
{
    let mut head = [0u8; REQUEST_BYTES];
    if input.read_exact(&mut head).is_err() {
        return Err(Farewell::InputEnded);
    }
    let Some(request) = parse_request(&head) else {
        return Err(Farewell::NoRequest);
    };
    if request.is_leave() {
        return Err(Farewell::Left);
    }
    if request.data_bytes() > MOST_BYTES {
        return Err(Farewell::TooLong);
    }
    match read_data(alloc, input, request) {
        Ok(job) => Ok(job),
        Err(_) => Err(Farewell::InputEnded),
    }
}

// Reads the data behind a request, or over them where there is no memory for them.
fn read_data<I: Read>(alloc: Global, input: &mut I, request: Request) -> io::Result<Job>
    ensures sent { IfOk result (λ job. IsSentBehind (I.remaining input.old) (I.remaining input.new) request job) }
{
    let length = request.data_bytes() as usize;
    let mut bytes = Vec::new(alloc);
    if bytes.resize(length, 0).is_err() {
        skip(input, length)?;
        return Ok(Job::Refuse {
            cookie: request.cookie,
        });
    }
    input.read_exact(bytes.as_mut_slice())?;
    Ok(Job::Do(ReceivedRequest { request, bytes }))
}

// Reads over so many bytes.
pub(crate) fn skip<I: Read>(input: &mut I, count: usize) -> io::Result<()>
    ensures read { OnOk result ((bytes : List ℕ) × Consumes (I.remaining input.old) (I.remaining input.new) bytes) }
{
    let mut buffer = [0u8; SKIPPED];
    let mut left = count;
    'skipped: while left > 0 {
        let size = left.min(SKIPPED);
        input.read_exact(&mut buffer[..size])?;
        left -= size;
    }
    Ok(())
}
