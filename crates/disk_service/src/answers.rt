//! The stream of answers.
ghost use Rattle.std.specs.Prelude.{◌≡◌, ◌++◌, replicate, IfOk};
ghost use Rattle.nbd_words.specs.Request.{reply_bytes};

use nbd_words::{ErrorNumber, REPLY_BYTES, simple_reply};
use std::alloc::{AllocError, Global};
use std::io;
use std::io::Write;
use std::sync::atomic::{AtomicBool, Ordering};
use std::sync::{Mutex, Wait};

/// Where the answers go, each of them whole.
#[derive(Drop)]
pub(crate) struct Answers<O> {
    output: Mutex<O>,
    failed: AtomicBool,
}

impl<O: Write + Drop> Answers<O> {
    pub fn new(output: O) -> Answers<O> {
        Answers {
            output: Mutex::new(output),
            failed: AtomicBool::new(false),
        }
    }

    // Answers a request that has no data to tell.
    pub fn answer<R: Wait>(&self, rt: &R, outcome: Result<(), ErrorNumber>, cookie: u64) {
        let reply = simple_reply(outcome, cookie);
        self.send(rt, &reply);
    }

    // Sends the bytes of one answer.
    pub fn send<R: Wait>(&self, rt: &R, bytes: &[u8]) {
        let mut output = self.output.lock(rt);
        if write_out(&mut *output, bytes).is_err() {
            self.failed.store(true, Ordering::SeqCst);
        }
    }

    // Whether an answer could not be sent: then the client is gone.
    pub fn have_failed(&self) -> bool {
        self.failed.load(Ordering::SeqCst)
    }
}

fn write_out<O: Write>(output: &mut O, bytes: &[u8]) -> io::Result<()> {
    output.write_all(bytes)?;
    output.flush()
}

/// The answer to a read of so many bytes that was done, with zeros for the bytes.
pub(crate) fn read_reply(alloc: Global, cookie: u64, length: u32) -> Result<Vec<u8>, AllocError>
    ensures bytes { IfOk result (λ reply. reply.items ≡ reply_bytes 0 cookie ++ replicate length 0) }
{
    let size = REPLY_BYTES + length as usize;
    let mut reply = Vec::with_capacity(alloc, size)?;
    reply.extend_from_slice(&simple_reply(Ok(()), cookie))?;
    reply.resize(size, 0)?;
    Ok(reply)
}
