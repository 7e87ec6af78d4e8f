//! What a served disk has done.
use crate::room::Cleaner;
use std::sync::atomic::{AtomicU64, Ordering};

/// What a served disk has done since it was made.
#[derive(Clone, Copy, PartialEq, Eq)]
pub struct Counts {
    /// READ requests that were done.
    pub reads: u64,
    /// WRITE and WRITE_ZEROES requests that were done.
    pub writes: u64,
    /// TRIM requests that were done.
    pub trims: u64,
    /// FLUSH requests that were done.
    pub flushes: u64,
    /// Requests that were answered with an error.
    pub refused: u64,
    /// Bytes that were read for the client.
    pub bytes_read: u64,
    /// Bytes that were written for the client, those of WRITE_ZEROES too.
    pub bytes_written: u64,
    /// Checkpoints that the client asked for, by FLUSH or FUA.
    pub asked: u64,
    /// Checkpoints that were written since there was something for long that none had.
    pub kept: u64,
    /// Sections that were cleaned.
    pub sections: u64,
    /// Blocks that cleaning moved.
    pub moved: u64,
}

// Something that threads count.
#[derive(Drop)]
pub(crate) struct Counter {
    count: AtomicU64,
}

impl Counter {
    pub fn new() -> Counter {
        Counter {
            count: AtomicU64::new(0),
        }
    }

    pub fn add(&self, more: u64) {
        self.count.fetch_add(more, Ordering::SeqCst);
    }

    pub fn get(&self) -> u64 {
        self.count.load(Ordering::SeqCst)
    }
}

// What the threads of a served disk count.
#[derive(Drop)]
pub(crate) struct Counters {
    pub reads: Counter,
    pub writes: Counter,
    pub trims: Counter,
    pub flushes: Counter,
    pub refused: Counter,
    pub bytes_read: Counter,
    pub bytes_written: Counter,
    pub asked: Counter,
    pub kept: Counter,
}

impl Counters {
    pub fn new() -> Counters {
        Counters {
            reads: Counter::new(),
            writes: Counter::new(),
            trims: Counter::new(),
            flushes: Counter::new(),
            refused: Counter::new(),
            bytes_read: Counter::new(),
            bytes_written: Counter::new(),
            asked: Counter::new(),
            kept: Counter::new(),
        }
    }

    // The counts, of which a cleaner has the last two.
    pub fn counts(&self, cleaner: &Cleaner) -> Counts {
        Counts {
            reads: self.reads.get(),
            writes: self.writes.get(),
            trims: self.trims.get(),
            flushes: self.flushes.get(),
            refused: self.refused.get(),
            bytes_read: self.bytes_read.get(),
            bytes_written: self.bytes_written.get(),
            asked: self.asked.get(),
            kept: self.kept.get(),
            sections: cleaner.sections(),
            moved: cleaner.moved(),
        }
    }
}
