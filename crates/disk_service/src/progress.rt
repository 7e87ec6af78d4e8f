//! What was written that no checkpoint has yet.
use crate::counts::Counter;
use std::sync::atomic::{AtomicU64, Ordering};

/// How many parts of blocks were written, and how many of them the last flush has for sure. It is counted beside the volume, for the
/// background cleaner alone: no promise rests on it.
#[derive(Drop)]
pub(crate) struct Progress {
    written: Counter,
    kept: AtomicU64,
}

impl Progress {
    pub fn new() -> Progress {
        Progress {
            written: Counter::new(),
            kept: AtomicU64::new(0),
        }
    }

    pub fn note_part(&self) {
        self.written.add(1);
    }

    pub fn written(&self) -> u64 {
        self.written.get()
    }

    pub fn kept(&self) -> u64 {
        self.kept.load(Ordering::SeqCst)
    }

    // A flush has all that was written when so much was.
    pub fn keep(&self, written: u64) {
        self.kept.store(written, Ordering::SeqCst);
    }
}
