//! What a checkpoint makes of the threads of all segments.
ghost use Rattle.std.specs.Prelude.{◌≡◌, ◌<◌};

use crate::main_area::MainArea;
use crate::unsettled::Unsettled;
use device::Block;
use rights_permits::{AllPermits, Auditing, VolumeName};
use std::sync::Wait;
use words::CheckpointSeat;

// How many logs there are.
const LOGS: u32 = 6;

impl<V: VolumeName, B: Block + Drop> MainArea<V, B> {
    /// Each thread ends: that of each log that has begun one, as it says under its own lock. A log that filled holes has no place
    /// then. All permits are in hand, so no call is under way that would begin another.
    pub fn end_threads<R: Wait>(&self, rt: &R, all: &AllPermits<V::Books, V::Turns>) {
        let _all = all;
        for number in 0..LOGS {
            self.end_thread(rt, number);
        }
    }

    // Ends the thread of a log, where it has begun one.
    fn end_thread<R: Wait>(&self, rt: &R, number: u32)
        requires { number < 6 }
    {
        let mut lock = self.lock_log(rt, number);
        let log = &mut *lock;
        if let Some(threaded) = log.threads {
            let mut segment = self.lock_segment(rt, threaded);
            segment.unthread();
            log.threads = None;
        }
    }

    /// A checkpoint is complete that marks all valid blocks: all permits are still in the audit in which its image was taken, so
    /// none has changed since. Each segment whose bits were found to be others is told so under its own lock.
    pub fn keep_marks<R: Wait>(
        &self,
        rt: &R,
        seat: &CheckpointSeat,
        auditing: &Auditing<V::Books, V::Turns>,
        unsettled: &Unsettled,
    )
        requires words { seat.now.table ≡ V.Words.words }
    {
        for number in 0..self.geometry().segments {
            if unsettled.turn(number).keep {
                let mut cell = self.lock_segment(rt, number);
                cell.keep(seat, &auditing.audit);
            }
        }
    }
}
