//! The background cleaner: cleans where few segments are free, and writes a checkpoint of what none has for long.
use crate::disk::DiskService;
use crate::room::Thresholds;
use flash_volume::{Block, Ending, Meta, PassTable, Volume, VolumeName};
use std::io::{Read, Write};
use std::sync::Wait;
use std::time::{Clock, Duration};

// The time between two looks.
const PAUSE_MILLISECONDS: u64 = 10;

/// What the background cleaner remembers from one look to the next.
#[derive(Drop)]
struct Watch {
    /// It has begun to clean, and goes on until enough segments are free.
    cleans: bool,
    /// Free segments are not counted before so many parts of blocks were written.
    next_look: u64,
    /// Since when there was something that no flush had, and how many parts the flush before it had.
    waits: Option<(Duration, u64)>,
}

impl<C: Clock + Drop, I: Read + Drop, O: Write + Drop> DiskService<C, I, O> {
    // Looks after the volume until all requests are done and no more come.
    pub(crate) fn keep<V: VolumeName, M: Meta, B: Block + Drop, R: Wait>(
        &self,
        rt: &R,
        volume: &Volume<V, M, B>,
        pass_table: &PassTable<V>,
    ) {
        let mut watch = Watch {
            cleans: false,
            next_look: 0,
            waits: None,
        };
        for _ in rt.forever() {
            if self.jobs.are_over() {
                return;
            }
            self.clock.sleep(Duration::from_millis(PAUSE_MILLISECONDS));
            if !self.settings.read_only {
                self.clean_in_time(rt, volume, &mut watch);
                self.flush_in_time(rt, volume, pass_table, &mut watch);
            }
        }
    }

    // Cleans for one segment, where the volume needs that. Where there was nothing to win it is not tried again before as many blocks were
    // written as a segment has: what they took the place of may be won then.
    fn clean_in_time<V: VolumeName, M: Meta, B: Block + Drop, R: Wait>(
        &self,
        rt: &R,
        volume: &Volume<V, M, B>,
        watch: &mut Watch,
    ) {
        let written = self.progress.written();
        if !watch.cleans && written < watch.next_look {
            return;
        }
        let geometry = volume.geometry();
        let thresholds = Thresholds::of(&geometry, volume.valid_blocks(rt));
        let free = volume.status(rt).free;
        watch.cleans = thresholds.are_missed(free, watch.cleans);
        watch.next_look = written.saturating_add(1);
        if !watch.cleans {
            return;
        }
        let policy = thresholds.policy(free);
        match self.cleaner.clean(rt, volume, policy, self.now()) {
            Ok(Ending::Enough) => {}
            Ok(Ending::NothingToWin) | Err(_) => {
                let blocks = geometry.shape.segment_blocks();
                watch.cleans = false;
                watch.next_look = written.saturating_add(u64::from(blocks));
            }
        }
    }

    // Writes a checkpoint where something was written so long ago that none has.
    fn flush_in_time<V: VolumeName, M: Meta, B: Block + Drop, R: Wait>(
        &self,
        rt: &R,
        volume: &Volume<V, M, B>,
        pass_table: &PassTable<V>,
        watch: &mut Watch,
    ) {
        let Some(seconds) = self.settings.flush_every else {
            return;
        };
        let kept = self.progress.kept();
        if self.progress.written() == kept {
            watch.waits = None;
            return;
        }
        let Ok(now) = self.clock.monotonic() else {
            return;
        };
        match watch.waits {
            Some((since, seen)) if seen == kept => {
                let waited = now.saturating_sub(since);
                if waited < Duration::from_secs(u64::from(seconds)) {
                    return;
                }
                if self.flush(rt, volume, pass_table).is_ok() {
                    self.counters.kept.add(1);
                }
                watch.waits = None;
            }
            _ => watch.waits = Some((now, kept)),
        }
    }
}
