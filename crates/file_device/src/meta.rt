//! The meta area of an image file.
ghost use Rattle.std.specs.Prelude.{◌≡◌, ◌+◌, length, true};
ghost use Rattle.device.specs.Outcomes.{Outcome, Since, seen_is_outcome, outcome_since, since_now};

use crate::kept_area::KeptArea;
use crate::store::{Asked, Settled, Store};
use device::{DeviceError, Failures, MemMeta, Meta};
use std::sync::Arc;

/// The meta area of an image file, which stands at its front.
///
/// Once a write or a sync of it has failed, no sync is answered Ok any more: the system may have dropped what was written, and
/// tells that once.
#[derive(Drop)]
pub struct FileMeta<S> {
    /// What a read gives.
    pub kept: KeptArea,
    store: Arc<Asked<S>>,
    failures: Failures,
}

impl<S: Store> FileMeta<S> {
    /// The meta area whose bytes these are, all of them settled.
    pub fn of(kept: MemMeta, store: Arc<Asked<S>>, settled: Settled) -> FileMeta<S>
        ensures { result.kept.area ≡ kept }
    {
        let Settled { .. } = settled;
        FileMeta {
            kept: KeptArea {
                area: kept,
                lost: false,
            },
            store,
            failures: Failures::none(),
        }
    }

    fn fail(&mut self) -> DeviceError
        ensures area { self.new.kept.area ≡ self.old.kept.area }
        ensures lost { self.new.kept.lost ≡ true }
        ensures count { self.new.failures.total.count ≡ self.old.failures.total.count + 1 }
    {
        self.kept.lost = true;
        self.failures.count();
        DeviceError
    }
}

impl<S: Store> Meta for FileMeta<S> {
    ghost seen = { λ m. m.kept.area.bytes.items };

    ghost may_leave = { λ m c. Outcome m.kept.area.calls.items m.kept.area.bytes.items c };

    ghost moment = { λ m. length m.kept.area.calls.items };

    ghost left_since = { λ m t c. Since m.kept.area.calls.items m.kept.area.bytes.items t c };

    ghost failed = { λ m. m.failures.total.count };

    ghost seen_is_left = { λ m. seen_is_outcome m.kept.area.calls.items m.kept.area.bytes.items };

    ghost counts_now = { λ m t c le now. outcome_since m.kept.area.calls.items m.kept.area.bytes.items t c now };

    ghost only_now = { λ m c left. since_now m.kept.area.calls.items m.kept.area.bytes.items c left };

    fn read(&mut self, at: u64, out: &mut [u8]) -> Result<(), DeviceError> {
        let _read = self.kept.area.read(at, out);
        Ok(())
    }

    fn write(&mut self, at: u64, bytes: &[u8]) -> Result<(), DeviceError> {
        match self.store.put(at, bytes) {
            Ok(written) => {
                self.kept.take(written);
                Ok(())
            }
            Err(_) => {
                self.kept.spoil(at, bytes);
                Err(self.fail())
            }
        }
    }

    fn sync(&mut self) -> Result<(), DeviceError> {
        if self.kept.lost {
            return Err(self.fail());
        }
        match self.store.settle() {
            Ok(settled) => {
                self.kept.settle(settled);
                Ok(())
            }
            Err(_) => Err(self.fail()),
        }
    }

    fn len(&self) -> u64 {
        self.kept.area.len()
    }

    fn failures(&self) -> u64 {
        self.failures.told()
    }
}
