//! A device that fails when told to: the n-th write or sync from the moment of arming fails once.
ghost use Rattle.std.specs.Prelude.{◌≡◌, ◌+◌};

use crate::waiting::Waiting;
use crate::{Block, DeviceError, Failures, Meta};
use std::alloc::{AllocError, Global};
use std::sync::{Arc, Mutex, MutexGuard};
use std::thread;

/// What a fuse does to a call.
#[derive(Clone, Copy, PartialEq, Eq)]
pub enum FuseAction {
    /// The call is not done, and fails.
    Before,
    /// The call is done, and fails.
    After,
}

/// Says which calls fail. A device and who arms it share it.
///
/// No contract says what a lock holds, so that a fuse does what `Waiting` promises is only tested.
#[derive(Drop)]
pub struct Fuse {
    waiting: Mutex<Waiting>,
}

impl Fuse {
    /// A fuse that is not armed.
    pub fn new(alloc: Global) -> Fuse {
        Fuse {
            waiting: Mutex::new(Waiting::none(alloc)),
        }
    }

    /// The n-th write or sync from now on fails once: it is done before where the fault comes late, and else not done.
    /// With 0 none fails. Those that were armed before count on; where two come to the same call, the one that was armed first
    /// decides. The only error is want of memory.
    pub fn arm(&self, nth: u32, late: bool) -> Result<(), AllocError> {
        let fault = if late {
            FuseAction::After
        } else {
            FuseAction::Before
        };
        match self.hold() {
            Some(mut waiting) if nth > 0 => waiting.arm(u64::from(nth), fault),
            _ => Ok(()),
        }
    }

    /// Counts one call, and says whether it is to fail.
    pub fn burn(&self) -> Option<FuseAction> {
        match self.hold() {
            Some(mut waiting) => waiting.next(),
            None => None,
        }
    }

    // Who holds it lets it go after a few steps. To wait for a lock asks for more than a device may do, so this looks again.
    fn hold(&self) -> Option<MutexGuard<'_, Waiting>> {
        for _look in 0..u64::MAX {
            if let Some(waiting) = self.waiting.try_lock() {
                return Some(waiting);
            }
            thread::yield_now();
        }
        None
    }
}

/// A part of a device, its meta area or a block, that fails where its fuse says so, and else does what the one inside
/// does.
///
/// Its failures are those of the one inside and those of the fuse. Only writes and syncs fail by the fuse: it counts no
/// read and no lease.
#[derive(Drop)]
pub struct Faulty<P> {
    pub inner: P,
    fuse: Arc<Fuse>,
    /// Those of the fuse.
    pub failures: Failures,
}

impl<P> Faulty<P> {
    /// The part with a fuse, which has counted no failure yet.
    pub fn new(inner: P, fuse: Arc<Fuse>) -> Faulty<P>
        ensures inner { result.inner ≡ inner }
        ensures sound { result.failures.total.count ≡ 0 }
    {
        Faulty {
            inner,
            fuse,
            failures: Failures::none(),
        }
    }

    /// The part inside, without the fuse.
    pub fn into_inner(self) -> P
        ensures { result ≡ self.inner }
    {
        self.inner
    }
}

impl<M: Meta> Meta for Faulty<M> {
    ghost seen = { λ f. M.Meta.seen f.inner };

    ghost may_leave = { λ f. M.Meta.may_leave f.inner };

    ghost moment = { λ f. M.Meta.moment f.inner };

    ghost left_since = { λ f. M.Meta.left_since f.inner };

    ghost failed = { λ f. M.Meta.failed f.inner + f.failures.total.count };

    ghost seen_is_left = { λ f. M.Meta.seen_is_left f.inner };

    ghost counts_now = { λ f. M.Meta.counts_now f.inner };

    ghost only_now = { λ f. M.Meta.only_now f.inner };

    fn read(&mut self, at: u64, out: &mut [u8]) -> Result<(), DeviceError> {
        self.inner.read(at, out)
    }

    fn write(&mut self, at: u64, bytes: &[u8]) -> Result<(), DeviceError> {
        match self.fuse.burn() {
            None => self.inner.write(at, bytes),
            Some(FuseAction::Before) => {
                self.failures.count();
                Err(DeviceError)
            }
            Some(FuseAction::After) => {
                let _done = self.inner.write(at, bytes);
                self.failures.count();
                Err(DeviceError)
            }
        }
    }

    fn sync(&mut self) -> Result<(), DeviceError> {
        match self.fuse.burn() {
            None => self.inner.sync(),
            Some(FuseAction::Before) => {
                self.failures.count();
                Err(DeviceError)
            }
            Some(FuseAction::After) => {
                let _done = self.inner.sync();
                self.failures.count();
                Err(DeviceError)
            }
        }
    }

    fn len(&self) -> u64 {
        self.inner.len()
    }

    fn failures(&self) -> u64 {
        self.inner.failures().saturating_add(self.failures.told())
    }
}

impl<B: Block> Block for Faulty<B> {
    type Lease = B::Lease;

    ghost address_of = { λ f. B.Block.address_of f.inner };

    ghost content_of = { λ f. B.Block.content_of f.inner };

    ghost failed = { λ f. B.Block.failed f.inner + f.failures.total.count };

    fn address(&self) -> u32 {
        self.inner.address()
    }

    fn write(&mut self, bytes: &[u8]) -> Result<(), DeviceError> {
        match self.fuse.burn() {
            None => self.inner.write(bytes),
            Some(FuseAction::Before) => {
                self.failures.count();
                Err(DeviceError)
            }
            Some(FuseAction::After) => {
                let _done = self.inner.write(bytes);
                self.failures.count();
                Err(DeviceError)
            }
        }
    }

    fn read(&mut self, out: &mut [u8]) -> Result<(), DeviceError> {
        self.inner.read(out)
    }

    fn lend(&mut self) -> Result<B::Lease, DeviceError> {
        self.inner.lend()
    }

    fn failures(&self) -> u64 {
        self.failures.told().saturating_add(self.inner.failures())
    }
}
