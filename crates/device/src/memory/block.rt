//! A block in memory.
ghost use Rattle.std.specs.Prelude.{◌≡◌, IfOk, OnErr};
ghost use Rattle.std.specs.Arc.{arc_value};

use crate::{Block, DeviceError, Failures};
use std::alloc::{AllocError, Global};
use std::convert::AsSlice;
use std::sync::Arc;

/// The bytes of a block as they were when they were lent.
#[derive(Drop)]
pub struct MemLease {
    bytes: Arc<Vec<u8>>,
}

impl AsSlice<u8> for MemLease {
    ghost items = { λ lease. (arc_value lease.bytes).items };

    fn as_slice(&self) -> &[u8] {
        self.bytes.as_slice()
    }
}

/// A block in memory, which never fails but for want of memory.
///
/// Its bytes are shared with its leases. Only a write while a lease lives takes memory, for bytes of its own.
#[derive(Drop)]
pub struct MemBlock {
    address: u32,
    bytes: Arc<Vec<u8>>,
    alloc: Global,
    failures: Failures,
}

impl MemBlock {
    /// A block of this address and these bytes. Answers AllocError where memory was refused.
    pub fn new(alloc: Global, address: u32, bytes: Vec<u8>) -> Result<MemBlock, AllocError>
        ensures address { IfOk result (λ block. ⟦<MemBlock as Block>⟧.address_of block ≡ address) }
        ensures content { IfOk result (λ block. ⟦<MemBlock as Block>⟧.content_of block ≡ bytes.items) }
        ensures sound { IfOk result (λ block. ⟦<MemBlock as Block>⟧.failed block ≡ 0) }
    {
        match Arc::new(alloc, bytes) {
            Ok(bytes) => Ok(MemBlock {
                address,
                bytes,
                alloc,
                failures: Failures::none(),
            }),
            Err(_) => Err(AllocError),
        }
    }

    /// The bytes that it holds.
    pub fn as_slice(&self) -> &[u8]
        ensures { result.now ≡ ⟦<MemBlock as Block>⟧.content_of self.now }
    {
        &self.bytes[..]
    }

    // Leaves the bytes to the leases and takes memory for new ones.
    fn share_copy(&mut self, bytes: &[u8]) -> Result<(), AllocError>
        ensures address { self.new.address ≡ self.old.address }
        ensures failures { self.new.failures.total.count ≡ self.old.failures.total.count }
        ensures bytes { IfOk result (λ _. (arc_value self.new.bytes).items ≡ bytes.now) }
        ensures kept { OnErr result ((arc_value self.new.bytes).items ≡ (arc_value self.old.bytes).items) }
    {
        let copy = Vec::from_slice(self.alloc, bytes)?;
        match Arc::new(self.alloc, copy) {
            Ok(shared) => {
                self.bytes = shared;
                Ok(())
            }
            Err(_) => Err(AllocError),
        }
    }
}

impl Block for MemBlock {
    type Lease = MemLease;

    ghost address_of = { λ block. block.address };

    ghost content_of = { λ block. (arc_value block.bytes).items };

    ghost failed = { λ block. block.failures.total.count };

    fn address(&self) -> u32 {
        self.address
    }

    fn write(&mut self, bytes: &[u8]) -> Result<(), DeviceError> {
        if let Some(held) = Arc::get_mut(&mut self.bytes) {
            held.as_mut_slice().copy_from_slice(bytes);
            return Ok(());
        }
        if self.share_copy(bytes).is_err() {
            self.failures.count();
            return Err(DeviceError);
        }
        Ok(())
    }

    fn read(&mut self, out: &mut [u8]) -> Result<(), DeviceError> {
        out.copy_from_slice(self.bytes.as_slice());
        Ok(())
    }

    fn lend(&mut self) -> Result<MemLease, DeviceError> {
        match Arc::try_clone(&self.bytes) {
            Ok(bytes) => Ok(MemLease { bytes }),
            Err(_) => {
                self.failures.count();
                Err(DeviceError)
            }
        }
    }

    fn failures(&self) -> u64 {
        self.failures.told()
    }
}
