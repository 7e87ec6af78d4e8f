//! The right to one block.
ghost use Rattle.std.specs.Prelude.{◌≡◌, ℕ, ◌-◌, ◌^◌, ◌<◌, min, List, length, OnOk, OnErr, IfOk};
ghost use Rattle.geometry.specs.declared.error.Error.TheVariants.{Device};

use geometry::Error;
use std::convert::AsSlice;

/// The device failed, and counted it.
#[derive(Clone, Copy, Debug, PartialEq, Eq)]
pub struct DeviceError;

impl From<DeviceError> for Error {
    ghost from_gives = { λ _ e. e ≡ Device };

    fn from(_error: DeviceError) -> Error {
        Error::Device
    }
}

/// The one right to read and write a block of the main area (Lee and others, FAST 2015: blocks are never written in
/// place while something names them; Rosenblum and Ousterhout 1991).
pub trait Block {
    /// The bytes of the block as they were when they were lent.
    type Lease: AsSlice<u8> + Drop;

    /// The block's address, from 1 on.
    ghost address_of: { Self → ℕ };

    /// The bytes that the block holds.
    ghost content_of: { Self → List ℕ };

    /// How often it has failed. It has no upper end.
    ghost failed: { Self → ℕ };

    /// The block's address.
    fn address(&self) -> u32
        ensures { result ≡ address_of self.now };

    /// Writes the whole block. Answers DeviceError where the device failed, and then the block holds any bytes.
    fn write(&mut self, bytes: &[u8]) -> Result<(), DeviceError>
        requires { length bytes.now ≡ length (content_of self.old) }
        ensures address { address_of self.new ≡ address_of self.old }
        ensures length { length (content_of self.new) ≡ length (content_of self.old) }
        ensures content { OnOk result (content_of self.new ≡ bytes.now) }
        ensures sound { OnOk result (failed self.new ≡ failed self.old) }
        ensures failure { OnErr result (failed self.old < failed self.new) };

    /// Reads the whole block. Answers DeviceError where the device failed, and then `out` has any bytes.
    fn read(&mut self, out: &mut [u8]) -> Result<(), DeviceError>
        requires { length out.old ≡ length (content_of self.old) }
        ensures address { address_of self.new ≡ address_of self.old }
        ensures content { content_of self.new ≡ content_of self.old }
        ensures bytes { OnOk result (out.new ≡ content_of self.old) }
        ensures sound { OnOk result (failed self.new ≡ failed self.old) }
        ensures failure { OnErr result (failed self.old < failed self.new) };

    /// The bytes as they are now, whatever is written later. Answers DeviceError where the device failed, and then
    /// nothing is lent.
    fn lend(&mut self) -> Result<Self::Lease, DeviceError>
        ensures address { address_of self.new ≡ address_of self.old }
        ensures content { content_of self.new ≡ content_of self.old }
        ensures bytes { IfOk result (λ lease. Self.Lease.items lease ≡ content_of self.old) }
        ensures sound { OnOk result (failed self.new ≡ failed self.old) }
        ensures failure { OnErr result (failed self.old < failed self.new) };

    /// The failures so far, or the largest number there is.
    fn failures(&self) -> u64
        ensures { result ≡ min (failed self.now) (2 ^ 64 - 1) };
}
