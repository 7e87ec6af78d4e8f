//! How a volume is left, and what a call hands back.
use device::Parts;
use geometry::Error;

/// How a volume is left once the work is done.
#[derive(Clone, Copy, Debug, PartialEq, Eq)]
pub enum Leave {
    /// With a last checkpoint: a mount finds the files that the work left.
    Close,
    /// As a power cut would, with nothing written: a mount finds what the last checkpoint has.
    Discard,
}

/// What work on a volume hands back: the parts of the device, and what the work answered.
#[derive(Drop)]
pub struct Done<M, B, O> {
    pub parts: Parts<M, B>,
    pub output: O,
}

/// The stage at which a call was refused.
#[derive(Clone, Copy, Debug, PartialEq, Eq)]
pub enum Stage {
    /// A volume without files is written to the device.
    Format,
    /// The device's image is read, and a volume made of it.
    Mount,
    /// The work is done.
    Work,
    /// The last checkpoint is written.
    Close,
}

/// Why a call was refused, and at which stage, with the parts of the device.
#[derive(Drop)]
pub struct LeaveFault<M, B> {
    pub parts: Parts<M, B>,
    pub stage: Stage,
    pub error: Error,
}
