//! The numbers of the errors that an answer tells.
ghost use Rattle.std.specs.Prelude.{◌≡◌};
ghost use Rattle.nbd_words.specs.Errors.{error_number};

/// Why a request was not done, as the answer tells it ("Error values" of the protocol's document). The numbers are those that Linux has.
#[derive(Clone, Copy, PartialEq, Eq)]
pub enum ErrorNumber {
    /// EPERM: the disk is read only.
    NotPermitted,
    /// EIO: the device failed.
    InputOutput,
    /// ENOMEM: the server found no memory.
    NoMemory,
    /// EINVAL: there is no such request.
    Invalid,
    /// ENOSPC: no room is left, or the disk ends before.
    NoSpace,
    /// ESHUTDOWN: the server is about to end.
    ShuttingDown,
}

impl ErrorNumber {
    /// The number on the wire.
    pub fn number(self) -> u32
        ensures { result ≡ error_number self }
    {
        match self {
            ErrorNumber::NotPermitted => 1,
            ErrorNumber::InputOutput => 5,
            ErrorNumber::NoMemory => 12,
            ErrorNumber::Invalid => 22,
            ErrorNumber::NoSpace => 28,
            ErrorNumber::ShuttingDown => 108,
        }
    }
}
