//! Answers to requests.
ghost use Rattle.std.specs.Prelude.{◌≡◌, ◌++◌};
ghost use Rattle.nbd_words.specs.Errors.{outcome_number};
ghost use Rattle.nbd_words.specs.Request.{reply_bytes};

use crate::error_number::ErrorNumber;

/// The bytes of a simple reply, without the data that a READ has behind it.
pub const REPLY_BYTES: usize = 16;

const REPLY_MARK: u32 = 0x6744_6698;

/// A simple reply ("Simple reply message"): 0 where the request was done, else the number of the error, and the request's cookie. The data
/// of a READ that was done come behind it. It takes no memory, so that each request can be answered.
pub fn simple_reply(outcome: Result<(), ErrorNumber>, cookie: u64) -> [u8; REPLY_BYTES]
    ensures bytes { result ≡ reply_bytes (outcome_number outcome) cookie }
{
    let mut bytes = [0u8; REPLY_BYTES];
    bytes[..4].copy_from_slice(&REPLY_MARK.to_be_bytes());
    bytes[4..8].copy_from_slice(&number_of(outcome).to_be_bytes());
    bytes[8..].copy_from_slice(&cookie.to_be_bytes());
    bytes
}

fn number_of(outcome: Result<(), ErrorNumber>) -> u32
    ensures { result ≡ outcome_number outcome }
{
    match outcome {
        Ok(()) => 0,
        Err(error) => error.number(),
    }
}
