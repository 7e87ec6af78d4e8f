//! How a server greets, and what the client answers.
ghost use Rattle.std.specs.Prelude.{◌≡◌, ◌≤◌, ◌++◌, ◌<◌, ◌^◌, ℕ, length, IfSome, IfNone};
ghost use Rattle.std.specs.Int.{w32, to_be_bytes};
ghost use Rattle.nbd_words.specs.Flags.{flags_of};

use crate::fields::u32_at;

/// What a server says first: NBDMAGIC, IHAVEOPT, and its flags: that it speaks the fixed newstyle, and that it need not send 124 zeros
/// behind the answer to EXPORT_NAME.
pub const GREETING: &[u8; 18] = b"NBDMAGICIHAVEOPT\x00\x03";

/// The bytes of the client's answer to the greeting.
pub const CLIENT_FLAGS_BYTES: usize = 4;

/// What the client answers to the greeting.
#[derive(Clone, Copy, PartialEq, Eq)]
pub struct ClientFlags {
    /// It speaks the fixed newstyle too.
    pub fixed_newstyle: bool,
    /// It wants no zeros behind the answer to EXPORT_NAME.
    pub no_zeroes: bool,
}

/// The flags that the client's first four bytes have. None exactly where they have a flag beside these two: then the server ends the
/// connection.
pub fn parse_client_flags(bytes: &[u8]) -> Option<ClientFlags>
    requires whole { length bytes.now ≡ 4 }
    ensures some { IfSome result (λ flags. bytes.now ≡ to_be_bytes w32 (flags_of flags)) }
    ensures none { IfNone result ((flags : ℕ) → flags ≤ 3 → bytes.now ≡ to_be_bytes w32 flags → ⊥) }
{
    let (fixed_newstyle, no_zeroes) = match u32_at(bytes, 0) {
        0 => (false, false),
        1 => (true, false),
        2 => (false, true),
        3 => (true, true),
        _ => return None,
    };
    Some(ClientFlags {
        fixed_newstyle,
        no_zeroes,
    })
}
