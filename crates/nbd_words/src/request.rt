//! Requests once the handshake is over.
ghost use Rattle.std.specs.Prelude.{◌≡◌, ◌==◌, ◌++◌, ℕ, List, length, IfSome, IfNone};
ghost use Rattle.nbd_words.specs.Request.{Words, AreWords, request_bytes};
ghost use Rattle.nbd_words.specs.Fields.{words_of};

use crate::fields::{u16_at, u32_at, u64_at};

/// The bytes of a request, without the data that a WRITE has behind it.
pub const REQUEST_BYTES: usize = 28;

const REQUEST_MARK: u32 = 0x2560_9513;

const WRITE: u16 = 1;

const LEAVE: u16 = 2;

/// A request ("Request message"): what is to be done, where, and the cookie by which its answer is told from others. Offset and length are
/// in bytes. A WRITE (kind 1) has as many bytes of data behind it.
#[derive(Clone, Copy, PartialEq, Eq)]
pub struct Request {
    pub flags: u16,
    pub kind: u16,
    pub cookie: u64,
    pub offset: u64,
    pub length: u32,
}

impl Request {
    ghost use Rattle.nbd_words.specs.Request.{data_bytes};

    /// How many bytes of data lie behind it: its length for a WRITE, else none.
    pub fn data_bytes(&self) -> u32
        ensures { result ≡ data_bytes (words_of self.now) }
    {
        if self.kind == WRITE { self.length } else { 0 }
    }

    /// Whether the client goes with it (DISC). Nothing is answered to that.
    pub fn is_leave(&self) -> bool
        ensures { result ≡ (self.now.kind == 2) }
    {
        self.kind == LEAVE
    }
}

/// The request that these bytes spell. None exactly where they spell none: then the client can't be understood any more.
pub fn parse_request(bytes: &[u8]) -> Option<Request>
    requires whole { length bytes.now ≡ 28 }
    ensures some { IfSome result (λ request. bytes.now ≡ request_bytes (words_of request)) }
    ensures words { IfSome result (λ request. AreWords (words_of request)) }
    ensures none { IfNone result ((words : Words) → bytes.now ≡ request_bytes words → ⊥) }
{
    let mark = u32_at(bytes, 0);
    if mark != REQUEST_MARK {
        return None;
    }
    Some(Request {
        flags: u16_at(bytes, 4),
        kind: u16_at(bytes, 6),
        cookie: u64_at(bytes, 8),
        offset: u64_at(bytes, 16),
        length: u32_at(bytes, 24),
    })
}

/// No bytes spell two requests.
///
/// It runs nothing: its contract is the law.
pub fn request_law()
    ensures { (one other : Words) → AreWords one → AreWords other → request_bytes one ≡ request_bytes other → one ≡ other }
{}
