//! A client's options, and the answers to them.
ghost use Rattle.std.specs.Prelude.{◌≡◌, ◌++◌, ◌<◌, ◌≤◌, ◌^◌, ℕ, List, length, IfSome, IfNone, OnOk};
ghost use Rattle.nbd_words.specs.Options.{Head, IsHead, IsNamed, head_bytes, head_of, option_number, reply_number, option_reply_bytes};

use crate::fields::{u16_at, u32_at, u64_at};
use std::alloc::AllocError;

/// The bytes of the head of an option.
pub const OPTION_HEAD_BYTES: usize = 16;

// IHAVEOPT
const OPTION_MARK: u64 = 0x4948_4156_454F_5054;

const OPTION_REPLY_MARK: u64 = 0x0003_E889_0455_65A9;

/// What an option asks ("Option types").
#[derive(Clone, Copy, PartialEq, Eq)]
pub enum OptionKind {
    /// The disk of the name that follows is to be served. It is answered with no head, and refused by an end of the connection alone.
    ExportName,
    /// The client goes.
    Abort,
    /// Which disks there are.
    List,
    /// What is to be known of the disk that the data names.
    Info,
    /// The same, and the disk is to be served from then on.
    Go,
    /// An option of any other number, as STARTTLS or STRUCTURED_REPLY.
    Other(u32),
}

impl OptionKind {
    /// The number on the wire.
    pub fn number(self) -> u32
        ensures { result ≡ option_number self }
    {
        match self {
            OptionKind::ExportName => 1,
            OptionKind::Abort => 2,
            OptionKind::List => 3,
            OptionKind::Info => 6,
            OptionKind::Go => 7,
            OptionKind::Other(number) => number,
        }
    }

    /// The option of a number.
    pub fn of_number(number: u32) -> OptionKind
        ensures { option_number result ≡ number }
    {
        match number {
            1 => OptionKind::ExportName,
            2 => OptionKind::Abort,
            3 => OptionKind::List,
            6 => OptionKind::Info,
            7 => OptionKind::Go,
            other => OptionKind::Other(other),
        }
    }
}

/// The head of an option: what the client asks, and how many bytes of data lie behind it.
#[derive(Clone, Copy, PartialEq, Eq)]
pub struct OptionHead {
    pub kind: OptionKind,
    pub length: u32,
}

/// How an option is answered ("Option reply types").
#[derive(Clone, Copy, PartialEq, Eq)]
pub enum ReplyKind {
    /// It is done, and no other answer to it follows.
    Acknowledged,
    /// A disk's name.
    Server,
    /// Something that is to be known of a disk.
    Info,
    /// The server does not know the option.
    Unsupported,
    /// The data are not of the option's grammar.
    Invalid,
    /// There is no disk of that name.
    Unknown,
    /// There are more data than the server takes.
    TooBig,
}

impl ReplyKind {
    /// The number on the wire.
    pub fn number(self) -> u32
        ensures { result ≡ reply_number self }
    {
        match self {
            ReplyKind::Acknowledged => 1,
            ReplyKind::Server => 2,
            ReplyKind::Info => 3,
            ReplyKind::Unsupported => 0x8000_0001,
            ReplyKind::Invalid => 0x8000_0003,
            ReplyKind::Unknown => 0x8000_0006,
            ReplyKind::TooBig => 0x8000_0009,
        }
    }
}

/// The head of the option that these bytes spell. None exactly where they spell none: then the client can't be understood any more.
pub fn parse_option(bytes: &[u8]) -> Option<OptionHead>
    requires whole { length bytes.now ≡ 16 }
    ensures some { IfSome result (λ head. bytes.now ≡ head_bytes (head_of head)) }
    ensures none { IfNone result ((head : Head) → bytes.now ≡ head_bytes head → ⊥) }
{
    let mark = u64_at(bytes, 0);
    if mark != OPTION_MARK {
        return None;
    }
    Some(OptionHead {
        kind: OptionKind::of_number(u32_at(bytes, 8)),
        length: u32_at(bytes, 12),
    })
}

/// The bytes of the name of the disk that the data of an option INFO or GO asks for, from the fifth byte on. None exactly where the data
/// are not so spelled. What else the client wants to know is left unread: a server may tell more or less than that.
pub fn parse_name(content: &[u8]) -> Option<usize>
    ensures some { IfSome result (λ n. IsNamed n content.now) }
    ensures none { IfNone result ((n : ℕ) → IsNamed n content.now → ⊥) }
{
    if content.len() < 6 {
        return None;
    }
    let name = u32_at(content, 0) as usize;
    if content.len() - 6 < name {
        return None;
    }
    let wanted = u16_at(content, 4 + name) as usize;
    if content.len() - 6 - name != 2 * wanted {
        return None;
    }
    Some(name)
}

/// Puts an answer to an option, with its data, behind the bytes.
pub fn push_option_reply(
    out: &mut Vec<u8>,
    option: OptionKind,
    reply: ReplyKind,
    content: &[u8],
) -> Result<(), AllocError>
    requires short { length content.now < 2 ^ 32 }
    ensures bytes { OnOk result (out.new.items ≡ out.old.items ++ option_reply_bytes (option_number option) (reply_number reply) content.now) }
{
    let length = content.len() as u32;
    out.extend_from_slice(&OPTION_REPLY_MARK.to_be_bytes())?;
    out.extend_from_slice(&option.number().to_be_bytes())?;
    out.extend_from_slice(&reply.number().to_be_bytes())?;
    out.extend_from_slice(&length.to_be_bytes())?;
    out.extend_from_slice(content)?;
    Ok(())
}

/// No bytes spell two options.
///
/// It runs nothing: its contract is the law.
pub fn option_law()
    ensures { (one other : Head) → IsHead one → IsHead other → head_bytes one ≡ head_bytes other → one ≡ other }
{}
