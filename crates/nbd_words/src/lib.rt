//! The words of the NBD protocol (network block device, fixed newstyle handshake, simple replies), as values and as bytes: a client's
//! options and requests, what a request may ask of a disk, and a server's answers. It reads and writes nothing: who serves hands in
//! what came, and sends what these functions answer.
//!
//! The source of each number and layout is the protocol's document,
//! https://github.com/NetworkBlockDevice/nbd/blob/master/doc/proto.md
#![tactic(auto)]

mod error_number;
mod export;
mod fields;
mod greeting;
mod judging;
mod options;
mod reply;
mod request;

pub use error_number::ErrorNumber;
pub use export::{info_block_size, info_export, push_export, server_name, transmission_flags};
pub use greeting::{CLIENT_FLAGS_BYTES, ClientFlags, GREETING, parse_client_flags};
pub use judging::{Access, Disk, Refusal, judge};
pub use options::{
    OPTION_HEAD_BYTES, OptionHead, OptionKind, ReplyKind, option_law, parse_name, parse_option,
    push_option_reply,
};
pub use reply::{REPLY_BYTES, simple_reply};
pub use request::{REQUEST_BYTES, Request, parse_request, request_law};
