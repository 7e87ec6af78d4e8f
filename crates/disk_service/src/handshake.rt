//! The handshake with a client.
ghost use Rattle.std.specs.Prelude.{◌≡◌, ◌≤◌, ◌++◌, ◌⊎◌, true, ℕ, List, length, IfOk};
ghost use Rattle.std.specs.Io.KnownBytes.{Consumes};
ghost use Rattle.disk_service.specs.Handshake.{AsksFor, IsAskedFor, IsMeant, told_bytes};
ghost use Rattle.disk_service.specs.declared.handshake.Greeted.TheVariants.{Served};
ghost use Rattle.disk_service.specs.declared.handshake.Next.TheVariants.{End, Option as Another};
ghost use Rattle.nbd_words.specs.Export.{export_flags, old_export_bytes};
ghost use Rattle.nbd_words.specs.declared.options.OptionKind.TheVariants.{ExportName, Go, Info as InfoOf};

use crate::request_reader::{MOST_BYTES, skip};
use nbd_words::{
    CLIENT_FLAGS_BYTES, ClientFlags, GREETING, OPTION_HEAD_BYTES, OptionHead, OptionKind,
    ReplyKind, info_block_size, info_export, parse_client_flags, parse_name, parse_option,
    push_export, push_option_reply, server_name,
};
use std::alloc::{AllocError, Global};
use std::io;
use std::io::{Read, Write};

/// The most bytes that the name of a disk may have.
pub const LONGEST_NAME: usize = 4096;

// The most bytes of an option's data that are read at once.
const MOST_DATA: u32 = 65_536;

/// A disk as a client is told of it.
#[derive(Clone, Copy)]
pub struct Export<'a> {
    /// Its name, of at most `LONGEST_NAME` bytes.
    pub name: &'a str,
    /// How many bytes it has.
    pub bytes: u64,
    /// The bytes of a block: accesses of whole blocks go best.
    pub block_bytes: u32,
    pub read_only: bool,
    ghost short: { length name.now ≤ 4096 },
}

/// How a handshake ended.
#[derive(Clone, Copy, PartialEq, Eq)]
pub enum Greeted {
    /// The client is to be served: from here on come requests.
    Served,
    /// The client has gone, or can't be understood.
    Gone,
}

// What comes after the answer to an option.
#[derive(Clone, Copy)]
enum Next {
    Option,
    End(Greeted),
}

/// Greets a client, and answers its options until it is to be served or gone.
///
/// EXPORT_NAME and GO serve the disk where they name it, or no name; GO and INFO tell its size, what may be asked, and the sizes of blocks;
/// LIST tells its name. Other options are refused, and the client may go on. So a client is served only where the last that it sent asked
/// for this disk. Answers the errors of the streams, and OutOfMemory.
pub fn greet<I: Read, O: Write>(
    alloc: Global,
    input: &mut I,
    output: &mut O,
    export: &Export<'_>,
) -> io::Result<Greeted>
    ensures served { IfOk result (λ greeted. greeted ≡ Served → IsAskedFor (I.remaining input.old) (I.remaining input.new) export.now.name.now) }
{
    output.write_all(GREETING)?;
    output.flush()?;
    let mut flags = [0u8; CLIENT_FLAGS_BYTES];
    input.read_exact(&mut flags)?;
    let Some(flags) = parse_client_flags(&flags) else {
        return Ok(Greeted::Gone);
    };
    for _ in 0..u64::MAX {
        let mut head = [0u8; OPTION_HEAD_BYTES];
        input.read_exact(&mut head)?;
        let Some(head) = parse_option(&head) else {
            return Ok(Greeted::Gone);
        };
        let mut answer = Vec::new(alloc);
        let next = take_option(alloc, input, export, flags, head, &mut answer)?;
        output.write_all(answer.as_slice())?;
        output.flush()?;
        if let Next::End(greeted) = next {
            return Ok(greeted);
        }
    }
    Ok(Greeted::Gone)
}

// Reads the data of an option, and puts the answer behind the bytes.
fn take_option<I: Read>(
    alloc: Global,
    input: &mut I,
    export: &Export<'_>,
    flags: ClientFlags,
    head: OptionHead,
    answer: &mut Vec<u8>,
) -> io::Result<Next>
    ensures read { IfOk result (λ next. (content : List ℕ) × Consumes (I.remaining input.old) (I.remaining input.new) content × (next ≡ End Served → AsksFor export.now.name.now head.kind content)) }
{
    if head.length > MOST_DATA {
        skip(input, head.length as usize)?;
        push_option_reply(answer, head.kind, ReplyKind::TooBig, &[])?;
        return Ok(Next::Option);
    }
    let mut content = vec![in alloc; 0u8; head.length as usize]?;
    input.read_exact(content.as_mut_slice())?;
    let next = answer_option(alloc, export, flags, head.kind, content.as_slice(), answer)?;
    Ok(next)
}

// Puts the answer to an option behind the bytes.
fn answer_option(
    alloc: Global,
    export: &Export<'_>,
    flags: ClientFlags,
    kind: OptionKind,
    content: &[u8],
    answer: &mut Vec<u8>,
) -> Result<Next, AllocError>
    ensures served { IfOk result (λ next. next ≡ End Served → AsksFor export.now.name.now kind content.now) }
    ensures told { IfOk result (λ next. next ≡ End Served → kind ≡ Go → answer.new.items ≡ answer.old.items ++ told_bytes export.now.bytes export.now.block_bytes export.now.read_only) }
    ensures told_by_name { IfOk result (λ next. next ≡ End Served → kind ≡ ExportName → answer.new.items ≡ answer.old.items ++ old_export_bytes export.now.bytes (export_flags export.now.read_only) flags.no_zeroes) }
{
    match kind {
        OptionKind::ExportName => {
            if !names(export, content) {
                return Ok(Next::End(Greeted::Gone));
            }
            push_export(answer, export.bytes, export.read_only, flags.no_zeroes)?;
            Ok(Next::End(Greeted::Served))
        }
        OptionKind::Abort => {
            push_option_reply(answer, kind, ReplyKind::Acknowledged, &[])?;
            Ok(Next::End(Greeted::Gone))
        }
        OptionKind::List => answer_list(alloc, export, content, answer),
        OptionKind::Info | OptionKind::Go => answer_info(alloc, export, kind, content, answer),
        OptionKind::Other(_) => {
            push_option_reply(answer, kind, ReplyKind::Unsupported, &[])?;
            Ok(Next::Option)
        }
    }
}

fn answer_list(
    alloc: Global,
    export: &Export<'_>,
    content: &[u8],
    answer: &mut Vec<u8>,
) -> Result<Next, AllocError>
    ensures goes_on { IfOk result (λ next. next ≡ Another) }
{
    if content.is_empty() {
        let name = server_name(alloc, export.name.as_bytes())?;
        push_option_reply(answer, OptionKind::List, ReplyKind::Server, name.as_slice())?;
        push_option_reply(answer, OptionKind::List, ReplyKind::Acknowledged, &[])?;
    } else {
        push_option_reply(answer, OptionKind::List, ReplyKind::Invalid, &[])?;
    }
    Ok(Next::Option)
}

// Answers INFO or GO.
fn answer_info(
    alloc: Global,
    export: &Export<'_>,
    kind: OptionKind,
    content: &[u8],
    answer: &mut Vec<u8>,
) -> Result<Next, AllocError>
    requires kind { (kind ≡ InfoOf) ⊎ (kind ≡ Go) }
    ensures served { IfOk result (λ next. next ≡ End Served → (kind ≡ Go) × AsksFor export.now.name.now kind content.now) }
    ensures told { IfOk result (λ next. next ≡ End Served → answer.new.items ≡ answer.old.items ++ told_bytes export.now.bytes export.now.block_bytes export.now.read_only) }
{
    let Some(length) = parse_name(content) else {
        push_option_reply(answer, kind, ReplyKind::Invalid, &[])?;
        return Ok(Next::Option);
    };
    let end = 4 + length;
    if !names(export, &content[4..end]) {
        push_option_reply(answer, kind, ReplyKind::Unknown, &[])?;
        return Ok(Next::Option);
    }
    let told = info_export(alloc, export.bytes, export.read_only)?;
    push_option_reply(answer, kind, ReplyKind::Info, told.as_slice())?;
    let told = info_block_size(alloc, 1, export.block_bytes, MOST_BYTES)?;
    push_option_reply(answer, kind, ReplyKind::Info, told.as_slice())?;
    push_option_reply(answer, kind, ReplyKind::Acknowledged, &[])?;
    if kind == OptionKind::Go {
        Ok(Next::End(Greeted::Served))
    } else {
        Ok(Next::Option)
    }
}

// Whether the disk is meant by a name: an empty one means any disk.
fn names(export: &Export<'_>, name: &[u8]) -> bool
    ensures { result ≡ true → IsMeant export.now.name.now name.now }
{
    name.is_empty() || name == export.name.as_bytes()
}
