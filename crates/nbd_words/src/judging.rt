//! What a request asks of a disk, and why it is refused.
ghost use Rattle.std.specs.Prelude.{◌≡◌, ◌≢◌, ◌≤◌, ◌<◌, ◌+◌, true, false, IfOk, IfErr, OnOk, bit_and};
ghost use Rattle.nbd_words.specs.Access.{IsAllowed, IsRefused, IsChange, unknown_flags};
ghost use Rattle.nbd_words.specs.Fields.{words_of};
ghost use Rattle.nbd_words.specs.declared.error_number.ErrorNumber.TheVariants.{Invalid, NoSpace, NotPermitted};
ghost use Rattle.nbd_words.specs.declared.judging.Refusal.TheVariants.{BadFlags, ReadOnly, TooLong, WritePastEnd};

use crate::error_number::ErrorNumber;
use crate::request::Request;

/// A disk, of which requests ask.
#[derive(Clone, Copy, PartialEq, Eq)]
pub struct Disk {
    /// How many bytes it has.
    pub bytes: u64,
    /// The most bytes that one READ or WRITE may have.
    pub most: u32,
    pub read_only: bool,
}

/// What is done on a disk. Offsets and lengths are in bytes. `through`: the answer waits until what was changed is safe.
#[derive(Clone, Copy, PartialEq, Eq)]
pub enum Access {
    Read {
        offset: u64,
        length: u32,
    },
    Write {
        offset: u64,
        length: u32,
        through: bool,
    },
    /// All that was answered before is made safe.
    Flush,
    /// What is there is not needed any more, and may read as anything.
    Trim {
        offset: u64,
        length: u32,
        through: bool,
    },
    /// Zeros are to be read from here on. `keep`: their room is kept, so that a later write finds it.
    Zero {
        offset: u64,
        length: u32,
        through: bool,
        keep: bool,
    },
    /// The client goes. Nothing is answered.
    Leave,
}

/// Why a request is refused.
#[derive(Clone, Copy, PartialEq, Eq)]
pub enum Refusal {
    /// There is no request of this number.
    Unknown,
    /// It has a flag that it may not have.
    BadFlags,
    /// A FLUSH that has an offset or a length.
    FlushOfAPart,
    /// It would change a disk that is read only.
    ReadOnly,
    /// More bytes than the disk takes or gives at once.
    TooLong,
    /// It reads past the end of the disk.
    ReadPastEnd,
    /// It writes past the end of the disk.
    WritePastEnd,
}

impl Refusal {
    /// What the answer tells: EPERM for a disk that is read only, ENOSPC for a write past the end, else EINVAL.
    pub fn error_number(self) -> ErrorNumber
        ensures read_only { self ≡ ReadOnly → result ≡ NotPermitted }
        ensures past_end { self ≡ WritePastEnd → result ≡ NoSpace }
        ensures other { self ≢ ReadOnly → self ≢ WritePastEnd → result ≡ Invalid }
    {
        match self {
            Refusal::ReadOnly => ErrorNumber::NotPermitted,
            Refusal::WritePastEnd => ErrorNumber::NoSpace,
            Refusal::Unknown
            | Refusal::BadFlags
            | Refusal::FlushOfAPart
            | Refusal::TooLong
            | Refusal::ReadPastEnd => ErrorNumber::Invalid,
        }
    }
}

const FLAG_FUA: u16 = 1;

const FLAG_NO_HOLE: u16 = 2;

// All flags but FUA, which each request may have.
const BUT_FUA: u16 = 0xFFFE;

// All flags but FUA and NO_HOLE, which is asked of WRITE_ZEROES.
const BUT_FUA_AND_NO_HOLE: u16 = 0xFFFC;

/// What a request asks of a disk ("Request types"). Ok just where all of it lies on the disk and the disk may do it: what is refused is
/// so in truth. A length of 0 is fine.
pub fn judge(disk: Disk, request: &Request) -> Result<Access, Refusal>
    ensures allowed { IfOk result (λ access. IsAllowed disk (words_of request.now) access) }
    ensures refused { IfErr result (λ refusal. IsRefused disk (words_of request.now) refusal) }
{
    let Request {
        kind,
        offset,
        length,
        ..
    } = *request;
    let through = request.flags & FLAG_FUA != 0;
    match kind {
        0 => judge_read(disk, request),
        1 => {
            judge_change(disk, request, BUT_FUA)?;
            check_length(disk, request)?;
            Ok(Access::Write {
                offset,
                length,
                through,
            })
        }
        2 => Ok(Access::Leave),
        3 => judge_flush(disk, request),
        4 => {
            judge_change(disk, request, BUT_FUA)?;
            Ok(Access::Trim {
                offset,
                length,
                through,
            })
        }
        6 => {
            judge_change(disk, request, BUT_FUA_AND_NO_HOLE)?;
            Ok(Access::Zero {
                offset,
                length,
                through,
                keep: request.flags & FLAG_NO_HOLE != 0,
            })
        }
        _ => Err(Refusal::Unknown),
    }
}

fn judge_read(disk: Disk, request: &Request) -> Result<Access, Refusal>
    requires kind { request.now.kind ≡ 0 }
    ensures allowed { IfOk result (λ access. IsAllowed disk (words_of request.now) access) }
    ensures refused { IfErr result (λ refusal. IsRefused disk (words_of request.now) refusal) }
{
    check_flags(request, BUT_FUA)?;
    check_length(disk, request)?;
    if !fits(disk, request) {
        return Err(Refusal::ReadPastEnd);
    }
    Ok(Access::Read {
        offset: request.offset,
        length: request.length,
    })
}

fn judge_flush(disk: Disk, request: &Request) -> Result<Access, Refusal>
    requires kind { request.now.kind ≡ 3 }
    ensures allowed { IfOk result (λ access. IsAllowed disk (words_of request.now) access) }
    ensures refused { IfErr result (λ refusal. IsRefused disk (words_of request.now) refusal) }
{
    check_flags(request, BUT_FUA)?;
    if request.offset != 0 || request.length != 0 {
        return Err(Refusal::FlushOfAPart);
    }
    Ok(Access::Flush)
}

// What every request that changes the disk has to meet.
fn judge_change(disk: Disk, request: &Request, unknown: u16) -> Result<(), Refusal>
    requires kind { IsChange request.now.kind }
    requires unknown { unknown ≡ unknown_flags request.now.kind }
    ensures flags { OnOk result (bit_and request.now.flags unknown ≡ 0) }
    ensures writable { OnOk result (disk.read_only ≡ false) }
    ensures within { OnOk result (request.now.offset + request.now.length ≤ disk.bytes) }
    ensures refused { IfErr result (λ refusal. IsRefused disk (words_of request.now) refusal) }
{
    check_flags(request, unknown)?;
    if disk.read_only {
        return Err(Refusal::ReadOnly);
    }
    if !fits(disk, request) {
        return Err(Refusal::WritePastEnd);
    }
    Ok(())
}

fn check_flags(request: &Request, unknown: u16) -> Result<(), Refusal>
    ensures known { OnOk result (bit_and request.now.flags unknown ≡ 0) }
    ensures refused { IfErr result (λ refusal. (refusal ≡ BadFlags) × (bit_and request.now.flags unknown ≢ 0)) }
{
    if request.flags & unknown != 0 {
        return Err(Refusal::BadFlags);
    }
    Ok(())
}

fn check_length(disk: Disk, request: &Request) -> Result<(), Refusal>
    ensures short { OnOk result (request.now.length ≤ disk.most) }
    ensures refused { IfErr result (λ refusal. (refusal ≡ TooLong) × (disk.most < request.now.length)) }
{
    if request.length > disk.most {
        return Err(Refusal::TooLong);
    }
    Ok(())
}

// Whether all of a request lies on the disk.
fn fits(disk: Disk, request: &Request) -> bool
    ensures yes { result ≡ true → request.now.offset + request.now.length ≤ disk.bytes }
    ensures no { result ≡ false → disk.bytes < request.now.offset + request.now.length }
{
    request.offset <= disk.bytes && u64::from(request.length) <= disk.bytes - request.offset
}
