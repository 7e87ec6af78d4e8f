//! A worker: does requests, and answers them.
ghost use Rattle.std.specs.Prelude.{◌≡◌, ◌≤◌, ◌<◌, ◌+◌, ◌^◌, length, take, vec_len, IfOk};
ghost use Rattle.geometry.specs.Shape.{block_bytes};
ghost use Rattle.nbd_words.specs.Request.{reply_bytes};

use crate::answers::read_reply;
use crate::disk::DiskService;
use crate::erasing::{erase_blocks, zero_bytes};
use crate::jobs::{Job, ReceivedRequest};
use crate::reading::read_bytes;
use crate::writing::{Writing, write_bytes, write_zeros};
use flash_volume::{Block, Error, Meta, PassTable, Volume, VolumeName};
use nbd_words::{Access, ErrorNumber, REPLY_BYTES, judge};
use std::io::{Read, Write};
use std::sync::Wait;
use std::time::Clock;

impl<C: Clock + Drop, I: Read + Drop, O: Write + Drop> DiskService<C, I, O> {
    // Does requests and answers them, until no more come.
    pub(crate) fn work<V: VolumeName, M: Meta, B: Block + Drop, R: Wait>(
        &self,
        rt: &R,
        volume: &Volume<V, M, B>,
        pass_table: &PassTable<V>,
    )
        requires block { self.now.layout.block_bytes ≡ block_bytes V.Numbers.geometry.shape }
    {
        for _ in rt.forever() {
            match self.jobs.take(rt) {
                Job::Do(received) => self.obey(rt, volume, pass_table, &received),
                Job::Refuse { cookie } => self.refuse(rt, ErrorNumber::NoMemory, cookie),
                Job::Leave => return,
            }
            self.jobs.finish();
        }
    }

    // Does a request where the disk may, and answers it.
    fn obey<V: VolumeName, M: Meta, B: Block + Drop, R: Wait>(
        &self,
        rt: &R,
        volume: &Volume<V, M, B>,
        pass_table: &PassTable<V>,
        received: &ReceivedRequest,
    )
        requires block { self.now.layout.block_bytes ≡ block_bytes V.Numbers.geometry.shape }
    {
        let cookie = received.request.cookie;
        let done = match judge(self.disk(), &received.request) {
            Ok(Access::Read { offset, length }) => {
                return self.answer_read(rt, volume, pass_table, cookie, offset, length);
            }
            Ok(
                Access::Write {
                    offset,
                    through,
                    ..
                },
            ) => self.write(
                rt,
                volume,
                pass_table,
                offset,
                received.bytes.as_slice(),
                through,
            ),
            Ok(
                Access::Zero {
                    offset,
                    length,
                    through,
                    keep,
                },
            ) => self.write_zeros(rt, volume, pass_table, offset, length, through, keep),
            Ok(Access::Flush) => self.obey_flush(rt, volume, pass_table),
            Ok(
                Access::Trim {
                    offset,
                    length,
                    through,
                },
            ) => self.erase(rt, volume, pass_table, offset, length, through),
            Ok(Access::Leave) => Ok(()),
            Err(refusal) => return self.refuse(rt, refusal.error_number(), cookie),
        };
        match done {
            Ok(()) => self.answers.answer(rt, Ok(()), cookie),
            Err(error) => self.refuse(rt, error_number(error), cookie),
        }
    }

    // Answers a request with an error.
    fn refuse<R: Wait>(&self, rt: &R, error: ErrorNumber, cookie: u64) {
        self.counters.refused.add(1);
        self.answers.answer(rt, Err(error), cookie);
    }

    fn answer_read<V: VolumeName, M: Meta, B: Block + Drop, R: Wait>(
        &self,
        rt: &R,
        volume: &Volume<V, M, B>,
        pass_table: &PassTable<V>,
        cookie: u64,
        offset: u64,
        length: u32,
    )
        requires block { self.now.layout.block_bytes ≡ block_bytes V.Numbers.geometry.shape }
        requires fits { offset + length < 2 ^ 64 }
    {
        match self.read(rt, volume, pass_table, cookie, offset, length) {
            Ok(reply) => {
                self.counters.reads.add(1);
                self.counters.bytes_read.add(u64::from(length));
                self.answers.send(rt, reply.as_slice());
            }
            Err(error) => self.refuse(rt, error_number(error), cookie),
        }
    }

    // The whole answer to a read.
    fn read<V: VolumeName, M: Meta, B: Block + Drop, R: Wait>(
        &self,
        rt: &R,
        volume: &Volume<V, M, B>,
        pass_table: &PassTable<V>,
        cookie: u64,
        offset: u64,
        length: u32,
    ) -> Result<Vec<u8>, Error>
        requires block { self.now.layout.block_bytes ≡ block_bytes V.Numbers.geometry.shape }
        requires fits { offset + length < 2 ^ 64 }
        ensures head { IfOk result (λ reply. take 16 reply.items ≡ reply_bytes 0 cookie) }
        ensures whole { IfOk result (λ reply. vec_len reply ≡ 16 + length) }
    {
        let mut reply = read_reply(self.alloc, cookie, length)?;
        let out = &mut reply.as_mut_slice()[REPLY_BYTES..];
        read_bytes(
            rt,
            self.alloc,
            volume,
            pass_table,
            &self.layout,
            offset,
            out,
        )?;
        Ok(reply)
    }

    fn write<V: VolumeName, M: Meta, B: Block + Drop, R: Wait>(
        &self,
        rt: &R,
        volume: &Volume<V, M, B>,
        pass_table: &PassTable<V>,
        offset: u64,
        bytes: &[u8],
        through: bool,
    ) -> Result<(), Error>
        requires block { self.now.layout.block_bytes ≡ block_bytes V.Numbers.geometry.shape }
        requires fits { offset + length bytes.now < 2 ^ 64 }
    {
        let writing = self.writing();
        write_bytes(rt, self.alloc, volume, pass_table, writing, offset, bytes)?;
        self.finish_write(rt, volume, pass_table, bytes.len() as u64, through)
    }

    fn write_zeros<V: VolumeName, M: Meta, B: Block + Drop, R: Wait>(
        &self,
        rt: &R,
        volume: &Volume<V, M, B>,
        pass_table: &PassTable<V>,
        offset: u64,
        length: u32,
        through: bool,
        keep: bool,
    ) -> Result<(), Error>
        requires block { self.now.layout.block_bytes ≡ block_bytes V.Numbers.geometry.shape }
        requires fits { offset + length < 2 ^ 64 }
    {
        let writing = self.writing();
        if keep {
            let count = length as usize;
            write_zeros(rt, self.alloc, volume, pass_table, writing, offset, count)?;
        } else {
            zero_bytes(rt, self.alloc, volume, pass_table, writing, offset, length)?;
        }
        self.finish_write(rt, volume, pass_table, u64::from(length), through)
    }

    fn erase<V: VolumeName, M: Meta, B: Block + Drop, R: Wait>(
        &self,
        rt: &R,
        volume: &Volume<V, M, B>,
        pass_table: &PassTable<V>,
        offset: u64,
        length: u32,
        through: bool,
    ) -> Result<(), Error>
        requires fits { offset + length < 2 ^ 64 }
    {
        let writing = self.writing();
        erase_blocks(rt, volume, pass_table, writing, offset, length)?;
        if through {
            self.flush(rt, volume, pass_table)?;
            self.counters.asked.add(1);
        }
        self.counters.trims.add(1);
        Ok(())
    }

    fn writing(&self) -> Writing<'_>
        ensures layout { result.layout.now ≡ self.now.layout }
    {
        Writing {
            layout: &self.layout,
            cleaner: &self.cleaner,
            progress: &self.progress,
            now: self.now(),
        }
    }

    // So many bytes were written. Where they are to be safe before the answer, a checkpoint is written.
    fn finish_write<V: VolumeName, M: Meta, B: Block + Drop, R: Wait>(
        &self,
        rt: &R,
        volume: &Volume<V, M, B>,
        pass_table: &PassTable<V>,
        bytes: u64,
        through: bool,
    ) -> Result<(), Error> {
        if through {
            self.flush(rt, volume, pass_table)?;
            self.counters.asked.add(1);
        }
        self.counters.writes.add(1);
        self.counters.bytes_written.add(bytes);
        Ok(())
    }

    fn obey_flush<V: VolumeName, M: Meta, B: Block + Drop, R: Wait>(
        &self,
        rt: &R,
        volume: &Volume<V, M, B>,
        pass_table: &PassTable<V>,
    ) -> Result<(), Error> {
        if !self.settings.read_only {
            self.flush(rt, volume, pass_table)?;
            self.counters.asked.add(1);
        }
        self.counters.flushes.add(1);
        Ok(())
    }
}

// What the answer tells of a refusal of the volume.
fn error_number(error: Error) -> ErrorNumber {
    match error {
        Error::NoMemory => ErrorNumber::NoMemory,
        Error::NoSpace | Error::NoNode => ErrorNumber::NoSpace,
        _ => ErrorNumber::InputOutput,
    }
}
