//! The commands of a script. Files are named by their inode numbers, and readers by the order in which they were taken.
use geometry::Kind;

/// How a cleaner chooses its section (Rosenblum and Ousterhout 1991; Linux `filesystems/f2fs`, cleaning).
#[derive(Clone, Copy)]
pub enum Cleaning {
    /// The section with the fewest valid blocks.
    Foreground,
    /// The section of the best cost and benefit.
    Background,
}

/// A call of the device that is to fail once, counted from 1 at the line.
#[derive(Clone, Copy)]
pub enum Failure {
    /// A write or a sync of the meta area; a late one fails when it has been done.
    Meta { call: u32, late: bool },
    /// A write of a main block.
    Block { call: u32 },
}

/// What a worker of a parallel part may do, and a script outside of one.
#[derive(Clone, Copy)]
pub enum WorkerDeed {
    /// Writes a block of equal bytes at an index.
    Write {
        file: u32,
        index: u32,
        byte: u8,
    },
    /// Writes such a block at each index from the first to the one before the last.
    Fill {
        file: u32,
        first: u32,
        last: u32,
        byte: u8,
    },
    /// Reads the block at an index.
    Read {
        file: u32,
        index: u32,
    },
    /// Shortens a file to a length in blocks.
    Cut {
        file: u32,
        length: u32,
    },
    /// Cleans a section.
    Clean(Cleaning),
    /// Writes a checkpoint.
    Sync,
    /// Prints what a reader sees.
    Look {
        reader: u32,
    },
}

/// What a script does in a line.
#[derive(Clone, Copy)]
pub enum Command {
    /// What a worker may do too.
    Work(WorkerDeed),
    /// Sets the time.
    Now(u64),
    /// Makes a file.
    Create(Kind),
    /// Deletes a file.
    Delete { file: u32 },
    /// Prints how many segments are in each state.
    Status,
    /// Takes a snapshot of a file, with the next reader.
    Snap { file: u32 },
    /// Closes a reader.
    Done { reader: u32 },
    /// Lets a call of the device fail.
    Fail(Failure),
    /// Abandons the volume and mounts its device.
    Remount,
}
