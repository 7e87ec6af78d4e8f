//! The six logs.
ghost use Rattle.std.specs.Prelude.{◌≡◌, ◌<◌};
ghost use Rattle.area.specs.LogTable.{log_of, log_number, is_data_log, data_log_of};

use geometry::{Class, Kind};

/// A log of a volume (Lee and others, "F2FS: A New File System for Flash Storage", FAST 2015: multi-head logging).
#[derive(Clone, Copy, PartialEq, Eq)]
pub enum Log {
    /// Direct nodes of directories, and their inodes.
    HotNode,
    /// Other direct nodes, and other inodes.
    WarmNode,
    /// Indirect nodes.
    ColdNode,
    /// Data of directories.
    HotData,
    /// Data of ordinary files.
    WarmData,
    /// Media data, and all data that cleaning has moved.
    ColdData,
}

impl Log {
    /// Its number, from 0 to 5.
    pub fn number(self) -> u32
        ensures number { result ≡ log_number self }
        ensures within { result < 6 }
    {
        match self {
            Log::HotNode => 0,
            Log::WarmNode => 1,
            Log::ColdNode => 2,
            Log::HotData => 3,
            Log::WarmData => 4,
            Log::ColdData => 5,
        }
    }

    /// Whether it is a log of data.
    pub fn is_data(self) -> bool
        ensures { result ≡ is_data_log self }
    {
        match self {
            Log::HotNode | Log::WarmNode | Log::ColdNode => false,
            Log::HotData | Log::WarmData | Log::ColdData => true,
        }
    }
}

/// The log for a block of this class in a file of this kind, which cleaning has moved or not. A node that was moved stays in
/// the log of its class. The table is this project's own profile of the logs of f2fs.
pub fn log_for(kind: Kind, class: Class, migrated: bool) -> Log
    ensures { result ≡ log_of kind class migrated }
{
    match class {
        Class::Data => data_log(kind, migrated),
        Class::Inode | Class::Direct => match kind {
            Kind::Dir => Log::HotNode,
            Kind::File | Kind::Media => Log::WarmNode,
        },
        Class::Indirect => Log::ColdNode,
    }
}

// The log for data.
fn data_log(kind: Kind, migrated: bool) -> Log
    ensures { result ≡ data_log_of kind migrated }
{
    if migrated {
        return Log::ColdData;
    }
    match kind {
        Kind::Dir => Log::HotData,
        Kind::File => Log::WarmData,
        Kind::Media => Log::ColdData,
    }
}
