//! What the words run on.
use std::fs::{File, Files};
use std::rt::Runtime;
use std::sync::Wait;
use std::thread::Threads;

/// The memory, clock, threads and files of a system.
pub trait Machine: Runtime + AllocGlobal + Wait + Threads + Sync + Files<File = File> {}

impl<R: Runtime + AllocGlobal + Wait + Threads + Sync + Files<File = File>> Machine for R {}
