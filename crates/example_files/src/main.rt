//! First programs over the library: three files written on one thread, then the same by two threads side by side.
#![tactic(auto)]

mod fill;
mod read_all;
mod three_files;
mod two_writers;

use flash_volume::Error;

fn main(rt: HostRuntime) -> Result<(), Error> {
    let alloc = rt.alloc();
    three_files::write_and_read(&rt, alloc)?;
    two_writers::write_and_read(&rt, alloc)
}
