//! The exit statuses of the program.

/// All was done.
pub const DONE: u8 = 0;

/// A volume or an image was refused.
pub const REFUSED: u8 = 1;

/// The words that the program was called with were refused.
pub const MISUSED: u8 = 2;

/// A line of a script is not of the grammar.
pub const BAD_LINE: u8 = 3;

/// A file or a stream could not be read or written, or the program found no memory.
pub const FAILED: u8 = 4;
