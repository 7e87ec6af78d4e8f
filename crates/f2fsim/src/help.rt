//! The help that words ask for.

/// All words, and what each does.
pub const HELP: &str = "Runs scripts on flash volumes in memory, and reads their image files.

  f2fsim run [--save PATH] [--threading RULE]  runs the script on standard input
  f2fsim check IMAGE                           reads an image file, and tells its numbers or its refusal
  f2fsim files IMAGE                           mounts the bytes of an image file in memory, and tells its files

PATH gets the image of the device. RULE says when writes may fill holes: whenever (that is the default) or
while-reserve-is-full.

Exit status: 0 done; 1 the volume or the image was refused; 2 the words were; 3 a line of the script is bad; 4 a file,
a stream or memory failed.";

/// Whether words, of which the first is the program's own name, ask for help: for that of the program, or of a command.
pub fn asks_for_help(words: &[String]) -> bool {
    match words {
        [_, word] => is_help(word.as_str()) || word.as_str() == "help",
        [_, _, word] => is_help(word.as_str()),
        _ => false,
    }
}

fn is_help(word: &str) -> bool {
    word == "--help" || word == "-h"
}
