//! Texts that are made from the program's help, and are written as they stand: completions for shells, and the manual page.
mod bash;
mod fish;
mod manual;
mod zsh;

use std::io;
use std::io::Write;

/// Writes what a shell reads to complete the program's words: for `bash`, `zsh` or `fish`.
pub fn write_completions<O: Write>(shell: &str, out: &mut O) -> io::Result<()> {
    let text = match shell {
        "bash" => bash::TEXT,
        "zsh" => zsh::TEXT,
        _ => fish::TEXT,
    };
    out.write_all(text.as_bytes())
}

/// Writes the manual page: the help of the program and of each of its commands, as `man` reads it.
pub fn write_manual<O: Write>(out: &mut O) -> io::Result<()> {
    out.write_all(manual::TEXT.as_bytes())
}
