//! What the streams are connected to.
use crate::shown::EscapedText;
use std::io::Write;

/// How the program writes.
#[derive(Clone, Copy)]
pub struct Screen {
    /// Whether the progress of long work is told: standard error is a terminal.
    pub progress: bool,
    /// Whether colours are used: standard output is a terminal, and nobody asked for none.
    pub colours: bool,
    /// Whether nothing is told of work that went well.
    pub quiet: bool,
}

impl Screen {
    /// The same, and quiet where this is asked for.
    pub fn quieted(self, quiet: bool) -> Screen {
        Screen {
            progress: self.progress && !quiet,
            colours: self.colours,
            quiet: self.quiet || quiet,
        }
    }

    /// Tells what is done now, over what was told before.
    pub fn tell<E: Write>(self, errors: &mut E, step: &str, of: &str) {
        if self.progress {
            let of = EscapedText(of);
            let _ = write!(errors, "\r\u{1b}[K{step} {of} ..");
            let _ = errors.flush();
        }
    }

    /// Takes away what was told.
    pub fn clear<E: Write>(self, errors: &mut E) {
        if self.progress {
            let _ = write!(errors, "\r\u{1b}[K");
            let _ = errors.flush();
        }
    }
}
