//! Names and paths as a terminal may show them.
use std::fmt;
use ucd_category::GeneralCategory;

/// A name or a path as it stands; in quotes, with escapes, where it is empty or has a character that a terminal would obey, or not show:
/// of Unicode's categories control, format, and separators of lines and paragraphs.
#[derive(Clone, Copy)]
pub struct EscapedText<'a>(pub &'a str);

impl<'a> fmt::Display for EscapedText<'a> {
    fn fmt<W: fmt::Write>(&self, f: &mut fmt::Formatter<W>) -> fmt::Result {
        let name = self.0;
        if !name.is_empty() && name.chars().all(is_seen) {
            write!(f, "{name}")
        } else {
            write!(f, "{name:?}")
        }
    }
}

// Whether a terminal shows the character, and does nothing else.
fn is_seen(sign: char) -> bool {
    !matches!(
        GeneralCategory::for_char(sign),
        GeneralCategory::Control
            | GeneralCategory::Format
            | GeneralCategory::LineSeparator
            | GeneralCategory::ParagraphSeparator
    )
}
