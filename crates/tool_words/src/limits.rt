//! The limits of a volume's numbers.
use crate::fault::Fault;
use std::fmt;
use tool_syntax::VolumeSizes;

/// A number of a volume that is beyond its limits.
#[derive(Clone, Copy)]
pub enum Beyond {
    /// The option's number is not among those from the least to the most.
    Range {
        option: &'static str,
        number: u32,
        least: u32,
        most: u32,
    },
    /// The segments are not so many whole sections.
    Sections {
        segments: u32,
        per_section: u32,
    },
}

impl fmt::Display for Beyond {
    fn fmt<W: fmt::Write>(&self, f: &mut fmt::Formatter<W>) -> fmt::Result {
        match *self {
            Beyond::Range {
                option,
                number,
                least,
                most,
            } => write!(
                f,
                "{option} {number} is out of range; give {least} to {most}"
            ),
            Beyond::Sections {
                segments,
                per_section,
            } => write!(
                f,
                "--segments {segments} is not a multiple of --per-section {per_section}"
            ),
        }
    }
}

/// Refuses numbers of which one is beyond its limits, and tells the first. `Geometry::new` refuses the same, and decides.
pub fn ask_numbers(numbers: &VolumeSizes) -> Result<(), Fault> {
    within("--segments", numbers.segments, 16, 4096)?;
    within("--per-section", numbers.per_section, 1, 16)?;
    if numbers.segments.checked_rem(numbers.per_section) != Some(0) {
        return Err(Fault::Beyond(Beyond::Sections {
            segments: numbers.segments,
            per_section: numbers.per_section,
        }));
    }
    within("--files", numbers.files, 1, 1024)?;
    // Each file has a node.
    within("--nodes", numbers.nodes, numbers.files, 65536)
}

fn within(option: &'static str, number: u32, least: u32, most: u32) -> Result<(), Fault> {
    if least <= number && number <= most {
        return Ok(());
    }
    Err(Fault::Beyond(Beyond::Range {
        option,
        number,
        least,
        most,
    }))
}
