//! Pictures of a volume's segments, in text and as SVG: how full each is, which log appends to it, and when it was last written.
#![tactic(auto)]

mod moment;
mod svg;
mod svg_legend;
mod text;

pub use moment::{Moment, written_at};
pub use svg::draw_svg;
pub use text::{LOGS, Look, draw_text, look_of};
