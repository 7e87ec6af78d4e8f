//! What lies in a volume's locks at a sync, as the parts of an image: where a settled audit has learned all of it, the
//! parts keep the law from which a lawful image follows.
//! The image of a sync: what lies in a volume's locks, while all of them are held, is copied into an image.
//! An audit of the books over all that lies in a volume's locks: it learns each account in its place, in ascending order.
//! The image of a sync: with all locks and all permits in hand, an audit learns all accounts, and the image is taken.
#![tactic(auto)]

mod audit;
mod audited;
mod files;
mod free;
mod held;
mod kept_body;
pub mod law;
mod noting;
mod placing;
mod row_log;
mod segment;
mod segments;
mod shard;
mod shards;
mod shown;
mod tables;
mod take;
mod taken;
mod taken_image;
mod touched_body;

pub use audit::learn_all;
pub use audited::{AuditedFile, AuditedSegment, AuditedShard};
pub use held::{HoldsFile, HoldsLog, HoldsSegment, HoldsShard};
pub use kept_body::KeptBody;
pub use law::{audit_law, blocks_law, image_law, read_law, taken_law};
pub use row_log::{RowLog, ShowsRows};
pub use segments::learn_segments;
pub use shards::learn_shards;
pub use take::take_audited;
pub use taken::take_image;
pub use taken_image::TakenImage;
pub use touched_body::TouchedBody;
