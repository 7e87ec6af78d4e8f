//! The blocks of a device come into the segments of a volume that is mounted, as a lawful image shows them: those that it
//! marks leave home with a ticket, and each segment is free, open or sealed. The nodes come into the shards: each takes its
//! number, and its block, whose ticket is spent for a token that shows the node. Tickets and tokens stand in a stock, and go
//! out of it into the index trees of files, of any depth, as the image names them; and each is lodged in the account of the
//! file whose node its owner is.
//! All memory is made before the first of them moves, so nothing can be refused once they do.
#![tactic(auto)]

mod blocks;
mod entries;
mod file_room;
mod file_tree;
mod law;
mod lawful;
mod load;
mod numbers;
mod owners;
mod places;
mod room;
mod segment_rights;
mod segments;
mod settling;
mod stock;
mod table;
mod tickets_of;
mod tokens_of;

pub use entries::{free_node_room, load_entries, make_rooms};
pub use file_room::{DirectRoom, DoubleRoom, FileRoom, IndirectRoom, TicketRoom, make_file_room};
pub use file_tree::load_file;
pub use law::tell_loaded;
pub use lawful::{tell_lawful, tell_marks};
pub use load::Load;
pub use numbers::load_nodes;
pub use room::NodeRoom;
pub use segment_rights::SegmentRights;
pub use segments::{SegmentMemory, load_segments};
pub use settling::LoadedSegments;
pub use stock::{Stock, free_table};
pub use table::{new_table, put_at, take_at};
pub use tickets_of::lodge_tickets;
pub use tokens_of::lodge_tokens;
