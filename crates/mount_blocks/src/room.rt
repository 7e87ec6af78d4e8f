//! The memory of nodes, before their tokens and tickets are there.

use nodes::Slots;

/// The memory of the entries of a node: a place for each, and the room of what it names.
pub struct NodeRoom<C, R> {
    pub slots: Slots<C>,
    pub below: Vec<R>,
}
