//! Tickets, which carry their blocks, and the tokens of node numbers. Who has a ticket has the block, and the books say that
//! nobody else has.
#![tactic(auto)]

mod node;
mod ticket;

pub use node::{NidToken, give_block};
pub use ticket::Ticket;
