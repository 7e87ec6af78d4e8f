//! The turnstile: the 64 permits of a volume's books, in a channel that threads share. And the names of a volume's tables, in
//! types that have no values: for the proofs alone.
//!
//! Each call that changes the volume holds a permit for its whole length, with what it has in hand: tickets of marked
//! blocks, and tokens of node numbers. A permit that lies in the channel has nothing in hand. So who has gathered all 64
//! knows that nothing is in flight, and may begin an audit of the books.
//!
//! A permit may also rest between two calls on one file: 48 numbers have a rest, each under a lock of its own, so that calls on
//! different files share no word of the channel. Who gathers closes the rests and takes what lies there. Sixteen permits never
//! rest, so there is always one that is in the channel or comes back to it, and nobody waits for one that only rests.
//!
//! The turnstile owns the books. A permit must be given back, and so must all of them.
#![tactic(auto)]

mod all;
mod law;
mod names;
mod opened;
mod permit;
mod rest;
mod rests;
mod table_names;
mod token;
mod turnstile;

pub use all::{AllPermits, Auditing};
pub use law::PermitsOut;
pub use names::{BooksName, GeometryName, PickedNames, PoolName, TurnName, VolumeName, WordsName};
pub use opened::OpenedTurnstile;
pub use permit::Permit;
pub use table_names::{BooksOf, NumbersOf, TablesName, WordsOf};
pub use turnstile::Turnstile;
