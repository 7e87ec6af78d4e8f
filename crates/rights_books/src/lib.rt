//! The books of a volume: which blocks' tickets and which node numbers are out, who has each, and what each file's pass
//! shows. Beside them the rows of its parts, as a checkpoint pack spells them. Both are laws over claims that many holders
//! have.
//!
//! A holder has a list of claims, a zero-sized token that a thread steps with. The law of a book is a fact about what all
//! claims weigh together, for every way to weigh a claim. So it can see neither which holder has a claim nor in which
//! order, and a holder may hand claims to another at any time. A step changes one holder's claims, in one atomic step,
//! and owes only that the law goes on to hold, whatever the others have. Nothing here waits, and the claims of a holder
//! that is dropped stay in the book.
//!
//! Each lock of a volume has an account of the books, and each call has a permit, with what it has in hand. Accounts and
//! permits take eight bytes each. A step changes two of them in one atomic step, under a law over all of them together:
//!
//! - each marked block has one ticket, which is in one hand, in one file, or in a shard beside its node's number;
//! - each taken node number has one token, which is in one hand or in one file, and token and shard agree on the address
//!   and the bytes of the node's block;
//! - a file whose pass is out has what its pass shows;
//! - each segment, file and shard has one account, and there are 64 hands.
//!
//! So who has a ticket of a block of a segment knows that the block is marked there, and who has all 64 permits, with
//! nothing in hand, knows that nothing is in flight: what is marked is what is named, each once.
//!
//! Each part of a volume, a segment or a shard of the node numbers, has two accounts of the rows: one lies in the part's
//! lock, its twin in the packs' lock, beside the bytes that were spelled last. Both have the part's row as it was then. They
//! change only together, in one atomic step, under a law over all accounts:
//!
//! - of each part there is one account in its lock;
//! - the twin has the row that this account has.
//!
//! So who holds both locks knows, without a step, that the bytes are those of the row that the part was last seen to have.
#![tactic(auto)]

pub mod account;
pub mod audit;
mod book;
pub mod books;
pub mod claim;
mod compare;
pub mod deal;
pub mod enough;
mod holder;
mod law;
pub mod lodging;
pub mod looks;
pub mod marks;
pub mod numbers;
pub mod part_row;
pub mod passes;
mod plays;
pub mod row_account;
pub mod row_claim;
pub mod row_deal;
pub mod rows;
mod shown;
mod value;

pub use account::{
    Audit, CallAccount, Dealer, FileAccount, MarkClaim, NumberClaim, PassAccount, Permits,
    SegmentAccount, ShardAccount,
};
pub use book::Book;
pub use books::Books;
pub use claim::{Claim, Copied, FileContent, Layout, TakenNumber};
pub use compare::{Fact, agree, agree_apart};
pub use deal::DealtBooks;
pub use holder::Holder;
pub use law::{Change, Law, Lesson};
pub use numbers::NewBytes;
pub use part_row::PartRow;
pub use passes::Noted;
pub use row_account::{KeptAccount, PartAccount};
pub use row_claim::{NodeRow, Row, RowClaim};
pub use row_deal::OpenedRows;
pub use rows::{Rows, Spelled};
pub use shown::RestingSeat;
pub use value::Remembered;
