//! What a cut hands out.
use tickets::NidToken;

/// What a cut hands out: the ticket of a block, or the token of a node that names nothing.
pub enum Spare<L> {
    Ticket(L),
    Token(NidToken),
}
