//! What who picks a volume's names asks of them, and says of them.
//!
//! A volume may go to other threads where each of its five names may: a function that starts threads asks for a `SharedName`. The
//! names that are picked last are those of the queues and the channel that were just made, which `HaveNames` says in one clause.
use rights_permits::VolumeName;
/// Names all tables of one volume, and is one that threads may tell each other.
pub trait SharedName: VolumeName<
    Books: Send + Sync,
    Words: Send + Sync,
    Pool: Send + Sync,
    Turns: Send + Sync,
    Numbers: Send + Sync,
>
    + Send
    + Sync {}

impl<V> SharedName for V
where
    V: VolumeName<
        Books: Send + Sync,
        Words: Send + Sync,
        Pool: Send + Sync,
        Turns: Send + Sync,
        Numbers: Send + Sync,
    >
        + Send
        + Sync,
{}
