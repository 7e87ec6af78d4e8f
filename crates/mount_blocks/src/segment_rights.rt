//! What the segments of a volume are put together from.
ghost use Rattle.std.specs.Prelude.{◌≡◌, ◌+◌, ◌<◌, ◌++◌, ◌∷◌, [], length, IfSome, MatchOption};
ghost use Rattle.mount_blocks.specs.Rights.{AreRights, IsRightOf};

use device::Block;
use geometry::Geometry;
use rights_books::{Books, SegmentAccount};
use sit::EmptySegment;
use words::{Standing, StoredSlip, Words};

/// The memory of each segment, its account of the books, its standing of the words and the slip with which it is opened, for
/// the segments from 0 on.
#[derive(Drop)]
pub struct SegmentRights<B: Block + Drop> {
    pub rooms: Vec<EmptySegment<B>>,
    pub accounts: Vec<SegmentAccount>,
    pub standings: Vec<Standing>,
    pub slips: Vec<StoredSlip>,
}

// The same of one segment.
pub(crate) struct SegmentRight<B: Block + Drop> {
    pub(crate) room: EmptySegment<B>,
    pub(crate) account: SegmentAccount,
    pub(crate) state: StateRight,
}

// The right to a segment's state: its standing, and the slip with which it is opened.
pub(crate) struct StateRight {
    pub(crate) standing: Standing,
    pub(crate) slip: StoredSlip,
}

impl<B: Block + Drop> SegmentRights<B> {
    // What the last segment is put together from, which is there no more. None where no segment is left.
    pub(crate) fn take_last(
        &mut self,
        geometry: &Geometry,
        books: &Books,
        words: &Words,
    ) -> Option<SegmentRight<B>>
        requires { AreRights geometry.now.shape books.now.book words.now.table self.old.rooms.items self.old.accounts.items self.old.standings.items self.old.slips.items }
        ensures count { MatchOption result (length self.old.rooms.items ≡ 0) (λ _. length self.old.rooms.items ≡ length self.new.rooms.items + 1) }
        ensures right { IfSome result (λ right. IsRightOf geometry.now.shape books.now.book words.now.table (length self.new.rooms.items) right.room right.account right.state.standing right.state.slip) }
        ensures others { IfSome result (λ _. AreRights geometry.now.shape books.now.book words.now.table self.new.rooms.items self.new.accounts.items self.new.standings.items self.new.slips.items) }
    {
        let _geometry = geometry;
        let _books = books;
        let _words = words;
        let room = self.rooms.pop()?;
        let account = last_of(&mut self.accounts);
        let standing = last_of(&mut self.standings);
        let slip = last_of(&mut self.slips);
        Some(SegmentRight {
            room,
            account,
            state: StateRight { standing, slip },
        })
    }
}

// The last of some values, which is there no more.
fn last_of<T>(values: &mut Vec<T>) -> T
    requires { 0 < length values.old.items }
    ensures { values.old.items ≡ values.new.items ++ result ∷ [] }
{
    match values.pop() {
        Some(value) => value,
        None => unreachable!(),
    }
}
