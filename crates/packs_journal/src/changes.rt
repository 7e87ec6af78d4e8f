//! The words of a body that have changed since its pages were written.
ghost use Rattle.std.specs.Prelude.{◌≡◌, ◌≤◌, ◌<◌, ◌+◌, ◌*◌, true, false, length, take};
ghost use Rattle.packs_journal.specs.Places.{changes_bytes, most_changes};
ghost use Rattle.packs_journal.specs.Journal.{place_of as place_in, word_of, rises as rises_in, patched, with_word};

use crate::bytes::{put_bytes, put_number};
use crate::page_set::PageSet;
use byteorder::{ByteOrder, LittleEndian};

/// The most changes that a head has.
pub(crate) const MOST: u32 = 248;

/// The bytes of as many changes.
pub(crate) const CHANGES: usize = 2976;

/// The changes of a journal on their way into a head.
#[derive(Drop)]
pub(crate) struct Changes {
    pub bytes: [u8; CHANGES],
    pub count: u32,
    /// The pages of the words that have changed.
    pub pages: PageSet,
}

impl Changes {
    pub(crate) fn new() -> Changes
        ensures { result.count ≡ 0 }
    {
        Changes {
            bytes: [0; CHANGES],
            count: 0,
            pages: PageSet::new(),
        }
    }

    /// Forgets all changes.
    pub(crate) fn clear(&mut self)
        ensures { self.new.count ≡ 0 }
    {
        self.count = 0;
        self.pages = PageSet::new();
    }

    /// All bytes of the changes, and those that are not used.
    pub(crate) fn bytes(&self) -> &[u8]
        ensures bytes { result.now ≡ self.now.bytes }
        ensures long { length result.now ≡ changes_bytes }
    {
        &self.bytes
    }

    /// Notes a word, or its first bytes where the body ends in it. Answers false where there is no room.
    pub(crate) fn note(&mut self, place: u32, word: &[u8]) -> bool
        requires few { self.old.count ≤ most_changes }
        requires word { length word.now ≤ 8 }
        ensures full { result ≡ false → self.new ≡ self.old }
        ensures count { result ≡ true → self.new.count ≡ self.old.count + 1 }
        ensures few { self.new.count ≤ most_changes }
        ensures place { result ≡ true → place_in self.new.bytes self.old.count ≡ place }
        ensures word { result ≡ true → take (length word.now) (word_of self.new.bytes self.old.count) ≡ word.now }
        ensures long { length self.new.bytes ≡ changes_bytes }
        ensures pages { self.new.pages ≡ self.old.pages }
        ensures others { take (12 * self.old.count) self.new.bytes ≡ take (12 * self.old.count) self.old.bytes }
    {
        if self.count == MOST {
            return false;
        }
        let at = 12 * self.count as usize;
        put_number(&mut self.bytes, at, place);
        put_bytes(&mut self.bytes, at + 4, word);
        self.count += 1;
        true
    }
}

/// The number of the word that a change is of.
pub(crate) fn place_of(changes: &[u8], n: u32) -> u32
    requires { 12 * n + 12 ≤ length changes.now }
    ensures { result ≡ place_in changes.now n }
{
    LittleEndian::read_u32(&changes[12 * n as usize..])
}

/// Whether so many changes are of words that there are, each behind the one before.
pub(crate) fn rises(words: u32, changes: &[u8], count: u32) -> bool
    requires { 12 * count ≤ length changes.now }
    ensures { result ≡ rises_in words changes.now count }
{
    let mut next = 0u32;
    for n in 0..count {
        let place = place_of(changes, n);
        if place < next || place >= words {
            return false;
        }
        next = place + 1;
    }
    true
}

/// Makes so many changes.
pub(crate) fn patch(changes: &[u8], count: u32, bytes: &mut [u8])
    requires { 12 * count ≤ length changes.now }
    ensures { bytes.new ≡ patched changes.now count bytes.old }
{
    for n in 0..count {
        put_word(place_of(changes, n), word_at(changes, n), bytes);
    }
}

// The eight bytes of a change.
fn word_at(changes: &[u8], n: u32) -> &[u8]
    requires { 12 * n + 12 ≤ length changes.now }
    ensures word { result.now ≡ word_of changes.now n }
    ensures eight { length result.now ≡ 8 }
{
    let at = 12 * n as usize + 4;
    &changes[at..at + 8]
}

// Puts a word in its place, as far as the bytes go.
fn put_word(place: u32, word: &[u8], bytes: &mut [u8])
    requires { length word.now ≡ 8 }
    ensures { bytes.new ≡ with_word place word.now bytes.old }
{
    let from = (8 * place as usize).min(bytes.len());
    let end = (8 * place as usize + 8).min(bytes.len());
    bytes[from..end].copy_from_slice(&word[..end - from]);
}
