//! A list of bits in words.
ghost use Rattle.std.specs.Prelude.{◌≡◌, ◌+◌, ◌<◌, ◌≤◌, ◌^◌, ℕ, IsTrue, ◌↔◌, true, false, length, replicate, slice_index_or, slice_set, IfOk, IfErr};
ghost use Rattle.geometry.specs.declared.error.Error.TheVariants.{NoMemory};
ghost use Rattle.std.specs.Int.{bit_at};
ghost use Rattle.geometry.specs.Bits.{is_bit, bits_of};
ghost use Rattle.sit.specs.Bits.{IsFirstBit, IsFirstTrue, AreFirstBits, AreClearBits, has_true, neither_of};

use geometry::Error;
use std::alloc::Global;
use std::marker::Model;

/// A list of bits, 64 a word, the lowest first. The bits of the last word that are past the list are 0.
#[derive(Drop)]
pub(crate) struct Bits {
    words: Vec<u64>,
    len: u32,
}

impl Model for Bits {
    ghost use Rattle.std.specs.Prelude.{List, Bool};
    ghost use Rattle.geometry.specs.Bits.{bits_of};
    ghost use Rattle.sit.specs.Bits.{IsBits};

    ghost Value = { List Bool };

    ghost view = { λ b. bits_of b.words.items b.len };

    ghost invariant = { λ b. IsBits b.words.items b.len };
}

impl Bits {
    /// So many bits, all clear. The only error is NoMemory.
    pub(crate) fn new(alloc: Global, len: u32) -> Result<Bits, Error>
        ensures ok { IfOk result (λ bits. bits ≡ replicate len false) }
        ensures err { IfErr result (λ error. error ≡ NoMemory) }
    {
        let words = vec![in alloc; 0; len.div_ceil(64) as usize]?;
        Ok(Bits { words, len })
    }

    pub(crate) fn set(&mut self, offset: u32)
        requires { offset < length self.old }
        ensures { self.new ≡ slice_set self.old offset true }
    {
        let index = offset as usize / 64;
        self.words[index] |= 1 << (offset % 64);
    }

    pub(crate) fn clear(&mut self, offset: u32)
        requires { offset < length self.old }
        ensures { self.new ≡ slice_set self.old offset false }
    {
        let index = offset as usize / 64;
        self.words[index] &= !(1 << (offset % 64));
    }

    /// The words that have them.
    pub(crate) fn words(&self) -> &[u64]
        ensures { bits_of result.now (length self.now) ≡ self.now }
    {
        self.words.as_slice()
    }

    /// The least place at or past `from` whose bit is set.
    pub(crate) fn next_set(&self, from: u32) -> Option<u32>
        ensures { IsFirstTrue self.now from result }
    {
        let start = from as usize / 64;
        for index in start..self.words.len() {
            let base = 64 * index as u32;
            let first = from.saturating_sub(base);
            if let Some(place) = first_bit(self.words[index], first) {
                return Some(base + place);
            }
        }
        None
    }

    /// Whether one is set.
    pub(crate) fn any(&self) -> bool
        ensures { result ≡ has_true self.now }
    {
        self.next_set(0).is_some()
    }

    /// All are clear from then on.
    pub(crate) fn clear_all(&mut self)
        ensures { self.new ≡ replicate (length self.old) false }
    {
        for index in 0..self.words.len() {
            self.words[index] = 0;
        }
    }

    /// They are those of another list, which has as many.
    pub(crate) fn copy_from(&mut self, other: &Bits)
        requires { length other.now ≡ length self.old }
        ensures { self.new ≡ other.now }
    {
        for index in 0..self.words.len() {
            self.words[index] = other.words[index];
        }
    }

    /// Whether they are those of another list.
    pub(crate) fn is_same(&self, other: &Bits) -> bool
        ensures { IsTrue result ↔ (self.now ≡ other.now) }
    {
        self.len == other.len && are_same(self.words.as_slice(), other.words.as_slice())
    }

    /// They are set where those of two other lists, which have as many, are clear.
    pub(crate) fn set_neither(&mut self, one: &Bits, other: &Bits)
        requires one { length one.now ≡ length self.old }
        requires other { length other.now ≡ length self.old }
        ensures { self.new ≡ neither_of one.now other.now }
    {
        for index in 0..self.words.len() {
            let rest = self.len - 64 * index as u32;
            self.words[index] = clear_bits(one.words[index], other.words[index], rest);
        }
    }
}

// Whether as many words have the same bits.
fn are_same(one: &[u64], other: &[u64]) -> bool
    requires { length one.now ≡ length other.now }
    ensures { IsTrue result ↔ ((o : ℕ) → is_bit one.now o ≡ is_bit other.now o) }
{
    *one == *other
}

// The bits that are clear in both words, of so many, the lowest ones, or of all.
fn clear_bits(one: u64, other: u64, count: u32) -> u64
    ensures { AreClearBits one other count result }
{
    !(one | other) & first_bits(count)
}

// A word of which so many bits are set, the lowest ones, or all.
fn first_bits(count: u32) -> u64
    ensures { AreFirstBits count result }
{
    if count < 64 {
        (1 << count) - 1
    } else {
        u64::MAX
    }
}

// The least bit at or past `from` that is set in the word.
fn first_bit(word: u64, from: u32) -> Option<u32>
    requires { from < 64 }
    ensures { IsFirstBit word from result }
{
    let rest = word >> from;
    if rest == 0 {
        return None;
    }
    Some(from + rest.trailing_zeros())
}
