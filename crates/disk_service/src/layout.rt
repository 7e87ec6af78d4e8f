//! Where the blocks of a disk lie.
ghost use Rattle.std.specs.Prelude.{◌≡◌, ◌≤◌, ◌<◌, ◌+◌, ◌*◌, ◌↔◌, true, false, ℕ, List, length, slice_index, SomeIndex, IfSome, IfNone};
ghost use Rattle.disk_service.specs.Layout.{AreDistinct, CanLie, IsPlaceOf, HasIndices};

// How many indices a file has.
const INDICES: u64 = 1 << 32;

/// A disk of equal blocks over files of a volume, in stripes: writes to one file take turns, and those to several files go side by side.
/// Where n files have the disk, block b lies in the file `numbers[b mod n]`, at the index `b / n`.
#[derive(Drop)]
pub struct DiskLayout {
    numbers: Vec<u32>,
    block_bytes: u32,
    blocks: u64,
    ghost lies: { CanLie numbers.items block_bytes blocks },
}

/// Where a block of a disk lies: in the file of a number, at an index.
#[derive(Clone, Copy, PartialEq, Eq)]
pub struct BlockPlace {
    pub number: u32,
    pub index: u32,
}

/// The blocks of a range that lie in one file: the number of the file, and the first of their indices and the end of them.
#[derive(Clone, Copy, PartialEq, Eq)]
pub struct Stripe {
    pub number: u32,
    pub from: u64,
    pub to: u64,
}

impl DiskLayout {
    /// The layout of a disk of so many blocks over the files of these numbers. None just where there can be none: no file, a number that
    /// stands twice, a block of no bytes, more blocks a file than indices (2^32), or more bytes than 2^64.
    pub fn new(numbers: Vec<u32>, block_bytes: u32, blocks: u64) -> Option<DiskLayout>
        ensures some { IfSome result (λ layout. (layout.numbers ≡ numbers) × (layout.block_bytes ≡ block_bytes) × (layout.blocks ≡ blocks)) }
        ensures none { IfNone result (CanLie numbers.items block_bytes blocks → ⊥) }
    {
        if numbers.is_empty() || block_bytes == 0 || !are_distinct(numbers.as_slice()) {
            return None;
        }
        if blocks > INDICES.saturating_mul(numbers.len() as u64) {
            return None;
        }
        if blocks.checked_mul(u64::from(block_bytes)).is_none() {
            return None;
        }
        Some(DiskLayout {
            numbers,
            block_bytes,
            blocks,
        })
    }

    /// The place of a block. None just where the disk has no such block.
    pub fn place(&self, block: u64) -> Option<BlockPlace>
        ensures some { IfSome result (λ place. (block < self.now.blocks) × IsPlaceOf self.now.numbers.items block place) }
        ensures none { IfNone result (self.now.blocks ≤ block) }
    {
        if block >= self.blocks {
            return None;
        }
        let stripes = self.numbers.len() as u64;
        Some(BlockPlace {
            number: self.numbers[(block % stripes) as usize],
            index: (block / stripes) as u32,
        })
    }

    /// The blocks from `first` up to `end`, which is not among them, that lie in the file of one stripe.
    pub fn stripe(&self, stripe: usize, first: u64, end: u64) -> Stripe
        requires stripe { stripe < length self.now.numbers.items }
        ensures file { slice_index self.now.numbers.items stripe ≡ result.number }
        ensures indices { HasIndices (length self.now.numbers.items) stripe first end result }
    {
        let stripes = self.numbers.len() as u64;
        Stripe {
            number: self.numbers[stripe],
            from: first_index(first, stripe as u64, stripes),
            to: first_index(end, stripe as u64, stripes),
        }
    }

    /// How many files have the disk.
    pub fn stripes(&self) -> usize
        ensures { result ≡ length self.now.numbers.items }
    {
        self.numbers.len()
    }

    /// The numbers of the files, in the order of the stripes.
    pub fn numbers(&self) -> &[u32] {
        self.numbers.as_slice()
    }

    /// The bytes of a block.
    pub fn block_bytes(&self) -> u32
        ensures { result ≡ self.now.block_bytes }
    {
        self.block_bytes
    }

    /// How many bytes the disk has.
    pub fn bytes(&self) -> u64
        ensures { result ≡ self.now.blocks * self.now.block_bytes }
    {
        self.blocks * u64::from(self.block_bytes)
    }
}

// The least index of a stripe whose block is at or past a block.
pub(crate) fn first_index(block: u64, stripe: u64, stripes: u64) -> u64
    requires stripe { stripe < stripes }
    ensures { (i : ℕ) → (result ≤ i) ↔ (block ≤ i * stripes + stripe) }
{
    let past = block.saturating_sub(stripe);
    let whole = past / stripes;
    if whole * stripes < past {
        whole + 1
    } else {
        whole
    }
}

// Whether no number stands twice.
fn are_distinct(numbers: &[u32]) -> bool
    ensures yes { result ≡ true → AreDistinct numbers.now }
    ensures no { result ≡ false → AreDistinct numbers.now → ⊥ }
{
    for (i, number) in numbers.iter().enumerate() {
        if stands_in(&numbers[..i], *number) {
            return false;
        }
    }
    true
}

fn stands_in(numbers: &[u32], wanted: u32) -> bool
    ensures yes { result ≡ true → SomeIndex numbers.now (λ k. slice_index numbers.now k ≡ wanted) }
    ensures no { result ≡ false → (k : ℕ) → k < length numbers.now → slice_index numbers.now k ≡ wanted → ⊥ }
{
    for number in numbers {
        if *number == wanted {
            return true;
        }
    }
    false
}

/// Two blocks of a disk never share a place.
///
/// It runs nothing: its contract is the law.
pub fn place_law()
    ensures apart { (numbers : List ℕ) (size blocks one other : ℕ) (place : BlockPlace) → CanLie numbers size blocks → IsPlaceOf numbers one place → IsPlaceOf numbers other place → one ≡ other }
{}
