//! A section is cleaned.
ghost use Rattle.std.specs.Prelude.{◌≡◌, ◌+◌, ◌*◌, ◌<◌, ◌≤◌, length, vec_len, MatchOption, IfOk, IfErr};
ghost use Rattle.geometry.specs.Refusals.{IsOfAppend, IsOfMove, IsOfRead};
ghost use Rattle.geometry.specs.declared.error.Error.TheVariants.{NoMemory, NoSpace, Device};
ghost use Rattle.area.specs.declared.hole_reuse.HoleReuse.TheVariants.{WhileReserveIsFull};
ghost use Rattle.geometry.specs.Shape.{block_bytes, segment_blocks};
ghost use Rattle.rights_permits.specs.Turns.{at_home};
ghost use Rattle.cleaning.specs.Cleaning.{IsCleaned, section_count, section_blocks};

use crate::fate::{Fate, MovedBlocks};
use crate::keeper::Files;
use crate::policy::{Policy, choose};
use crate::survey::Survey;
use area::{HoleReuse, MainArea};
use device::Block;
use geometry::{Error, Mark, Owner};
use rights_books::CallAccount;
use rights_permits::VolumeName;
use std::alloc::Global;
use std::sync::Wait;
use victim::Candidate;

/// What a clean did: the section that it chose, the rows of which it chose, and how many blocks of the section it moved and
/// how many were gone.
#[derive(Drop)]
pub struct Cleaned {
    pub section: Option<u32>,
    pub rows: Vec<Candidate>,
    pub moved: u32,
    pub gone: u32,
}

/// Chooses a section by the policy, and moves its valid blocks: those of the segments that were sealed when the section was
/// chosen, in ascending order. A block that was moved or given back meanwhile counts as gone.
///
/// Answers NoMemory where a growth was refused, before any block is moved, NoSpace where no segment is free for the blocks,
/// and Device where the device failed. What was moved before a refusal stays moved. Where threads begin only while the reserve is full,
/// it ends with what it has moved in place of NoSpace, and before the next checkpoint could lack places for its nodes.
pub fn clean<V: VolumeName, B: Block + Drop, F: Files<V>, R: Wait>(
    rt: &R,
    alloc: Global,
    area: &MainArea<V, B>,
    files: &F,
    hand: &mut CallAccount,
    policy: Policy,
    now: u64,
) -> Result<Cleaned, Error>
    requires home { hand.old ≡ at_home V.Books.books.book }
    ensures cleaned { IfOk result (λ c. IsCleaned V.Numbers.geometry policy now c.rows.items c.section c.moved c.gone) }
    ensures hand { hand.new ≡ hand.old }
    // By the careful rule it ends early where the next checkpoint could lack places, and is not refused for want of them.
    ensures goes_on { area.now.hole_reuse ≡ WhileReserveIsFull → IfErr result IsOfRead }
    ensures error { IfErr result IsOfMove }
{
    let survey = Survey::take(rt, alloc, area)?;
    let mut bytes = new_buffer(alloc, area.geometry().shape.block_bytes() as usize)?;
    let section = choose(policy, &survey.rows, now);
    let counts = match section {
        Some(number) => {
            let sealed = &survey.sealed;
            clean_section(rt, area, files, hand, number, sealed, now, &mut bytes)?
        }
        None => MovedBlocks::NONE,
    };
    Ok(Cleaned {
        section,
        rows: survey.rows,
        moved: counts.moved,
        gone: counts.gone,
    })
}

// Room for the bytes of one block.
fn new_buffer(alloc: Global, count: usize) -> Result<Vec<u8>, Error>
    ensures bytes { IfOk result (λ bytes. vec_len bytes ≡ count) }
    ensures error { IfErr result (λ error. error ≡ NoMemory) }
{
    let mut bytes = Vec::with_capacity(alloc, count)?;
    for _i in 0..count {
        bytes.push_reserved(0);
    }
    Ok(bytes)
}

// Moves the blocks of a section, of the segments that were sealed.
fn clean_section<V: VolumeName, B: Block + Drop, F: Files<V>, R: Wait>(
    rt: &R,
    area: &MainArea<V, B>,
    files: &F,
    hand: &mut CallAccount,
    section: u32,
    sealed: &[bool],
    now: u64,
    bytes: &mut [u8],
) -> Result<MovedBlocks, Error>
    requires home { hand.old ≡ at_home V.Books.books.book }
    requires section { section < section_count V.Numbers.geometry }
    requires flags { length sealed.now ≡ V.Numbers.geometry.segments }
    requires bytes { length bytes.old ≡ block_bytes V.Numbers.geometry.shape }
    ensures within { IfOk result (λ counts. counts.moved + counts.gone ≤ section_blocks V.Numbers.geometry) }
    ensures hand { hand.new ≡ hand.old }
    ensures goes_on { area.now.hole_reuse ≡ WhileReserveIsFull → IfErr result (λ error. error ≡ Device) }
    ensures error { IfErr result IsOfAppend }
{
    let geometry = area.geometry();
    let first = section * geometry.per_section;
    let mut counts = MovedBlocks::NONE;
    for place in 0..geometry.per_section {
        let number = first + place;
        if sealed[number as usize] {
            let more = clean_segment(rt, area, files, hand, number, now, bytes)?;
            counts = counts.plus(more);
        }
    }
    Ok(counts)
}

// Moves the blocks of a segment, which may lose and get blocks meanwhile.
fn clean_segment<V: VolumeName, B: Block + Drop, F: Files<V>, R: Wait>(
    rt: &R,
    area: &MainArea<V, B>,
    files: &F,
    hand: &mut CallAccount,
    number: u32,
    now: u64,
    bytes: &mut [u8],
) -> Result<MovedBlocks, Error>
    requires home { hand.old ≡ at_home V.Books.books.book }
    requires segment { number < V.Numbers.geometry.segments }
    requires bytes { length bytes.old ≡ block_bytes V.Numbers.geometry.shape }
    ensures within { IfOk result (λ counts. counts.moved + counts.gone ≤ segment_blocks V.Numbers.geometry.shape) }
    ensures hand { hand.new ≡ hand.old }
    ensures goes_on { area.now.hole_reuse ≡ WhileReserveIsFull → IfErr result (λ error. error ≡ Device) }
    ensures error { IfErr result IsOfAppend }
{
    let geometry = area.geometry();
    let mut counts = MovedBlocks::NONE;
    let mut from = 0;
    'offsets: while let Some((offset, owner)) = next_block(rt, area, number, from) {
        let mark = Mark {
            address: geometry.address_of(number, offset),
            owner,
        };
        match move_named(rt, area, files, hand, mark, now, bytes) {
            Ok(fate) => counts = counts.with(fate),
            Err(Error::NoSpace) if area.hole_reuse() == HoleReuse::WhileReserveIsFull => break,
            Err(error) => return Err(error),
        }
        from = offset + 1;
    }
    Ok(counts)
}

// The next valid block of a segment, and who names it. The segment's lock is let go.
fn next_block<V: VolumeName, B: Block + Drop, R: Wait>(
    rt: &R,
    area: &MainArea<V, B>,
    number: u32,
    from: u32,
) -> Option<(u32, Owner)>
    requires segment { number < V.Numbers.geometry.segments }
    ensures { MatchOption result (Unit {0}) (λ block. (from ≤ block.0) × (block.0 < segment_blocks V.Numbers.geometry.shape)) }
{
    let cell = area.lock_segment(rt, number);
    let offset = cell.state.next_set(from)?;
    let owner = cell.state.summary(offset)?;
    Some((offset, owner))
}

// Moves the block of this mark, of the file that its owner is of, if there is one.
fn move_named<V: VolumeName, B: Block + Drop, F: Files<V>, R: Wait>(
    rt: &R,
    area: &MainArea<V, B>,
    files: &F,
    hand: &mut CallAccount,
    mark: Mark,
    now: u64,
    bytes: &mut [u8],
) -> Result<Fate, Error>
    requires home { hand.old ≡ at_home V.Books.books.book }
    requires address { 0 < mark.address }
    requires bytes { length bytes.old ≡ block_bytes V.Numbers.geometry.shape }
    ensures hand { hand.new ≡ hand.old }
    ensures error { IfErr result IsOfAppend }
{
    let nid = match mark.owner {
        Owner::Node(nid) => nid,
        Owner::Data(nid, _) => nid,
    };
    match area.locate(rt, nid) {
        Some((inode, _)) => files.migrate(rt, hand, inode, mark.address, mark.owner, now, bytes),
        None => Ok(Fate::Gone),
    }
}
