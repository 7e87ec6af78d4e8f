//! Which of two packs counts, by their headers and footers.
ghost use Rattle.std.specs.Prelude.{◌≡◌, ◌≢◌, Some, None, MatchOption};
ghost use Rattle.image.specs.Slots.{is_sound as sound, pick as choice};

// A pack is sound where header and footer hold one version of its slot. Version 0 is none: a slot of zeros is not sound.
fn is_sound(slot: u32, header: u32, footer: u32) -> bool
    ensures { result ≡ sound slot header footer }
{
    header == footer && header > 0 && header % 2 == slot
}

/// The versions that a slot's header and footer hold.
#[derive(Clone, Copy, PartialEq, Eq)]
pub struct Ends {
    pub header: u32,
    pub footer: u32,
}

/// The slot, 0 or 1, of the sound pack of the higher version. None where neither pack is sound.
pub fn pick(first: Ends, second: Ends) -> Option<u32>
    ensures { result ≡ choice first.header first.footer second.header second.footer }
{
    let second_is_sound = is_sound(1, second.header, second.footer);
    if is_sound(0, first.header, first.footer) {
        if second_is_sound && first.header < second.header {
            Some(1)
        } else {
            Some(0)
        }
    } else if second_is_sound {
        Some(1)
    } else {
        None
    }
}

// The pack that counts: its slot and version, and the number in the other slot's footer.
#[derive(Clone, Copy, PartialEq, Eq)]
pub struct Found {
    pub slot: u32,
    pub version: u32,
    pub other: u32,
}

pub fn find(first: Ends, second: Ends) -> Option<Found>
    ensures { MatchOption result (choice first.header first.footer second.header second.footer ≡ None)
        (λ found. (choice first.header first.footer second.header second.footer ≡ Some found.slot)
        × (found.slot ≡ 0 → (found.version ≡ first.header) × (found.other ≡ second.footer))
        × (found.slot ≢ 0 → (found.version ≡ second.header) × (found.other ≡ first.footer))) }
{
    let slot = pick(first, second)?;
    if slot == 0 {
        return Some(Found {
            slot,
            version: first.header,
            other: second.footer,
        });
    }
    Some(Found {
        slot,
        version: second.header,
        other: first.footer,
    })
}
