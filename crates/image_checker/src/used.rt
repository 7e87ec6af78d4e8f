//! Numbers of which the last ones are 0, as the entries of a node mostly are.
ghost use Rattle.std.specs.Prelude.{◌≡◌, ◌≢◌, ◌<◌, ◌≤◌, ◌-◌, ℕ, IsTrue, ◌↔◌, length, slice_index};

// So many numbers are looked at at once.
const ROW: usize = 16;

// Whether all of these numbers are 0.
fn are_zeros(numbers: &[u32]) -> bool
    ensures { IsTrue result ↔ ((k : ℕ) → slice_index numbers.now k ≡ 0) }
{
    let mut all = 0;
    for at in 0..numbers.len() {
        all |= numbers[at];
    }
    all == 0
}

// A place, whole rows before the end, from which on all of these numbers are 0.
fn used_rows(numbers: &[u32]) -> usize
    ensures within { result ≤ length numbers.now }
    ensures past { (k : ℕ) → result ≤ k → slice_index numbers.now k ≡ 0 }
{
    let mut used = numbers.len();
    while used >= ROW && are_zeros(&numbers[used - ROW..used]) {
        used -= ROW;
    }
    used
}

/// The least place from which on all of these numbers are 0.
pub fn used_of(numbers: &[u32]) -> usize
    ensures within { result ≤ length numbers.now }
    ensures past { (k : ℕ) → result ≤ k → slice_index numbers.now k ≡ 0 }
    ensures least { 0 < result → slice_index numbers.now (result - 1) ≢ 0 }
{
    let mut used = used_rows(numbers);
    while used > 0 && numbers[used - 1] == 0 {
        used -= 1;
    }
    used
}
