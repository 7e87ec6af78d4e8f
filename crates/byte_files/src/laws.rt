//! How reads, writes and truncations of bytes go together.
ghost use Rattle.std.specs.Prelude.{◌≡◌, ◌≤◌, ◌+◌, ◌++◌, ℕ, List, length, take};
ghost use Rattle.byte_files.specs.Bytes.{read_from, written_at, truncated};

/// Bytes that are written in two steps, one behind the other, are written at once.
///
/// It runs nothing: its contract is the law.
pub fn write_law()
    ensures { (bytes one other : List ℕ) (at : ℕ)
        → written_at (written_at bytes at one) (at + length one) other ≡ written_at bytes at (one ++ other) }
{}

/// A write at the end of bytes puts the new ones behind them.
///
/// It runs nothing: its contract is the law.
pub fn append_law()
    ensures { (bytes laid : List ℕ) → written_at bytes (length bytes) laid ≡ bytes ++ laid }
{}

/// What was written at a place is read there.
///
/// It runs nothing: its contract is the law.
pub fn read_law()
    ensures { (bytes laid : List ℕ) (at : ℕ) → read_from (written_at bytes at laid) at (length laid) ≡ laid }
{}

/// A truncation leaves just so many bytes, and those in front stay.
///
/// It runs nothing: its contract is the law.
pub fn truncate_law()
    ensures count { (bytes : List ℕ) (count : ℕ) → length (truncated bytes count) ≡ count }
    ensures front { (bytes : List ℕ) (count n : ℕ) → n ≤ count → n ≤ length bytes → take n (truncated bytes count) ≡ take n bytes }
{}
