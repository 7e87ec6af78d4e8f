//! Tables of rights, each with a place that it has to itself.
ghost use Rattle.std.specs.Prelude.{◌≡◌, ◌<◌, None, Some, IsSome, length, replicate, slice_index_or, slice_set, IfOk};

use std::alloc::{AllocError, Global};

/// A table of so many places where nothing stands.
pub fn new_table<T>(alloc: Global, places: usize) -> Result<Vec<Option<T>>, AllocError>
    ensures { IfOk result (λ table. table.items ≡ replicate places None) }
{
    let mut table = Vec::with_capacity(alloc, places)?;
    for _place in 0..places {
        table.push_reserved(None);
    }
    Ok(table)
}

/// Puts a right at its place, where none stands.
pub fn put_at<T>(table: &mut Vec<Option<T>>, place: u32, right: T)
    requires within { place < length table.old.items }
    requires none { slice_index_or table.old.items place None ≡ None }
    ensures { table.new.items ≡ slice_set table.old.items place (Some right) }
{
    match table[place as usize].replace(right) {
        None => {}
        Some(_) => unreachable!(),
    }
}

/// Takes the right from its place.
pub fn take_at<T>(table: &mut Vec<Option<T>>, place: u32) -> T
    requires { IsSome (slice_index_or table.old.items place None) }
    ensures right { slice_index_or table.old.items place None ≡ Some result }
    ensures table { table.new.items ≡ slice_set table.old.items place None }
{
    match table[place as usize].take() {
        Some(right) => right,
        None => unreachable!(),
    }
}
