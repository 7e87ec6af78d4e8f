//! Places of a table.
ghost use Rattle.std.specs.Prelude.{◌≡◌, ◌<◌, None, Some, length, slice_index_or, slice_set};

/// What stands at a place goes out.
pub(crate) fn take_out<T>(table: &mut Vec<Option<T>>, place: usize) -> Option<T>
    requires { place < length table.old.items }
    ensures right { result ≡ slice_index_or table.old.items place None }
    ensures table { table.new.items ≡ slice_set table.old.items place None }
{
    table[place].take()
}

/// It comes back to its place, where nothing stands.
pub(crate) fn put_back<T>(table: &mut Vec<Option<T>>, place: usize, right: T)
    requires within { place < length table.old.items }
    requires none { slice_index_or table.old.items place None ≡ None }
    ensures { table.new.items ≡ slice_set table.old.items place (Some right) }
{
    match table[place].replace(right) {
        None => {}
        Some(_) => unreachable!(),
    }
}
