//! What becomes of slips that a volume has no use for any more.

use words::FreeSlip;

// The volume ends, and nobody opens its segments again.
pub(crate) fn end_slips(mut kept: Vec<FreeSlip>) {
    'kept: while let Some(slip) = kept.pop() {
        slip.store();
    }
    kept.destroy_empty();
}
