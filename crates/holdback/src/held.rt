// The hold-back layer: up to 64 nonzero numbers held over the store below.
use store::interface::Store;
use store::table::Table;

// how many numbers are held at most
pub const MOST: usize = 64;

#[derive(Drop)]
pub struct HoldBack<S: Store> {
    pub(crate) below: S,
    pub(crate) held: Table<MOST>,
}
