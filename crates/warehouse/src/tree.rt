// A store's cells as the minute tree of a warehouse's size.
ghost use Rattle.std.specs.Prelude.{◌≡◌, ◌*◌, ◌≤◌};
ghost use Rattle.warehouse.specs.View.{known};

use crate::record::Warehouse;
use store::interface::Store;

#[derive(Drop)]
pub(crate) struct Tree<'a, S: Store> {
    pub(crate) store: &'a S,
    pub(crate) size: u8,
    ghost fits: { size ≤ 4 * (S.means store.now).bands },
    ghost most: { size ≤ 20 },
}

impl<S: Store> Warehouse<S> {
    pub(crate) fn tree(&self) -> Tree<'_, S>
        ensures store { result.store.now ≡ self.now.store }
        ensures size { result.size ≡ (known S.means self.now).size }
    {
        Tree {
            store: &self.store,
            size: self.size(),
        }
    }
}
