// The layer put over a store, and taken off again.
ghost use Rattle.std.specs.Prelude.{◌≡◌};
ghost use Rattle.store.specs.Contents.{Empty};
ghost use Rattle.holdback.specs.Over.{Alike};
ghost use Rattle.holdback.specs.Layer.{layer_means};

use crate::held::HoldBack;
use store::interface::Store;
use store::table::Table;

impl<S: Store> HoldBack<S> {
    // Holds none at first, so it means what the store below means.
    pub fn new(below: S) -> HoldBack<S>
        ensures over { result.below ≡ below }
        ensures none { Empty result.held }
        ensures alike { Alike (S.Store.means below) (layer_means S.Store.means result) }
    {
        HoldBack {
            below,
            held: Table::new(),
        }
    }

    // The store below; what is still held is lost.
    pub fn into_inner(self) -> S
        ensures { result ≡ self.below }
    {
        let HoldBack { below, held: _ } = self;
        below
    }
}
