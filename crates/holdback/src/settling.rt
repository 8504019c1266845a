// The held numbers written below.
ghost use Rattle.std.specs.Prelude.{pos, ◌≤ℤ◌};
ghost use Rattle.store.specs.Contents.{in_use};
ghost use Rattle.store.specs.Meaning.{Same, Settles};
ghost use Rattle.store.specs.Writing.{Written};
ghost use Rattle.holdback.specs.Layer.{layer_means, Sinks, Pours};

use crate::held::HoldBack;
use store::interface::Store;

impl<S: Store> HoldBack<S> {
    // Writes every held number below, in rising cell number, so that the store below means what the layer meant.
    // There is room for all; a cell that is refused below does not count, and its number is dropped.
    fn pour(&mut self)
        requires { pos 0 ≤ℤ (layer_means S.Store.means self.old).room }
        ensures same { Same (layer_means S.Store.means self.old) (S.Store.means self.new.below) }
        ensures sunk { Written (Sinks S.Store.means S.Store.puts) (in_use self.old.held) self.old.below self.new.below }
    {
        let HoldBack { below, held } = self;
        for entry in held.entries() {
            let _ = below.write(entry.cell, entry.value);
        }
    }

    // Brings every held number below, and has the store below settle: then none is held.
    pub(crate) fn bring_down(&mut self)
        requires { pos 0 ≤ℤ (layer_means S.Store.means self.old).room }
        ensures settles { Settles (layer_means S.Store.means self.old) (layer_means S.Store.means self.new) }
        ensures pours { Pours S.Store.means S.Store.puts S.Store.settled self.old self.new }
    {
        self.pour();
        self.held.clear();
        self.below.settle();
    }
}
