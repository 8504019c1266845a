// The numbers of a store's refusals.
ghost use Rattle.std.specs.Prelude.{◌≡◌};
ghost use Rattle.store.specs.Faults.{cell_fault_number};

use crate::fault::CellFault;

impl CellFault {
    // The number of the rules.
    pub fn number(self) -> u8
        ensures { result ≡ cell_fault_number self }
    {
        match self {
            CellFault::Cell(_) => 19,
            CellFault::Full(_) => 23,
        }
    }
}
