// The sparse store on a few cells, and the figure of free cells of a store without room.
ghost use Rattle.std.specs.Prelude.{true, pos, negsuc};
ghost use Rattle.std.proofs.Common.{rules};

use crate::fault::{CellFault, check_cell};
use crate::free::free_cells;
use crate::interface::Store;
use crate::sparse::Sparse;
use std::cell::Cell;

// Five bands of zero cells with room below zero; it counts how often it is asked for room.
#[derive(Drop)]
struct Owing {
    asked: Cell<u32>,
}

impl Store for Owing {
    ghost means = { λ _. record { bands = 5; cells = λ _. pos 0; room = negsuc 0; clean = true } };

    ghost puts = { λ _ _ _ _. Unit {0} };

    ghost settled = { λ _ _. Unit {0} };

    ghost laws = { λ _. Prim.search rules };

    fn bands(&self) -> u8 {
        5
    }

    fn read(&self, cell: u32) -> Result<i64, CellFault> {
        check_cell(5, cell)?;
        Ok(0)
    }

    fn write(&mut self, cell: u32, value: i64) -> Result<(), CellFault> {
        check_cell(5, cell)?;
        if value != 0 {
            return Err(CellFault::Full(cell));
        }
        Ok(())
    }

    fn fits(&self, _more: u32) -> bool {
        self.asked.set(self.asked.get().wrapping_add(1));
        false
    }

    fn is_clean(&self) -> bool {
        true
    }

    fn settle(&mut self) {}
}

#[test]
fn reads_what_was_written(rt: HostRuntime) {
    let mut store = Sparse::new(1, 4);
    assert_eq!(rt; store.write(9, -5), Ok(()));
    assert_eq!(rt; store.write(3, 7), Ok(()));
    assert_eq!(rt; store.read(9), Ok(-5));
    assert_eq!(rt; store.read(3), Ok(7));
    assert_eq!(rt; store.read(4), Ok(0));
}

#[test]
fn zero_makes_room(rt: HostRuntime) {
    let mut store = Sparse::new(1, 1);
    assert_eq!(rt; store.write(9, 1), Ok(()));
    assert_eq!(rt; store.write(3, 1).map_err(CellFault::number), Err(23));
    assert_eq!(rt; store.write(9, 0), Ok(()));
    assert_eq!(rt; store.write(3, 1), Ok(()));
    assert!(rt; !store.fits(1));
}

#[test]
fn refuses_cells_past_the_count(rt: HostRuntime) {
    let mut store = Sparse::new(0, 0);
    assert_eq!(rt; store.write(16, 1).map_err(CellFault::number), Err(19));
    assert_eq!(rt; store.read(16), Err(CellFault::Cell(16)));
    assert_eq!(rt; store.read(15), Ok(0));
}

#[test]
fn capacity_is_cut_to_the_cells(rt: HostRuntime) {
    let mut store = Sparse::new(1, 1024);
    assert_eq!(rt; free_cells(&store), 16);
    assert_eq!(rt; store.write(3, 1), Ok(()));
    assert_eq!(rt; free_cells(&store), 15);
    assert_eq!(rt; free_cells(&Sparse::new(3, 1024)), 1024);
}

#[test]
fn room_below_zero_is_no_free_cell(rt: HostRuntime) {
    let store = Owing {
        asked: Cell::new(0),
    };
    assert_eq!(rt; free_cells(&store), 0);
    // 1,118,480 cells have 21 binary digits
    assert_eq!(rt; store.asked.get(), 21);
}
