// Why a store refuses a cell, and the check for a cell past the count.
ghost use Rattle.std.specs.Prelude.{◌≡◌, min};
ghost use Rattle.store.specs.Faults.{checked};

use haar::cells::cell_count;

#[derive(Clone, Copy, PartialEq, Eq, Debug)]
pub enum CellFault {
    // the cell is at or past the cell count
    Cell(u32),
    // a zero cell was to become nonzero, and there is no room
    Full(u32),
}

// Refuses a cell that a store of these bands does not have; no store has more than five bands.
pub fn check_cell(bands: u8, cell: u32) -> Result<(), CellFault>
    ensures { result ≡ checked (min bands 5) cell }
{
    if cell >= cell_count(bands) {
        return Err(CellFault::Cell(cell));
    }
    Ok(())
}
