// The sparse store: a table of the nonzero cells.
ghost use Rattle.std.specs.Prelude.{◌≤◌};
ghost use Rattle.haar.specs.Tiles.{cell_count};
ghost use Rattle.store.specs.Contents.{Counted};

use crate::table::Table;

// how many places the table has
pub const SIZE: usize = 1024;

#[derive(Drop)]
pub struct Sparse {
    pub(crate) table: Table<SIZE>,
    pub(crate) capacity: usize,
    pub(crate) bands: u8,
    ghost spare: { table.used ≤ capacity },
    ghost bounded: { capacity ≤ 1024 },
    ghost celled: { capacity ≤ cell_count bands },
    ghost roomy: { 1 ≤ capacity },
    ghost few: { bands ≤ 5 },
    ghost some: { 1 ≤ bands },
    ghost counted: { Counted bands table },
}
