// Growing a warehouse by one level.
ghost use Rattle.std.specs.Prelude.{◌≡◌, ℕ, ◌*◌, ◌<◌, ◌≤◌, cond, Some, None, pos, ◌≤ℤ◌};
ghost use Rattle.store.specs.Writing.{Written};
ghost use Rattle.warehouse.specs.View.{known};
ghost use Rattle.loads.specs.Growing.{total_cell, top_cell, tile_cell, lowest_written, fills, newly, total_writes};
ghost use Rattle.loads.specs.Growing.{Topped, Growth, GrownTo};
ghost use Rattle.loads.specs.Beside.{GrowsBeside, GrowthBeside};

use crate::beside::{Alone, Beside};
use crate::cells::{number_in, put, starts};
use haar::cells::{difference_cell, sum_cell};
use store::interface::Store;
use warehouse::fault::{Asked, Fault, Refusal};
use warehouse::numbers::answered;
use warehouse::record::{Warehouse, is_small};

// A store that grows, and the cells of its growth: where the total stands, where it comes on top, and the tile that comes in use.
#[derive(Drop)]
struct GrowthCells<'a, S: Store> {
    store: &'a mut S,
    bands: u8,
    size: u8,
    total: u32,
    top: u32,
    tile: Option<u32>,
    ghost whole: { (S.means store.now).bands ≡ bands },
    ghost below: { size < 4 * bands },
    ghost stands: { total ≡ total_cell bands size },
    ghost over: { top ≡ top_cell bands size },
    ghost comes: { tile ≡ cond (fills size) (Some (tile_cell bands size)) None },
}

impl<'a, S: Store> GrowthCells<'a, S> {
    fn of(store: &'a mut S, size: u8) -> GrowthCells<'a, S>
        requires { size < 4 * (S.means store.old).bands }
        ensures same_store { result.store.ghost_name ≡ store.entry.ghost_name }
        ensures kept { result.store.now ≡ store.old }
        ensures size { result.size ≡ size }
    {
        let bands = store.bands();
        let total = sum_cell(bands, size, 0).unwrap();
        let top = difference_cell(bands, size + 1, 0).unwrap();
        let first = sum_cell(bands, size + 1, 0).unwrap();
        GrowthCells {
            store,
            bands,
            size,
            total,
            top,
            tile: (size > 0 && size % 4 == 0).then_some(first),
        }
    }

    // The total that comes on top.
    fn read_total(&self) -> i64
        ensures { result ≡ (S.means self.now.store.now).cells (total_cell self.now.bands self.now.size) }
    {
        number_in(self.store, self.total)
    }

    // The lower of the cells to write.
    fn lowest(&self) -> u32
        ensures { result ≡ lowest_written self.now.bands self.now.size }
    {
        self.tile.unwrap_or(self.top)
    }

    // How many of the cells to write go from zero to nonzero.
    fn newly_filled(&self, total: i64) -> u32
        ensures { result ≡ newly self.now.bands self.now.size total (S.means self.now.store.now).cells }
    {
        let top = starts(number_in(self.store, self.top), total);
        // by match: for map_or the proof did not close that the closure's cell is the store's
        match self.tile {
            Some(tile) => top + starts(number_in(self.store, tile), total),
            None => top,
        }
    }

    // The total into its cells, the lower one first.
    fn write(&mut self, total: i64)
        requires { pos (newly self.old.bands self.old.size total (S.means self.old.store.now).cells) ≤ℤ (S.means self.old.store.now).room }
        ensures same_store { self.new.store.ghost_name ≡ self.old.store.ghost_name }
        ensures wrote { Written S.puts (total_writes self.old.bands self.old.size total) self.old.store.now self.new.store.now }
        ensures topped { Topped self.old.size total (S.means self.old.store.now) (S.means self.new.store.now) }
    {
        if let Some(tile) = self.tile {
            put(self.store, tile, total);
        }
        put(self.store, self.top, total);
    }
}

// The checks of a growth in their order, and its writing.
fn raise<S: Store, B: Beside<S>>(warehouse: &mut Warehouse<S>, beside: &mut B) -> Result<u8, Fault>
    ensures whole { GrownTo S.means S.puts warehouse.old result warehouse.new }
    ensures grows { GrowsBeside B.grows beside.old (known S.means warehouse.old) result beside.new (known S.means warehouse.new) }
{
    let size = warehouse.size();
    let mark = warehouse.mark();
    let bands = warehouse.store.bands();
    if size >= 4 * bands {
        return Err(Fault::Top);
    }
    let cells = GrowthCells::of(&mut warehouse.store, size);
    let total = cells.read_total();
    if !is_small(total) {
        return Err(Fault::Large(cells.lowest()));
    }
    let more = cells.newly_filled(total);
    if !cells.store.fits(more) {
        return Err(Fault::Full);
    }
    beside.grow(warehouse)?;
    let mut cells = GrowthCells::of(&mut warehouse.store, size);
    cells.write(total);
    warehouse.asked = size + 1;
    // as it was cut to the size before
    warehouse.mark = mark;
    Ok(size + 1)
}

// One level more: the size after it, or why the size is kept.
pub fn grow<S: Store>(warehouse: &mut Warehouse<S>) -> Result<u8, Refusal>
    ensures whole { GrownTo S.means S.puts warehouse.old result warehouse.new }
    ensures growth { Growth (known S.means warehouse.old) result (known S.means warehouse.new) }
{
    grow_beside(warehouse, &mut Alone)
}

// The same, where something besides has to be passed.
pub fn grow_beside<S: Store, B: Beside<S>>(
    warehouse: &mut Warehouse<S>,
    beside: &mut B,
) -> Result<u8, Refusal>
    ensures whole { GrownTo S.means S.puts warehouse.old result warehouse.new }
    ensures growth { GrowthBeside B.grows beside.old (known S.means warehouse.old) result beside.new (known S.means warehouse.new) }
{
    let size = warehouse.size();
    answered(raise(warehouse, beside), Asked::Size(size))
}
