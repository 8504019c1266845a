// The minutes of a bottom tile, read together: as points are read, but each cell of the tile once.
ghost use Rattle.std.specs.Prelude.{◌≡◌, ◌*◌, ◌^◌, ◌≤◌, Ok, length, pos, get_or};
ghost use Rattle.haar.specs.Places.{InSize};
ghost use Rattle.warehouse.specs.Ask.{sum_in};
ghost use Rattle.warehouse.specs.Tile.{TileMinutes, Spread};
ghost use Rattle.warehouse.specs.Tree.{tree_view};
ghost use Rattle.warehouse.specs.View.{known};

use crate::fault::Fault;
use crate::record::Warehouse;
use crate::tree::Tree;
use store::interface::Store;

impl<S: Store> Tree<'_, S> {
    // The first number is S(level, index). It gives place to the minutes under it, left before right; halved so, each cell is read once.
    fn spread(&self, minutes: &mut [i64], level: u8, index: u32) -> Result<(), Fault>
        requires low { level ≤ 4 }
        requires size { InSize self.now.size level index }
        requires many { length minutes.old ≡ 2 ^ level }
        requires sum { sum_in (tree_view self.now) level index ≡ Ok (get_or minutes.old 0 (pos 0)) }
        ensures { Spread (sum_in (tree_view self.now) 0) (index * 2 ^ level) (2 ^ level) result minutes.new }
    {
        if level == 0 {
            return Ok(());
        }
        let sum = minutes[0];
        let left = self.lowered(level - 1, 2 * index, sum)?;
        let half = minutes.len() / 2;
        let (low, high) = minutes.split_at_mut(half);
        low[0] = left;
        high[0] = sum - left;
        self.spread(low, level - 1, 2 * index)?;
        self.spread(high, level - 1, 2 * index + 1)
    }
}

impl<S: Store> Warehouse<S> {
    /// The sixteen minutes of bottom tile (0, `tile`), 0 past the size; or the refusal of the first of them that cannot be read as a point.
    pub fn tile_minutes(&self, tile: u32) -> Result<[i64; 16], Fault>
        ensures { TileMinutes (known S.means self.now) tile result }
    {
        let tree = self.tree();
        let mut minutes = [0; 16];
        let top = tree.size.min(4);
        if tile >= 1 << (tree.size - top) {
            return Ok(minutes);
        }
        minutes[0] = tree.sum(top, tile)?;
        tree.spread(&mut minutes[..1 << top], top, tile)?;
        Ok(minutes)
    }
}
