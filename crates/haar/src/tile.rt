// A tile of a store, where its cells start, and the slots of its differences.
ghost use Rattle.std.specs.Prelude.{◌≡◌, ◌+◌, ◌-◌, ◌^◌, ◌<◌, ◌≤◌};
ghost use Rattle.haar.specs.declared.coefficient.Coefficient.TheVariants.{TileSum, Difference};
ghost use Rattle.haar.specs.Tiles.{tiles_before, slot, cell_number};

use crate::narrow::Narrow;

// The tiles of five bands: 1 + 16 + 256 + 4,096 + 65,536.
const TILES: Narrow = Narrow { number: 69_905 };

// How many tiles stand before the band that has `above` bands above it: each band fewer leaves a sixteenth of the tiles.
pub(crate) fn tiles(above: u8) -> Narrow
    requires { above ≤ 5 }
    ensures is { result.number ≡ tiles_before above }
    ensures most { result.number ≤ 69905 }
{
    TILES >> (4 * (5 - above))
}

/// The slot of D(level, index) in its tile. There is no D(0, index): it is answered as the top level of a band.
pub fn slot(level: u8, index: Narrow) -> Narrow
    ensures is { 1 ≤ level → result.number ≡ slot (Difference level index.number) }
    ensures without { level ≡ 0 → result.number ≡ 1 }
    ensures below { result.number < 16 }
{
    let width = Narrow::ONE << ((4 - level % 4) % 4);
    width + (index & (width - Narrow::ONE))
}

/// A tile by its band and its index there, in a store of these bands.
#[derive(Clone, Copy)]
pub struct Tile {
    pub bands: u8,
    pub band: u8,
    pub index: Narrow,
    pub ghost few: { bands ≤ 5 },
    pub ghost held: { band < bands },
    pub ghost inside: { index.number < 16 ^ (bands - 1 - band) },
}

impl Tile {
    /// The cell of slot 0. All sixteen cells of the tile are among the 1,118,480 of five bands.
    pub fn start(self) -> Narrow
        ensures is { result.number ≡ cell_number self.bands (TileSum self.band self.index.number) }
        ensures whole { result.number + 16 ≤ 1118480 }
    {
        (tiles(self.bands - 1 - self.band) + self.index) << 4
    }
}
