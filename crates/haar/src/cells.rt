// The cells of a store: how many there are, and which one holds a coefficient.
//
// Every number on the way to a cell number is a `Narrow`: bands, levels and what is made of them are bytes, and the index, once it
// is seen to lie in the tree, and all that follows of it are below 2^21 by their type.
ghost use Rattle.std.specs.Prelude.{◌≡◌, ℕ, ◌^◌, ◌<◌, ◌≤◌, ◌↔◌, min, IsTrue};
ghost use Rattle.haar.specs.Tiles.{tiles_before, cell_count};
ghost use Rattle.haar.specs.Places.{InSize, InTree, DifferenceCell, SumCell};

use crate::narrow::Narrow;
use crate::tile::{Tile, slot, tiles};

// How many tiles stand before the band that has `above` bands above it; more than five count as five.
pub fn tiles_before(above: u8) -> u32
    ensures is { result ≡ tiles_before (min above 5) }
    ensures most { result ≤ 69905 }
{
    tiles(above.min(5)).number
}

// How many cells a store of these bands has; no store has more than five bands.
pub fn cell_count(bands: u8) -> u32
    ensures { result ≡ cell_count (min bands 5) }
{
    (tiles(bands.min(5)) << 4).number
}

// Whether the interval (level, index) lies inside a size: whether the index has no more bits than the levels above it leave.
// The two stay apart, also below: most callers work out both anew, so that a struct would be made at the call to be taken apart.
pub fn is_inside(size: u8, level: u8, index: u32) -> bool
    ensures { IsTrue result ↔ InSize size level index }
{
    level <= size && Narrow::bits_of(index).number <= u32::from(size - level)
}

// Whether the interval lies in the tree of these bands.
fn in_tree(bands: u8, level: u8, index: u32) -> bool
    ensures is { IsTrue result ↔ InTree bands level index }
    ensures narrow { IsTrue result → index < 2 ^ 20 }
{
    bands <= 5 && is_inside(4 * bands, level, index)
}

// The cell of D(level, index) in a store of these bands, where its tree has that difference.
pub fn difference_cell(bands: u8, level: u8, index: u32) -> Option<u32>
    ensures { DifferenceCell bands level index result }
{
    if level == 0 || !in_tree(bands, level, index) {
        return None;
    }
    let band = (level - 1) / 4;
    let index = Narrow { number: index };
    let tile = Tile {
        bands,
        band,
        index: index >> (4 * band + 4 - level),
    };
    Some((tile.start() + slot(level, index)).number)
}

// Slot 0 of the tile from which S(level, index) is read, where the tree has that sum. Without bands it is cell 0.
pub fn sum_cell(bands: u8, level: u8, index: u32) -> Option<u32>
    ensures { SumCell bands level index result }
{
    if !in_tree(bands, level, index) {
        return None;
    }
    if bands == 0 {
        return Some(0);
    }
    let band = level.saturating_sub(1) / 4;
    let index = Narrow { number: index } >> (4 * band + 4 - level);
    let tile = Tile { bands, band, index };
    Some(tile.start().number)
}
