// The way through the touched cells of a chunk, in rising cell number, with the chunk's share of each.
ghost use Rattle.std.specs.Prelude.{◌≡◌, ℕ, ◌+◌, ◌-◌, ◌*◌, ◌/◌, ◌%◌, ◌^◌, ◌<◌, ◌≤◌, ℤ};
ghost use Rattle.std.specs.Result.{MatchResult};
ghost use Rattle.haar.specs.Tiles.{tiles_before, cell_count};
ghost use Rattle.haar.specs.Count.{bands_in_use};
ghost use Rattle.loads.specs.declared.reach.Reach.{Reach};
ghost use Rattle.loads.specs.Reach.{at_reach, Gap, Takes, first_met, first_cell, row_cell};
ghost use Rattle.loads.specs.Tree.{minutes_of};

use crate::reach::Reach;
use crate::share::ChunkTree;
use haar::narrow::Narrow;
use haar::tile::{Tile, slot};
use haar::written::bands_in_use;

// What is done at each touched cell of a chunk r with the data g.
pub(crate) trait Pass {
    // from x to y, the touched cells below `from` were taken
    ghost passed: { Reach → (ℕ → ℤ) → Self → Self → ℕ → Type 0 };

    // from x on, it stopped at a cell
    ghost stopped: { Reach → (ℕ → ℤ) → Self → ℕ → Type 0 };

    fn take(&mut self, cell: u32, share: i64) -> Result<(), u32>
        requires { (r : Reach) × (g : ℕ → ℤ) × (x : Self) × passed r g x self.old cell × at_reach r Takes g cell share }
        ensures { (r : Reach) (g : ℕ → ℤ) (x : Self) → passed r g x self.old cell → at_reach r Takes g cell share → MatchResult result (λ _. passed r g x self.new (cell + 1)) (stopped r g x) };

    ghost skip: { (r : Reach) (g : ℕ → ℤ) (x y : Self) (a b : ℕ) → passed r g x y a → a ≤ b → b ≤ cell_count r.bands → at_reach r Gap a b → passed r g x y b };
}

// slot 0 of the first tile of a band that meets the chunk
fn first_cell(reach: Reach, band: u8) -> Narrow
    requires { band < reach.bands }
    ensures is { result.number ≡ first_cell reach.bands reach.level reach.index band }
    ensures most { result.number + 16 * 2 ^ (reach.level - (4 * band + 4)) ≤ 1118480 }
{
    let top = 4 * band + 4;
    let over = Narrow {
        number: reach.index,
    } >> top.saturating_sub(reach.level);
    let tile = Tile {
        bands: reach.bands,
        band,
        index: over << reach.level.saturating_sub(top),
    };
    tile.start()
}

// the first touched cell of a level of a band whose tile lies over the chunk, from the first touched index
fn row_start(reach: Reach, band: u8, level: u8, index: Narrow) -> Narrow
    requires over { reach.level < 4 * band + 4 }
    requires level { (4 * band < level) × ((level ≤ 4 * band + 4) × (level ≤ reach.size)) }
    requires first { index.number ≡ first_met reach.level reach.index level }
    ensures is { result.number ≡ row_cell reach.bands reach.level reach.index band level + first_met reach.level reach.index level % 2 ^ (4 * band + 4 - level) }
    ensures most { result.number + 2 ^ (reach.level - level) ≤ 1118480 }
{
    first_cell(reach, band) + slot(level, index)
}

// a band whose tiles that meet the chunk lie inside it: each of their cells is touched
fn inside<P: Pass>(pass: &mut P, chunk: &ChunkTree<'_>, band: u8) -> Result<(), u32>
    requires inside { 4 * band + 4 ≤ chunk.now.reach.level }
    requires come { (x : P) × P.passed chunk.now.reach (minutes_of chunk.now) x pass.old (16 * tiles_before (chunk.now.reach.bands - 1 - band)) }
    ensures { (x : P) → P.passed chunk.now.reach (minutes_of chunk.now) x pass.old (16 * tiles_before (chunk.now.reach.bands - 1 - band)) → MatchResult result (λ _. P.passed chunk.now.reach (minutes_of chunk.now) x pass.new (16 * tiles_before (chunk.now.reach.bands - band))) (P.stopped chunk.now.reach (minutes_of chunk.now) x) }
{
    let start = first_cell(chunk.reach, band);
    for at in 0..16u32 << (chunk.reach.level - (4 * band + 4)) {
        pass.take(
            (start + Narrow { number: at }).number,
            chunk.tile_share(band, at),
        )?;
    }
    Ok(())
}

// the touched cell of a level above the chunk, in a band whose tile lies over it
fn path<P: Pass>(pass: &mut P, chunk: &ChunkTree<'_>, band: u8, level: u8) -> Result<(), u32>
    requires above { chunk.now.reach.level < level }
    requires level { (4 * band < level) × ((level ≤ 4 * band + 4) × (level ≤ chunk.now.reach.size)) }
    requires come { (x : P) × P.passed chunk.now.reach (minutes_of chunk.now) x pass.old (row_cell chunk.now.reach.bands chunk.now.reach.level chunk.now.reach.index band level) }
    ensures { (x : P) → P.passed chunk.now.reach (minutes_of chunk.now) x pass.old (row_cell chunk.now.reach.bands chunk.now.reach.level chunk.now.reach.index band level) → MatchResult result (λ _. P.passed chunk.now.reach (minutes_of chunk.now) x pass.new (row_cell chunk.now.reach.bands chunk.now.reach.level chunk.now.reach.index band (level - 1))) (P.stopped chunk.now.reach (minutes_of chunk.now) x) }
{
    let index = Narrow {
        number: chunk.reach.index,
    } >> (level - chunk.reach.level);
    let cell = row_start(chunk.reach, band, level, index);
    pass.take(cell.number, chunk.path_share(level))
}

// the touched cells of a level of a band whose tile lies over the chunk
fn row<P: Pass>(pass: &mut P, chunk: &ChunkTree<'_>, band: u8, level: u8) -> Result<(), u32>
    requires over { chunk.now.reach.level < 4 * band + 4 }
    requires level { (4 * band < level) × ((level ≤ 4 * band + 4) × (level ≤ chunk.now.reach.size)) }
    requires come { (x : P) × P.passed chunk.now.reach (minutes_of chunk.now) x pass.old (row_cell chunk.now.reach.bands chunk.now.reach.level chunk.now.reach.index band level) }
    ensures { (x : P) → P.passed chunk.now.reach (minutes_of chunk.now) x pass.old (row_cell chunk.now.reach.bands chunk.now.reach.level chunk.now.reach.index band level) → MatchResult result (λ _. P.passed chunk.now.reach (minutes_of chunk.now) x pass.new (row_cell chunk.now.reach.bands chunk.now.reach.level chunk.now.reach.index band (level - 1))) (P.stopped chunk.now.reach (minutes_of chunk.now) x) }
{
    if level > chunk.reach.level {
        return path(pass, chunk, band, level);
    }
    let more = chunk.reach.level - level;
    let index = Narrow {
        number: chunk.reach.index,
    } << more;
    let cell = row_start(chunk.reach, band, level, index);
    for at in 0..1u32 << more {
        pass.take(
            (cell + Narrow { number: at }).number,
            chunk.difference_at(level, at),
        )?;
    }
    Ok(())
}

// a band whose tile lies over the chunk: slot 0, and the touched cells of each level
fn over<P: Pass>(pass: &mut P, chunk: &ChunkTree<'_>, band: u8) -> Result<(), u32>
    requires over { chunk.now.reach.level < 4 * band + 4 }
    requires used { band < bands_in_use chunk.now.reach.size }
    requires come { (x : P) × P.passed chunk.now.reach (minutes_of chunk.now) x pass.old (16 * tiles_before (chunk.now.reach.bands - 1 - band)) }
    ensures { (x : P) → P.passed chunk.now.reach (minutes_of chunk.now) x pass.old (16 * tiles_before (chunk.now.reach.bands - 1 - band)) → MatchResult result (λ _. P.passed chunk.now.reach (minutes_of chunk.now) x pass.new (16 * tiles_before (chunk.now.reach.bands - band))) (P.stopped chunk.now.reach (minutes_of chunk.now) x) }
{
    pass.take(first_cell(chunk.reach, band).number, chunk.whole_sum())?;
    for below in (4 * band..chunk.reach.size.min(4 * band + 4)).rev() {
        row(pass, chunk, band, below + 1)?;
    }
    Ok(())
}

// Every touched cell, or as far as the pass goes.
pub(crate) fn walk<P: Pass>(pass: &mut P, chunk: &ChunkTree<'_>) -> Result<(), u32>
    requires { P.passed chunk.now.reach (minutes_of chunk.now) pass.old pass.old 0 }
    ensures { MatchResult result (λ _. P.passed chunk.now.reach (minutes_of chunk.now) pass.old pass.new (cell_count chunk.now.reach.bands)) (P.stopped chunk.now.reach (minutes_of chunk.now) pass.old) }
{
    for band in (0..bands_in_use(chunk.reach.size)).rev() {
        if 4 * band + 4 <= chunk.reach.level {
            inside(pass, chunk, band)?;
        } else {
            over(pass, chunk, band)?;
        }
    }
    Ok(())
}
