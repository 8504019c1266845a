// The cells of plain minutes in a store of 5 bands, worked out from the rules alone.

// How many tiles stand before those of a band.
fn before(band: usize) -> usize {
    match band {
        0 => 4369,
        1 => 273,
        2 => 17,
        3 => 1,
        _ => 0,
    }
}

fn put(cells: &mut [i64], at: usize, number: i64) {
    if let Some(cell) = cells.get_mut(at) {
        *cell = number;
    }
}

// One level up: sums of pairs take the place of the sums below, and their differences go to their cells.
fn level_up(sums: &mut [i64], level: u8, many: usize, cells: &mut [i64]) {
    let band = usize::from(level.saturating_sub(1) / 4);
    let width = 1usize << (4 * band + 4).saturating_sub(usize::from(level)).min(3);
    // a pair's two places and the place of its sum are three of one slice: an index names them plainest
    for k in 0..many.min(sums.len() / 2) {
        let left = sums[2 * k];
        let right = sums[2 * k + 1];
        let tile = before(band).saturating_add(k / width);
        put(
            cells,
            tile.saturating_mul(16).saturating_add(width + k % width),
            left.wrapping_sub(right),
        );
        sums[k] = left.wrapping_add(right);
    }
}

// The sums of the tiles of a band, whose level has been reached.
fn tile_sums(sums: &[i64], band: usize, many: usize, cells: &mut [i64]) {
    for (k, sum) in sums.iter().take(many).enumerate() {
        put(
            cells,
            before(band).saturating_add(k).saturating_mul(16),
            *sum,
        );
    }
}

// All cells at a size; the minutes are used up.
pub(crate) fn recount(minutes: &mut [i64], size: u8, cells: &mut [i64]) {
    let size = size.min(20);
    if size == 0 {
        tile_sums(minutes, 0, 1, cells);
    }
    for level in 1..=size {
        let many = 1usize << (size - level);
        level_up(minutes, level, many, cells);
        if level % 4 == 0 || level == size {
            tile_sums(minutes, usize::from((level - 1) / 4), many, cells);
        }
    }
}
