// How many cells a load writes and a question reads, counted level by level.

// The intervals of a level that a chunk overlaps.
fn overlapped(chunk: u8, level: u8) -> u32 {
    1u32 << chunk.saturating_sub(level).min(12)
}

// The differences that a chunk overlaps at each level, and the tile sums in each band in use, at the level where it ends.
pub(crate) fn cells_written(chunk: u8, size: u8) -> u32 {
    let bands = 0..size.div_ceil(4).max(1);
    (1..=size)
        .chain(bands.map(|band| band.saturating_mul(4).saturating_add(4)))
        .map(|level| overlapped(chunk, level))
        .fold(0u32, |cells, more| cells.saturating_add(more))
}

// The cells read for one interval of a level: its tile's sum, and a difference for each level on the way down.
pub(crate) fn cells_read(level: u8, size: u8) -> u32 {
    let band = level.saturating_sub(1) / 4;
    let top = band.saturating_mul(4).saturating_add(4).min(size);
    1 + u32::from(top.saturating_sub(level))
}

// The level of the longest interval that starts at `from` and ends by `to`.
fn longest(from: u64, to: u64, size: u8) -> u8 {
    let fits = |level: u8| {
        let length = 1u64 << level.min(12);
        from % length == 0 && from.saturating_add(length) <= to
    };
    (1..=size.min(12))
        .rev()
        .find(|level| fits(*level))
        .unwrap_or(0)
}

// The cells read for the minutes from `from` to `to - 1`.
pub(crate) fn cells_read_between(from: u32, to: u32, size: u8) -> u32 {
    let mut cells = 0u32;
    let mut at = u64::from(from);
    // the steps differ in length, so that no range has them
    while at < u64::from(to) {
        let level = longest(at, u64::from(to), size);
        cells = cells.saturating_add(cells_read(level, size));
        at += 1u64 << level.min(12);
    }
    cells
}
