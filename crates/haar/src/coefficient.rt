// What a cell holds: the sum of a tile (band, index), or a difference (level, index).
#[derive(Clone, Copy)]
pub enum Coefficient {
    TileSum(u8, u32),
    Difference(u8, u32),
}
