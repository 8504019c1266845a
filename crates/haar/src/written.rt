// How many cells a load writes.
ghost use Rattle.std.specs.Prelude.{◌≡◌};
ghost use Rattle.haar.specs.Count.{bands_in_use};
ghost use Rattle.haar.specs.Places.{Written};

// How many bands are in use at a size.
pub fn bands_in_use(size: u8) -> u8
    ensures { result ≡ bands_in_use size }
{
    size.div_ceil(4).max(1)
}

// W(level, size): by the rule of the call in C, 0 where there is no such load.
pub fn cells_written(level: u32, size: u32) -> u32
    ensures { Written level size result }
{
    if level > 12 || level > size || size > 20 {
        return 0;
    }
    let mut count = (1u32 << level) - 1 + (size - level);
    // the call in C takes 32 bits; the size is at most 20 here
    let bands = u32::from(bands_in_use(size as u8));
    // by a loop: with a `fold` it stayed open that its closure can be called at each turn
    for band in 0..bands {
        count += 1 << level.saturating_sub(4 * band + 4);
    }
    count
}
