// A load that is open: it is finished or given up, and cannot be dropped or copied.
ghost use Rattle.std.specs.Prelude.{◌^◌, ◌≤◌};

use warehouse::fault::Refusal;

pub struct OpenLoad {
    pub(crate) level: u8,
    pub(crate) index: u32,
    // how many values have come; they lie in the caller's buffer, since a load takes no memory
    pub(crate) taken: u32,
    ghost short: { level ≤ 12 },
    ghost few: { taken ≤ 2 ^ level },
}

// A refused call hands the load back.
pub struct RefusedLoad {
    pub load: OpenLoad,
    pub refusal: Refusal,
}
