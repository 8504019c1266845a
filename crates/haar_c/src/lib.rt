// W for the console's host program, in C.
#![tactic(auto)]

ghost use Rattle.haar.specs.Places.{Written};

// W(level, size): 0 where there is no such load.
#[unsafe(no_mangle)]
pub extern "C" fn cells_written(level: u32, size: u32) -> u32
    ensures { Written level size result }
{
    haar::written::cells_written(level, size)
}
