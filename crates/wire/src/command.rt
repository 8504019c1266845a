// What a command of the feed asks for, and why bytes may be no command.
ghost use Rattle.std.specs.Prelude.{◌≡◌};
ghost use Rattle.wire.specs.Decode.{decode_fault_number};

use thiserror::Error;

#[derive(Clone, Copy, PartialEq, Eq, Debug)]
pub enum Command {
    Grow,
    Begin { level: u8, index: u32 },
    Value { value: i32 },
    Finish,
    GiveUp,
    Add { minute: u32, value: i32 },
    Point { minute: u32 },
    Sum { from: u32, to: u32 },
    Mean { from: u32, to: u32 },
}

#[derive(Clone, Copy, PartialEq, Eq, Debug, Error)]
pub enum DecodeFault {
    #[error("the first byte is no command's letter")]
    Command = 11,
    #[error("the bytes end before the command does")]
    Cut = 12,
}

impl DecodeFault {
    // The number of the rules, which the feed prints.
    pub fn number(self) -> u8
        ensures { result ≡ decode_fault_number self }
    {
        self as u8
    }
}
