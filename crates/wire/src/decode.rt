// A command is read from the bytes that the feed has received.
ghost use Rattle.std.specs.Prelude.{◌≡◌, Ok, Err};
ghost use Rattle.wire.specs.Decode.{decoded};

use crate::command::{Command, DecodeFault};

// The command at the front of `bytes`, and the bytes after it. Three commands read two numbers each: a function for them would
// have to take the eight bytes apart again.
pub fn decode(bytes: &[u8]) -> Result<(Command, &[u8]), DecodeFault>
    ensures { elim result [ Ok p ↦ decoded bytes.now ≡ Ok (p.0, p.1.now) | Err e ↦ decoded bytes.now ≡ Err e ] }
{
    // the letter by itself: one pattern over all the bytes asks for its length before its letter, and so does each arm
    let [letter, operands @ ..] = bytes else {
        return Err(DecodeFault::Cut);
    };
    match (*letter, operands) {
        (b'G', rest) => Ok((Command::Grow, rest)),
        (b'L', &[level, a, b, c, d, ref rest @ ..]) => {
            let index = u32::from_be_bytes([a, b, c, d]);
            Ok((Command::Begin { level, index }, rest))
        }
        (b'V', &[a, b, c, d, ref rest @ ..]) => {
            let value = i32::from_be_bytes([a, b, c, d]);
            Ok((Command::Value { value }, rest))
        }
        (b'F', rest) => Ok((Command::Finish, rest)),
        (b'A', rest) => Ok((Command::GiveUp, rest)),
        (b'P', &[a, b, c, d, w, x, y, z, ref rest @ ..]) => {
            let minute = u32::from_be_bytes([a, b, c, d]);
            let value = i32::from_be_bytes([w, x, y, z]);
            Ok((Command::Add { minute, value }, rest))
        }
        (b'Q', &[a, b, c, d, ref rest @ ..]) => {
            let minute = u32::from_be_bytes([a, b, c, d]);
            Ok((Command::Point { minute }, rest))
        }
        (b'S', &[a, b, c, d, w, x, y, z, ref rest @ ..]) => {
            let from = u32::from_be_bytes([a, b, c, d]);
            let to = u32::from_be_bytes([w, x, y, z]);
            Ok((Command::Sum { from, to }, rest))
        }
        (b'M', &[a, b, c, d, w, x, y, z, ref rest @ ..]) => {
            let from = u32::from_be_bytes([a, b, c, d]);
            let to = u32::from_be_bytes([w, x, y, z]);
            Ok((Command::Mean { from, to }, rest))
        }
        (b'L' | b'V' | b'P' | b'Q' | b'S' | b'M', _) => Err(DecodeFault::Cut),
        _ => Err(DecodeFault::Command),
    }
}
