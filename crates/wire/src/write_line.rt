// A line is written into the caller's buffer.
ghost use Rattle.std.specs.Prelude.{◌≡◌, ◌+◌, ◌<◌, ◌≤◌, ◌∷◌, ◌++◌, length};
ghost use Rattle.arrayvec.specs.ArrayString.{array_string_len};
ghost use Rattle.wire.specs.Line.{line_bytes, newline, WritesLine};

use crate::line::{Line, LineFault};
use arrayvec::ArrayString;
use itoa::{Buffer, Integer};

// Room for every line: a letter, two numbers of the longest types, two spaces and a newline have no more bytes.
pub const LINE: usize = 48;

type Text = ArrayString<LINE>;

// The buffer starts with the line's bytes if they fit, and else is left as it was.
pub fn write_line(line: Line, buffer: &mut [u8]) -> Result<usize, LineFault>
    ensures writes { WritesLine line buffer.old buffer.new result }
    ensures short { length (line_bytes line) ≤ 48 }
{
    let text = line_text(line);
    if buffer.len() < text.len() {
        return Err(LineFault::Buffer);
    }
    buffer[..text.len()].copy_from_slice(text.as_str().as_bytes());
    Ok(text.len())
}

// Not by `write!`: its contract leaves an `Err` open, and a line that fits is never refused.
fn line_text(line: Line) -> Text
    ensures { result.bytes ≡ line_bytes line }
{
    match line {
        Line::Grown { size } => count('G', size),
        Line::Begun => bare('L'),
        Line::Finished { cells } => count('F', cells),
        Line::GivenUp { values } => count('A', values),
        Line::Added { cells } => count('P', cells),
        Line::Point { value, cells } => pair('Q', value, cells),
        Line::Sum { sum, cells } => pair('S', sum, cells),
        Line::Mean { mean, cells } => pair('M', mean, cells),
        Line::Refused { number, offset } => pair('E', number, offset),
    }
}

// A letter is below 128, here and below: a type that says so would be made of a constant at each call.
fn bare(letter: char) -> Text
    requires { letter < 128 }
    ensures { result.bytes ≡ letter ∷ newline }
{
    let mut text = Text::new();
    text.push(letter);
    text.push('\n');
    text
}

fn count<I: Integer>(letter: char, n: I) -> Text
    requires letter { letter < 128 }
    requires room { I.MAX_STR_LEN ≤ 45 }
    ensures { result.bytes ≡ letter ∷ 32 ∷ I.text n ++ newline }
{
    let mut text = Text::new();
    text.push(letter);
    push_field(&mut text, n);
    text.push('\n');
    text
}

fn pair<I: Integer, J: Integer>(letter: char, first: I, second: J) -> Text
    requires letter { letter < 128 }
    requires room { I.MAX_STR_LEN + J.MAX_STR_LEN ≤ 44 }
    ensures { result.bytes ≡ letter ∷ 32 ∷ I.text first ++ 32 ∷ J.text second ++ newline }
{
    let mut text = Text::new();
    text.push(letter);
    push_field(&mut text, first);
    push_field(&mut text, second);
    text.push('\n');
    text
}

// A space, then the number.
fn push_field<I: Integer>(text: &mut Text, n: I)
    requires { array_string_len text.old + I.MAX_STR_LEN < 48 }
    ensures bytes { text.new.bytes ≡ text.old.bytes ++ 32 ∷ I.text n }
    ensures room { array_string_len text.new ≤ array_string_len text.old + I.MAX_STR_LEN + 1 }
{
    text.push(' ');
    text.push_str(Buffer::new().format(n));
}
