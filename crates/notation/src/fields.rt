// The fields of a line, each a space and a word.
ghost use Rattle.std.specs.Prelude.{◌≡◌, ℕ, ◌≤◌, ◌^◌, ◌==◌, ◌+◌, List, length, drop, position, Ok, Err, Result, IfOk, MatchResult};
ghost use Rattle.notation.specs.Reading.{word, signed_number, level, minute, next_word, field_of};
ghost use Rattle.notation.specs.Pushing.{capped, Reads};
ghost use Rattle.notation.specs.declared.fault.Problem.{Problem};

use crate::fault::{Misread, Problem};

// The bytes before the first space, and those from it on.
fn cut(bytes: &[u8]) -> (&[u8], &[u8])
    ensures before { result.0.now ≡ word bytes.now }
    ensures from { result.1.now ≡ drop (length (word bytes.now)) bytes.now }
{
    let end = space(bytes).unwrap_or(bytes.len());
    bytes.split_at(end)
}

fn space(bytes: &[u8]) -> Option<usize>
    ensures { result ≡ position (λ b. b == 32) bytes.now }
{
    bytes.iter().position(|b| *b == b' ')
}

// The number of a word, and 2^32 for those past it: no field takes it, and it does not matter how far.
fn read_number(digits: &[u8]) -> Result<u64, Problem>
    ensures value { result ≡ capped digits.now }
    ensures below { IfOk result (λ n. n ≤ 2 ^ 32) }
{
    if digits.is_empty() {
        return Err(Problem::NotNumber);
    }
    // by hand: std's parse takes a `+`, and says of a long word that it is too large where a later byte is no digit
    let mut n = 0;
    'digits: for &digit in digits {
        if !digit.is_ascii_digit() {
            return Err(Problem::NotNumber);
        }
        n = (n * 10 + u64::from(digit - b'0')).min(1 << 32);
    }
    Ok(n)
}

// What a field holds, by its word.
pub(crate) trait FieldValue {
    ghost of_word: { List ℕ → Result Self Problem };

    fn read(word: &[u8]) -> Result<Self, Problem>
        ensures { result ≡ of_word word.now };
}

impl FieldValue for u8 {
    ghost of_word = { level };

    fn read(word: &[u8]) -> Result<u8, Problem> {
        u8::try_from(read_number(word)?).map_err(|_| Problem::TooLarge)
    }
}

impl FieldValue for u32 {
    ghost of_word = { minute };

    fn read(word: &[u8]) -> Result<u32, Problem> {
        u32::try_from(read_number(word)?).map_err(|_| Problem::TooLarge)
    }
}

impl FieldValue for i32 {
    ghost of_word = { signed_number };

    fn read(word: &[u8]) -> Result<i32, Problem> {
        let n = match *word {
            [b'-', ref digits @ ..] => -read_number(digits)?.cast_signed(),
            _ => read_number(word)?.cast_signed(),
        };
        i32::try_from(n).map_err(|_| Problem::TooLarge)
    }
}

// The word after a space, and the bytes after that.
pub(crate) fn next_word(bytes: &[u8]) -> Result<(&[u8], &[u8]), Misread>
    ensures { MatchResult result (λ p. next_word bytes.now ≡ Ok (p.0.now, p.1.now)) (λ m. next_word bytes.now ≡ Err m) }
{
    match *bytes {
        [] => Err(Misread {
            left: 0,
            problem: Problem::Missing,
        }),
        [_, ref rest @ ..] => Ok(cut(rest)),
    }
}

// A word that is none of what the field asks for.
pub(crate) fn misread(word: &[u8], rest: &[u8], problem: Problem) -> Misread
    ensures { result ≡ record { left = length word.now + length rest.now; problem = problem } }
{
    Misread {
        left: word.len() + rest.len(),
        problem,
    }
}

// The next field, and the bytes after it.
pub(crate) fn field<T: FieldValue>(bytes: &[u8]) -> Result<(T, &[u8]), Misread>
    ensures { Reads (field_of T.of_word bytes.now) result }
{
    let (word, rest) = next_word(bytes)?;
    let value = T::read(word).map_err(|problem| misread(word, rest, problem))?;
    Ok((value, rest))
}
