//! The words of a line, and what each stands for.
ghost use Rattle.std.specs.Prelude.{◌≡◌, ℕ, not, List, length, position, Result};
ghost use Rattle.shell.specs.Words.{blank, word, after, begun, byte, half, number, value, hex_bytes, field_of, number_or_zero, last_of, values_of};
ghost use Rattle.shell.specs.Reading.{capped, Reads, ReadsList};
ghost use Rattle.shell.specs.declared.wrong.Why.{Why};

use crate::wrong::{Misread, Unread, Why};
use hex::FromHexError;
use std::alloc::{AllocError, Global};

fn is_blank(byte: u8) -> bool
    ensures { result ≡ blank byte }
{
    byte == b' ' || byte == b'\t'
}

// The number of a word, and the largest of 64 bits for those past it: it does not matter how far.
fn read_number(digits: &[u8]) -> Result<u64, Why>
    ensures { result ≡ capped digits.now }
{
    if digits.is_empty() {
        return Err(Why::NotNumber);
    }
    // by hand: std's parse takes a `+`, and says of a long word that it is too large where a later byte is no digit
    let mut n: u64 = 0;
    'digits: for &digit in digits {
        if !digit.is_ascii_digit() {
            return Err(Why::NotNumber);
        }
        n = n.saturating_mul(10).saturating_add(u64::from(digit - b'0'));
    }
    Ok(n)
}

// A number of bands that a flat store can have.
#[derive(Clone, Copy)]
pub(crate) struct Bands {
    pub(crate) count: u8,
}

// What a word stands for.
pub(crate) trait FieldValue {
    ghost of_word: { List ℕ → Result Self Why };

    fn read(word: &[u8]) -> Result<Self, Why>
        ensures { result ≡ of_word word.now };
}

impl FieldValue for u8 {
    ghost of_word = { byte };

    fn read(word: &[u8]) -> Result<u8, Why> {
        u8::try_from(read_number(word)?).map_err(|_| Why::TooLarge)
    }
}

impl FieldValue for Bands {
    ghost use Rattle.shell.specs.Words.{banded};

    ghost of_word = { banded };

    fn read(word: &[u8]) -> Result<Bands, Why> {
        match u8::read(word)? {
            count @ 0..=5 => Ok(Bands { count }),
            _ => Err(Why::TooLarge),
        }
    }
}

impl FieldValue for u16 {
    ghost of_word = { half };

    fn read(word: &[u8]) -> Result<u16, Why> {
        u16::try_from(read_number(word)?).map_err(|_| Why::TooLarge)
    }
}

impl FieldValue for u32 {
    ghost of_word = { number };

    fn read(word: &[u8]) -> Result<u32, Why> {
        u32::try_from(read_number(word)?).map_err(|_| Why::TooLarge)
    }
}

impl FieldValue for i64 {
    ghost of_word = { value };

    fn read(word: &[u8]) -> Result<i64, Why> {
        let n = match *word {
            [b'-', ref digits @ ..] => -i128::from(read_number(digits)?),
            _ => i128::from(read_number(word)?),
        };
        i64::try_from(n).map_err(|_| Why::TooLarge)
    }
}

// The bytes of a line that are still to come.
#[derive(Clone, Copy)]
pub(crate) struct Words<'a> {
    pub(crate) rest: &'a [u8],
}

// The place of the first blank.
fn first_blank(bytes: &[u8]) -> Option<usize>
    ensures { result ≡ position blank bytes.now }
{
    bytes.iter().position(|b| is_blank(*b))
}

// The place of the first byte of a word.
fn first_letter(bytes: &[u8]) -> Option<usize>
    ensures { result ≡ position (λ b. not (blank b)) bytes.now }
{
    bytes.iter().position(|b| !is_blank(*b))
}

// The bytes from the first word on.
pub(crate) fn from_word(bytes: &[u8]) -> &[u8]
    ensures { result.now ≡ begun bytes.now }
{
    let blanks = first_letter(bytes).unwrap_or(bytes.len());
    bytes.split_at(blanks).1
}

impl<'a> Words<'a> {
    // Takes the next word; an empty one where none comes.
    pub(crate) fn take_word(&mut self) -> &'a [u8]
        ensures word { result.now ≡ word self.old.rest.now }
        ensures after { self.new.rest.now ≡ after self.old.rest.now }
    {
        let begun = from_word(self.rest);
        let end = first_blank(begun).unwrap_or(begun.len());
        let (word, rest) = begun.split_at(end);
        self.rest = rest;
        word
    }

    // How many bytes come from the next word on.
    pub(crate) fn left(&self) -> usize
        ensures { result ≡ length (begun self.now.rest.now) }
    {
        from_word(self.rest).len()
    }

    // Takes the next word for what it stands for.
    pub(crate) fn take<T: FieldValue>(&mut self) -> Result<T, Misread>
        ensures { Reads (field_of T.of_word self.old.rest.now) result self.new.rest.now }
    {
        let left = self.left();
        if left == 0 {
            return Err(Misread {
                left,
                why: Why::Missing,
            });
        }
        let value = T::read(self.take_word()).map_err(|why| Misread { left, why })?;
        Ok(value)
    }

    // Takes the next word for a number, which is 0 where no word comes.
    pub(crate) fn take_or_zero(&mut self) -> Result<u32, Misread>
        ensures { Reads (number_or_zero self.old.rest.now) result self.new.rest.now }
    {
        if self.left() == 0 {
            return Ok(0);
        }
        self.take()
    }

    // Takes the next word, or an empty one, for bytes in hex.
    pub(crate) fn take_hex(&mut self, heap: Global) -> Result<Vec<u8>, Unread>
        ensures { ReadsList (last_of hex_bytes self.old.rest.now) result self.new.rest.now }
    {
        let left = self.left();
        let word = self.take_word();
        let bytes = hex::decode(heap, word).map_err(|error| match error {
            FromHexError::OutOfMemory => Unread::Memory(AllocError),
            _ => Misread {
                left,
                why: Why::NotHex,
            }
            .into(),
        })?;
        Ok(bytes)
    }

    // Takes each word that still comes for a value.
    pub(crate) fn take_values(&mut self, heap: Global) -> Result<Vec<i64>, Unread>
        ensures { ReadsList (values_of value self.old.rest.now) result self.new.rest.now }
    {
        let mut values = Vec::new(heap);
        'values: while self.left() > 0 {
            let value = self.take()?;
            values.push(value).map_err(AllocError::from)?;
        }
        Ok(values)
    }
}
