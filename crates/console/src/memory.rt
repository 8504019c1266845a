// A feed in memory: bytes that are at hand, and a page that grows.
ghost use Rattle.std.specs.Prelude.{◌≡◌, true, false, [], ◌≢◌, Ok};
ghost use Rattle.console.specs.Ends.{Flushes, Takes};

use crate::ends::{Sink, Source};
use std::alloc::{AllocError, Global};
use std::convert::Infallible;

// Bytes of the caller's that are not yet given.
#[derive(Drop)]
pub struct Bytes<'a> {
    rest: &'a [u8],
}

impl<'a> Bytes<'a> {
    pub fn new(bytes: &'a [u8]) -> Bytes<'a>
        ensures { result.rest.now ≡ bytes.now }
    {
        Bytes { rest: bytes }
    }
}

// Gives its bytes, and always answers.
impl Source for Bytes<'_> {
    type Error = Infallible;

    ghost gives = { λ s rest. rest ≡ s.rest.now };

    ghost broken = { λ _. ⊥ };

    fn read(&mut self, buffer: &mut [u8]) -> Result<usize, Infallible> {
        let many = self.rest.len().min(buffer.len());
        buffer[0..many].copy_from_slice(&self.rest[0..many]);
        self.rest = &self.rest[many..];
        Ok(many)
    }
}

// What a sink was given, as long as there is memory for it.
#[derive(Drop)]
pub struct Page {
    bytes: Vec<u8>,
    // no Option round the bytes: they are good either way
    is_full: bool,
}

impl Page {
    pub fn new(heap: Global) -> Page
        ensures empty { result.bytes.items ≡ [] }
        ensures room { result.is_full ≡ false }
    {
        Page {
            bytes: Vec::new(heap),
            is_full: false,
        }
    }

    pub fn bytes(&self) -> &[u8]
        ensures { result.now ≡ self.now.bytes.items }
    {
        &self.bytes
    }
}

// Keeps every byte in its order; it is stuck where memory ends.
impl Sink for Page {
    type Error = AllocError;

    ghost took = { λ p w. w ≡ p.bytes.items };

    ghost handed = { λ _. Unit {0} };

    ghost stuck = { λ p. p.is_full ≡ true };

    // An Err is open: no clause says when memory ends.
    fn write(&mut self, bytes: &[u8]) -> Result<(), AllocError>
        ensures taken { Takes (λ w. w ≡ self.old.bytes.items) (λ w. w ≡ self.new.bytes.items) (self.new.is_full ≡ true) bytes.now result }
        ensures whole { result ≡ Ok tt → self.new.is_full ≡ self.old.is_full }
        ensures lost { result ≢ Ok tt → self.new.bytes.items ≡ self.old.bytes.items }
    {
        let answer = self.bytes.extend_from_slice(bytes);
        self.is_full |= answer.is_err();
        answer
    }

    // A page that lost bytes says so whenever it is asked.
    fn flush(&mut self) -> Result<(), AllocError>
        ensures flushed { Flushes (λ w. w ≡ self.old.bytes.items) (λ w. w ≡ self.new.bytes.items) (Unit {0}) (self.new.is_full ≡ true) result }
        ensures whole { self.old.is_full ≡ false → result ≡ Ok tt }
        ensures lost { self.old.is_full ≡ true → result ≢ Ok tt }
        ensures kept { self.new.bytes.items ≡ self.old.bytes.items }
        ensures same { self.new.is_full ≡ self.old.is_full }
    {
        if self.is_full {
            Err(AllocError)
        } else {
            Ok(())
        }
    }
}
