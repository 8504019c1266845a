// Where a feed comes from and where its lines go. Not std's Read and Write: what those give or take is known or not, while
// these may give and take any bytes of several.
ghost use Rattle.std.specs.Prelude.{◌≡◌, ℕ, List, ◌++◌, Ok, Err};
ghost use Rattle.console.specs.Ends.{Reads, Takes, Flushes};

pub trait Source {
    // why it does not answer
    type Error;

    // the bytes that it may still give
    ghost gives: { Self → List ℕ → Type 0 };

    // it does not answer
    ghost broken: { Self → Type 0 };

    // Fills the front of the buffer and says how many bytes it gave: none for a buffer of some bytes is the end.
    fn read(&mut self, buffer: &mut [u8]) -> Result<usize, Self::Error>
        ensures { Reads (gives self.old) (gives self.new) (broken self.new) buffer.new result };
}

pub trait Sink {
    // why it does not answer
    type Error;

    // the bytes that it may have been given
    ghost took: { Self → List ℕ → Type 0 };

    // it holds nothing back
    ghost handed: { Self → Type 0 };

    // it does not answer
    ghost stuck: { Self → Type 0 };

    // Takes bytes at the end of what it has.
    fn write(&mut self, bytes: &[u8]) -> Result<(), Self::Error>
        ensures { Takes (took self.old) (took self.new) (stuck self.new) bytes.now result };

    // Hands on what it holds back.
    fn flush(&mut self) -> Result<(), Self::Error>
        ensures { Flushes (took self.old) (took self.new) (handed self.new) (stuck self.new) result };
}
