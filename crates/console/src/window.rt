// The bytes of a feed that were read and not yet obeyed.
ghost use Rattle.std.specs.Prelude.{◌≡◌, ◌<◌, ◌≤◌, List, [], length, drop};
ghost use Rattle.console.specs.Windows.{Fills};

use crate::ends::Source;
use std::marker::Model;

// how many bytes are read at once
const WIDTH: usize = 4096;

// No ArrayVec: a source reads into the spare room as a slice, which that does not lend.
#[derive(Drop)]
pub(crate) struct Window {
    bytes: [u8; WIDTH],
    // how many of them there are
    len: usize,
}

impl Model for Window {
    ghost use Rattle.std.specs.Prelude.{ℕ, ◌≤◌, List, take};

    ghost Value = { List ℕ };

    ghost view = { λ w. take w.len w.bytes };

    ghost invariant = { λ w. w.len ≤ 4096 };
}

impl Window {
    pub(crate) fn new() -> Window
        ensures { result ≡ [] }
    {
        Window {
            bytes: [0; WIDTH],
            len: 0,
        }
    }

    pub(crate) fn bytes(&self) -> &[u8]
        ensures { result.now ≡ self.now }
    {
        &self.bytes[..self.len]
    }

    // More bytes at the end, and how many.
    pub(crate) fn fill<I: Source>(&mut self, source: &mut I) -> Result<usize, I::Error>
        requires { length self.old < 4096 }
        ensures { Fills I.Source source.old source.new self.old self.new result }
    {
        let many = source.read(&mut self.bytes[self.len..])?;
        self.len += many;
        Ok(many)
    }

    // The first bytes go.
    pub(crate) fn drop_front(&mut self, used: usize)
        requires { used ≤ length self.old }
        ensures { self.new ≡ drop used self.old }
    {
        self.bytes.copy_within(used..self.len, 0);
        self.len -= used;
    }
}
