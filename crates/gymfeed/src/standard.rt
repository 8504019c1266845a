// Standard input as a source, standard output as a sink. What they give and take is the operating system's word, so the
// source may give any bytes, and the sink may have any. After a flush the buffer is empty.
ghost use Rattle.std.specs.Prelude.{◌≡◌, []};
ghost use Rattle.std.specs.Io.Buffered.{writer_buffer};

use console::ends::{Sink, Source};
use std::alloc::Global;
use std::io;
use std::io::{BufWriter, ErrorKind, Read, Stdin, Stdout, Write};

#[derive(Drop)]
pub struct Input {
    stdin: Stdin,
}

impl Input {
    pub(crate) fn new(stdin: Stdin) -> Input {
        Input { stdin }
    }
}

impl Source for Input {
    type Error = io::Error;

    ghost gives = { λ _ _. Unit {0} };

    ghost broken = { λ _. Unit {0} };

    fn read(&mut self, buffer: &mut [u8]) -> io::Result<usize> {
        // a `for` that always ends: the form that a read needs, since a signal may come again and again
        for _ in 0..u64::MAX {
            match self.stdin.read(buffer) {
                // a signal came: nothing was read
                Err(error) if error.kind() == ErrorKind::Interrupted => {}
                answer => return answer,
            }
        }
        Err(ErrorKind::Interrupted.into())
    }
}

#[derive(Drop)]
pub struct Output {
    stdout: BufWriter<Stdout>,
}

impl Output {
    pub(crate) fn new(alloc: Global, stdout: Stdout) -> io::Result<Output> {
        Ok(Output {
            stdout: BufWriter::new(alloc, stdout)?,
        })
    }
}

impl Sink for Output {
    type Error = io::Error;

    ghost took = { λ _ _. Unit {0} };

    ghost handed = { λ o. writer_buffer o.stdout ≡ [] };

    ghost stuck = { λ _. Unit {0} };

    fn write(&mut self, bytes: &[u8]) -> io::Result<()> {
        self.stdout.write_all(bytes)
    }

    fn flush(&mut self) -> io::Result<()> {
        self.stdout.flush()
    }
}
