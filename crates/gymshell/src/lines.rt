// Where lines come from.
use std::alloc::Global;
use std::io;
use std::io::{BufRead, BufReader, Stdin};

// Gives lines, without their newlines, until there is none.
pub(crate) trait Lines {
    fn next_line(&mut self) -> io::Result<Option<Vec<u8>>>;
}

// The lines of standard input. The last may lack its newline.
#[derive(Drop)]
pub(crate) struct Input {
    reader: BufReader<Stdin>,
    alloc: Global,
}

impl Input {
    pub(crate) fn new(alloc: Global, stdin: Stdin) -> io::Result<Input> {
        Ok(Input {
            reader: BufReader::new(alloc, stdin)?,
            alloc,
        })
    }
}

impl Lines for Input {
    fn next_line(&mut self) -> io::Result<Option<Vec<u8>>> {
        let mut line = Vec::new(self.alloc);
        if self.reader.read_until(b'\n', &mut line)? == 0 {
            return Ok(None);
        }
        if line.last() == Some(&b'\n') {
            let _ = line.pop();
        }
        Ok(Some(line))
    }
}

// Words as lines: the last of them is the first line.
#[derive(Drop)]
pub(crate) struct Spelled {
    pub words: Vec<Vec<u8>>,
}

impl Lines for Spelled {
    fn next_line(&mut self) -> io::Result<Option<Vec<u8>>> {
        Ok(self.words.pop())
    }
}
