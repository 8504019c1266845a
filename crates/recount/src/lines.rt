// The lines that a feed should print, and those that it printed.
use std::alloc::{AllocError, Global};
use wire::line::Line;
use wire::write_line::{LINE, write_line};

// A line, and the offset of the command that prints it.
#[derive(Clone, Copy)]
pub(crate) struct Expectation {
    pub(crate) offset: u64,
    pub(crate) line: Line,
}

// Two lines that differ, empty where a text has no more, and the offset of the command that prints the first of them.
#[derive(Drop)]
pub(crate) struct Difference {
    pub(crate) offset: u64,
    pub(crate) expected: String,
    pub(crate) printed: String,
}

// What comparing two texts finds.
#[derive(Drop)]
pub(crate) struct Texts {
    pub(crate) lines: u64,
    pub(crate) differ: u64,
    pub(crate) first: Option<Difference>,
}

// The line at the front of a text, with its end, and what comes after it.
fn cut_line(text: &[u8]) -> (&[u8], &[u8]) {
    let many = text
        .iter()
        .position(|byte| *byte == b'\n')
        .map_or(text.len(), |place| place.saturating_add(1));
    text.split_at(many.min(text.len()))
}

impl Texts {
    fn new() -> Texts {
        Texts {
            lines: 0,
            differ: 0,
            first: None,
        }
    }

    // One line of each text.
    fn note(
        &mut self,
        heap: Global,
        offset: u64,
        expected: &[u8],
        printed: &[u8],
    ) -> Result<(), AllocError> {
        self.lines = self.lines.saturating_add(1);
        if expected == printed {
            return Ok(());
        }
        self.differ = self.differ.saturating_add(1);
        if self.first.is_none() {
            self.first = Some(Difference {
                offset,
                expected: String::from_utf8_lossy(heap, expected.trim_ascii_end())?,
                printed: String::from_utf8_lossy(heap, printed.trim_ascii_end())?,
            });
        }
        Ok(())
    }
}

// The lines expected of a feed of so many bytes, compared byte for byte with the text that it printed.
pub(crate) fn compare_texts(
    heap: Global,
    expected: &[Expectation],
    printed: &[u8],
    end: u64,
) -> Result<Texts, AllocError> {
    let mut texts = Texts::new();
    let mut rest = printed;
    for expectation in expected {
        // an array, since the call that writes a line takes a buffer
        let mut bytes = [0u8; LINE];
        let len = write_line(expectation.line, &mut bytes).unwrap();
        let (line, after) = cut_line(rest);
        texts.note(heap, expectation.offset, &bytes[..len], line)?;
        rest = after;
    }
    note_rest(heap, &mut texts, rest, end)?;
    Ok(texts)
}

// Lines that nothing explains.
fn note_rest(heap: Global, texts: &mut Texts, rest: &[u8], end: u64) -> Result<(), AllocError> {
    for line in rest.split_inclusive(|byte| *byte == b'\n') {
        texts.note(heap, end, b"", line)?;
    }
    Ok(())
}
