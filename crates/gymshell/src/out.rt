// Where answers go.
use haar::cells::cell_count;
use shell::answer::Answer;
use shell::text::push_answer;
use std::alloc::Global;
use std::io;
use std::io::Write;
use store::interface::Store;

// Answers as bytes to a writer, and whether one of them was a refusal or a wrong line.
#[derive(Drop)]
pub(crate) struct Out<W: Write + Drop> {
    writer: W,
    alloc: Global,
    pub bad: bool,
}

impl<W: Write + Drop> Out<W> {
    pub(crate) fn new(alloc: Global, writer: W) -> Out<W> {
        Out {
            writer,
            alloc,
            bad: false,
        }
    }

    pub(crate) fn print(&mut self, answer: Answer) -> anyhow::Result<()> {
        if let Answer::Refused(_) | Answer::Wrong(_) = answer {
            self.bad = true;
        }
        let mut text = String::new(self.alloc);
        push_answer(&mut text, answer, self.alloc)?;
        self.writer.write_all(text.as_bytes())?;
        Ok(())
    }

    pub(crate) fn flush(&mut self) -> io::Result<()> {
        self.writer.flush()
    }
}

// Each nonzero cell of a store, by rising number, and how many they are.
pub(crate) fn print_cells<S: Store, W: Write + Drop>(
    store: &S,
    out: &mut Out<W>,
) -> anyhow::Result<()> {
    let mut many = 0u32;
    for cell in 0..cell_count(store.bands()) {
        if let Ok(value) = store.read(cell) {
            if value != 0 {
                out.print(Answer::Cell { cell, value })?;
                many = many.saturating_add(1);
            }
        }
    }
    out.print(Answer::Cells(many))
}
