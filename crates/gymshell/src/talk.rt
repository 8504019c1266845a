// Lines in, answers out.
use crate::board::{Board, Given};
use crate::lines::Lines;
use crate::out::{Out, print_cells};
use crate::state::State;
use anyhow::bail;
use pile::laying::Lays;
use shell::answer::Answer;
use shell::command::{Command, Spoken};
use shell::line::read_line;
use shell::wrong::{LineFault, Why, Wrong};
use std::alloc::Global;
use std::io::Write;

// One command obeyed and its answer printed; and the line that it gave for the link, if it did.
fn obey<L: Lays, W: Write + Drop>(
    state: &mut State<L>,
    board: &mut Option<Board<'_>>,
    spoken: Spoken,
    out: &mut Out<W>,
) -> anyhow::Result<Option<Given>> {
    let Spoken { column, command } = spoken;
    let answer = match command {
        Command::Line { bytes } => {
            out.print(Answer::Done)?;
            return Ok(Some(Given::Captured(bytes)));
        }
        Command::Ring => {
            out.print(Answer::Done)?;
            return Ok(Some(Given::Ring));
        }
        Command::Cells => match state.pile() {
            Some(pile) => {
                print_cells(pile, out)?;
                return Ok(None);
            }
            None => Err(Why::NoPile),
        },
        Command::Sparse { bands, capacity } => state.lay_sparse(bands, capacity)?,
        command => match Board::answer(board, &command) {
            Some(answer) => answer,
            None => state.answer(&command),
        },
    };
    out.print(answer.unwrap_or_else(|why| Answer::Wrong(Wrong { column, why })))?;
    Ok(None)
}

// One line read and obeyed.
fn hear<L: Lays, W: Write + Drop>(
    state: &mut State<L>,
    board: &mut Option<Board<'_>>,
    line: &[u8],
    out: &mut Out<W>,
    alloc: Global,
) -> anyhow::Result<Option<Given>> {
    let given = match read_line(line, alloc) {
        Ok(None) => return Ok(None),
        Ok(Some(spoken)) => obey(state, board, spoken, out)?,
        Err(LineFault::Wrong(wrong)) => {
            out.print(Answer::Wrong(wrong))?;
            None
        }
        Err(LineFault::Memory(fault)) => return Err(fault.into()),
    };
    out.flush()?;
    Ok(given)
}

// Lines until one gives another line for the link, or until they end.
fn talk<L: Lays, I: Lines, W: Write + Drop>(
    state: &mut State<L>,
    given: &Given,
    lines: &mut I,
    out: &mut Out<W>,
    alloc: Global,
) -> anyhow::Result<Option<Given>> {
    let mut board = Board::new(given);
    for _ in 0..u64::MAX {
        let Some(line) = lines.next_line()? else {
            return Ok(None);
        };
        if let Some(next) = hear(state, &mut board, &line, out, alloc)? {
            return Ok(Some(next));
        }
    }
    bail!("too many lines")
}

// All lines, from no pile on, on bottoms laid by these two.
pub(crate) fn session<L: Lays + Drop, I: Lines, W: Write + Drop>(
    first: L,
    second: L,
    buffer: Vec<i64>,
    lines: &mut I,
    out: &mut Out<W>,
    alloc: Global,
) -> anyhow::Result<()> {
    let mut state = State::new(first, second, buffer);
    let mut given = Given::Nothing;
    for _ in 0..u64::MAX {
        match talk(&mut state, &given, lines, out, alloc)? {
            Some(next) => given = next,
            None => return Ok(()),
        }
    }
    bail!("too many lines")
}
