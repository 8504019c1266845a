// The questions of a warehouse that stands, and what changes it.
ghost use Rattle.std.specs.Prelude.{◌≡◌, Some, None};
ghost use Rattle.gymshell.specs.Asking.{asked, reading, refused, trending};

use crate::standing::Standing;
use haar::trend::Trend;
use shell::answer::{Answer, Refused};
use shell::command::Command;
use shell::wrong::Why;
use store::interface::Store;
use warehouse::fault::Refusal;
use warehouse::reading::Reading;

// A refusal of the warehouse, as an answer.
pub(crate) fn refused(refusal: Refusal) -> Answer
    ensures { result ≡ refused refusal }
{
    Answer::Refused(Refused::Warehouse(refusal))
}

fn reading(read: Result<Reading, Refusal>) -> Answer
    ensures { result ≡ reading read }
{
    match read {
        Ok(reading) => Answer::Reading(reading),
        Err(refusal) => refused(refusal),
    }
}

fn trending(told: Result<Trend, Refusal>) -> Answer
    ensures { result ≡ trending told }
{
    match told {
        Ok(trend) => Answer::Trend(trend),
        Err(refusal) => refused(refusal),
    }
}

// How many cells were written, or the size after a growth.
fn counted<N: Into<i64>>(count: Result<N, Refusal>) -> Answer {
    match count {
        Ok(count) => Answer::Number(count.into()),
        Err(refusal) => refused(refusal),
    }
}

// What a question answers; none is no question.
pub(crate) fn ask<S: Store>(
    standing: &Standing<S>,
    command: &Command,
) -> Option<Result<Answer, Why>>
    ensures { result ≡ asked S.means standing.now command.now }
{
    let warehouse = standing.plain();
    Some(Ok(match command {
        Command::Size => Answer::Number(i64::from(warehouse.size())),
        Command::Mark => Answer::Number(i64::from(warehouse.mark())),
        Command::Free => Answer::Number(i64::from(warehouse.free_cells())),
        Command::Point { minute } => reading(warehouse.point(*minute)),
        Command::Sum { from, to } => reading(warehouse.sum(*from, *to)),
        Command::Mean { from, to } => reading(warehouse.mean(*from, *to)),
        Command::Trend { level, index } => trending(warehouse.trend(*level, *index)),
        Command::Busiest { from, to } => match standing.busiest(*from, *to) {
            Some(read) => reading(read),
            None => return Some(Err(Why::NoSecond)),
        },
        _ => return None,
    }))
}

// What a change answers; none is no change.
pub(crate) fn change<S: Store>(
    standing: &mut Standing<S>,
    buffer: &mut [i64],
    command: &Command,
) -> Option<Answer> {
    Some(match command {
        Command::Add { minute, value } => counted(standing.add_point(*minute, *value)),
        Command::Load {
            level,
            index,
            values,
        } => counted(standing.load(*level, *index, values, buffer)),
        Command::Grow => counted(standing.grow()),
        Command::Settle => {
            standing.settle();
            Answer::Done
        }
        _ => return None,
    })
}
