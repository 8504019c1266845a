// One command of the feed: decoded, obeyed, answered.
ghost use Rattle.std.specs.Prelude.{◌≡◌};
ghost use Rattle.warehouse.specs.View.{known};
ghost use Rattle.feed.specs.Step.{out_of_sequence, told, Obeys, Steps, ending};
ghost use Rattle.feed.specs.Whole.{ObeyedTo, SteppedTo};

use crate::fault::{Cause, FeedFault};
use crate::load::{begin_load, finish_load, take_value};
use crate::stepped::{Reply, Stepped};
use loads::growth::grow;
use loads::open::OpenLoad;
use loads::point::add_point;
use store::interface::Store;
use warehouse::fault::Refusal;
use warehouse::record::Warehouse;
use wire::command::Command;
use wire::decode::decode;
use wire::line::Line;

// The line of an answer, or its refusal with the offset.
fn told(answer: Result<Line, Refusal>, offset: u64) -> Reply
    ensures { result ≡ told (λ line. line) offset answer }
{
    let line = answer.map_err(|refusal| (refusal, offset))?;
    Ok(Some(line))
}

fn out_of_sequence(offset: u64) -> FeedFault
    ensures { result ≡ out_of_sequence offset }
{
    FeedFault {
        cause: Cause::Sequence,
        offset,
    }
}

fn obey<S: Store>(
    warehouse: &mut Warehouse<S>,
    loading: Option<OpenLoad>,
    buffer: &mut [i64],
    command: Command,
    offset: u64,
) -> (Option<OpenLoad>, Reply)
    ensures whole { ObeyedTo S.means S.puts warehouse.old loading buffer.old command offset result.1 warehouse.new }
    ensures obeys { Obeys (known S.means warehouse.old) loading buffer.old command offset result.0 result.1 buffer.new (known S.means warehouse.new) }
{
    let (loading, answer) = match (command, loading) {
        (Command::Begin { level, index }, None) => {
            return begin_load(warehouse, level, index, offset);
        }
        (Command::Value { value }, Some(load)) => return take_value(load, buffer, value, offset),
        (Command::Finish, Some(load)) => return finish_load(warehouse, load, buffer, offset),
        (Command::GiveUp, Some(load)) => {
            let values = load.give_up();
            (None, Ok(Line::GivenUp { values }))
        }
        (
            Command::Begin { .. } | Command::Value { .. } | Command::Finish | Command::GiveUp,
            loading,
        ) => return (loading, Err(out_of_sequence(offset))),
        (Command::Add { minute, value }, loading) => (
            loading,
            add_point(warehouse, minute, i64::from(value)).map(|cells| Line::Added { cells }),
        ),
        (Command::Grow, loading) => (loading, grow(warehouse).map(|size| Line::Grown { size })),
        (Command::Point { minute }, loading) => (
            loading,
            warehouse.point(minute).map(|reading| Line::Point {
                value: reading.value,
                cells: reading.cells,
            }),
        ),
        (Command::Sum { from, to }, loading) => (
            loading,
            warehouse.sum(from, to).map(|reading| Line::Sum {
                sum: reading.value,
                cells: reading.cells,
            }),
        ),
        (Command::Mean { from, to }, loading) => (
            loading,
            warehouse.mean(from, to).map(|reading| Line::Mean {
                mean: reading.value,
                cells: reading.cells,
            }),
        ),
    };
    (loading, told(answer, offset))
}

// The command at the front of the bytes, which stands at this offset of the feed: its line or its refusal, whole, with the offset.
// Bytes that no command can be read from end the feed and change nothing; after any other refusal it goes on.
// No struct holds the three: a load cannot be put back behind a `&mut`, and each method would owe that it keeps both loans.
#[tactic(auto, using(wire::proofs::Rows::shorter))]
pub fn step<S: Store>(
    warehouse: &mut Warehouse<S>,
    loading: Option<OpenLoad>,
    buffer: &mut [i64],
    bytes: &[u8],
    offset: u64,
) -> Stepped
    ensures whole { SteppedTo S.means S.puts warehouse.old loading buffer.old bytes.now offset result.reply warehouse.new }
    ensures steps { Steps (known S.means warehouse.old) loading buffer.old bytes.now offset result buffer.new (known S.means warehouse.new) }
{
    // by `let .. else`, by a rule of the project: the step takes the decoded command or leaves
    let decoded = decode(bytes);
    let Ok((command, rest)) = decoded else {
        return Stepped {
            loading,
            reply: Err(FeedFault::from((decoded.unwrap_err(), offset))),
            width: None,
        };
    };
    let (loading, reply) = obey(warehouse, loading, buffer, command, offset);
    Stepped {
        loading,
        reply,
        width: Some(bytes.len() - rest.len()),
    }
}

// A load that is open at the end of the feed is given up, and its line printed.
pub fn end(loading: Option<OpenLoad>) -> Option<Line>
    ensures { result ≡ ending loading }
{
    loading
        .map(OpenLoad::give_up)
        .map(|values| Line::GivenUp { values })
}
