// The commands of a load, in their turn. Each answers by `match`: the load goes into one half of the pair, the line into the other.
ghost use Rattle.std.specs.Prelude.{◌≡◌, Some, None, Err};
ghost use Rattle.warehouse.specs.View.{known};
ghost use Rattle.feed.specs.Step.{Begun, Filled, Finished, refused};
ghost use Rattle.feed.specs.Whole.{LoadedTo};

use crate::fault::FeedFault;
use crate::stepped::Reply;
use loads::loading::begin;
use loads::open::{OpenLoad, RefusedLoad};
use store::interface::Store;
use warehouse::record::Warehouse;
use wire::line::Line;

pub(crate) fn begin_load<S: Store>(
    warehouse: &Warehouse<S>,
    level: u8,
    index: u32,
    offset: u64,
) -> (Option<OpenLoad>, Reply)
    ensures { Begun (known S.means warehouse.now).size None level index offset result.0 result.1 }
{
    match begin(warehouse, level, index) {
        Ok(load) => (Some(load), Ok(Some(Line::Begun))),
        Err(refusal) => (None, Err(FeedFault::from((refusal, offset)))),
    }
}

// A refused call hands its load back.
fn handed_back(back: RefusedLoad, offset: u64) -> (Option<OpenLoad>, Reply)
    ensures load { result.0 ≡ Some back.load }
    ensures refusal { result.1 ≡ Err (refused back.refusal offset) }
{
    let RefusedLoad { load, refusal } = back;
    (Some(load), Err(FeedFault::from((refusal, offset))))
}

pub(crate) fn take_value(
    load: OpenLoad,
    buffer: &mut [i64],
    value: i32,
    offset: u64,
) -> (Option<OpenLoad>, Reply)
    ensures { Filled (Some load) buffer.old value offset result.0 result.1 buffer.new }
{
    match load.value(buffer, i64::from(value)) {
        Ok(load) => (Some(load), Ok(None)),
        Err(back) => handed_back(back, offset),
    }
}

pub(crate) fn finish_load<S: Store>(
    warehouse: &mut Warehouse<S>,
    load: OpenLoad,
    buffer: &mut [i64],
    offset: u64,
) -> (Option<OpenLoad>, Reply)
    ensures restored { buffer.new ≡ buffer.old }
    ensures whole { LoadedTo S.means S.puts warehouse.old (Some load) buffer.old offset result.1 warehouse.new }
    ensures finished { Finished (known S.means warehouse.old) (Some load) buffer.old offset result.0 result.1 (known S.means warehouse.new) }
{
    match load.finish(warehouse, buffer) {
        Ok(cells) => (None, Ok(Some(Line::Finished { cells }))),
        Err(back) => handed_back(back, offset),
    }
}
