// A list of calls on a warehouse, one after another.
ghost use Rattle.std.specs.Prelude.{◌≡◌, ◌^◌, length, min};
ghost use Rattle.warehouse.specs.View.{known};
ghost use Rattle.loads.specs.Opening.{Open};
ghost use Rattle.agreement.specs.History.{History};
ghost use Rattle.compare.specs.Playing.{loaded, is_begun, call_of, is_made, Makes, Plays};

use crate::call::Call;
use loads::growth::grow;
use loads::loading::begin;
use loads::open::{OpenLoad, RefusedLoad};
use loads::point::add_point;
use store::interface::Store;
use warehouse::record::Warehouse;

// As many of the values as the load takes.
fn give_all(mut load: OpenLoad, values: &mut [i64]) -> OpenLoad
    requires { load.taken ≡ 0 }
    ensures kept { values.new ≡ values.old }
    ensures filled { Open result load.level load.index (min (2 ^ load.level) (length values.old)) }
{
    for place in 0..values.len() {
        let value = values[place];
        load = match load.value(values, value) {
            Ok(next) => next,
            Err(back) => {
                let RefusedLoad { load, refusal: _ } = back;
                return load;
            }
        };
    }
    load
}

// A load with these values: begun, filled and finished; given up where the finish is refused.
fn load<S: Store>(warehouse: &mut Warehouse<S>, level: u8, index: u32, values: &mut [i64])
    ensures kept { values.new ≡ values.old }
    ensures made { (h : History) → Makes (is_begun (known S.means warehouse.old).size level index) (known S.means warehouse.old) (loaded level index values.old) h (known S.means warehouse.new) }
{
    let Ok(begun) = begin(warehouse, level, index) else {
        return;
    };
    if let Err(back) = give_all(begun, values).finish(warehouse, values) {
        let RefusedLoad { load, refusal: _ } = back;
        let _ = load.give_up();
    }
}

// One call; whether it was refused is for the history to say.
fn make<S: Store>(warehouse: &mut Warehouse<S>, call: Call, numbers: &mut [i64])
    ensures kept { numbers.new ≡ numbers.old }
    ensures made { (h : History) → Makes (is_made (known S.means warehouse.old).size call) (known S.means warehouse.old) (call_of numbers.old call) h (known S.means warehouse.new) }
{
    match call {
        Call::Load { level, index, from } => {
            let place = from.min(numbers.len());
            load(warehouse, level, index, &mut numbers[place..]);
        }
        Call::Add { minute, value } => {
            let _ = add_point(warehouse, minute, value);
        }
        Call::Grow => {
            let _ = grow(warehouse);
        }
        Call::Settle => warehouse.settle(),
        Call::Point { minute } => {
            let _ = warehouse.point(minute);
        }
        Call::Sum { from, to } => {
            let _ = warehouse.sum(from, to);
        }
        Call::Mean { from, to } => {
            let _ = warehouse.mean(from, to);
        }
        Call::Trend { level, index } => {
            let _ = warehouse.trend(level, index);
        }
    }
}

// The calls, one after another, accepted or refused; the numbers are for the values of loads, and stay. Whatever history led to the
// warehouse before, that history with these calls and their answers leads to the warehouse after them.
pub fn play<S: Store>(warehouse: &mut Warehouse<S>, calls: &[Call], numbers: &mut [i64])
    ensures kept { numbers.new ≡ numbers.old }
    ensures plays { (h : History) → Plays (known S.means warehouse.old) numbers.old calls.now h (known S.means warehouse.new) }
{
    'calls: for call in calls {
        make(warehouse, *call, numbers);
    }
}
