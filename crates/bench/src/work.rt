// The work that is timed: loads, additions and questions of a warehouse. A refused load counts as 0; no question here is refused.
use crate::draw::Draw;
use loads::loading::begin;
use loads::open::{OpenLoad, RefusedLoad};
use loads::point::add_point;
use store::interface::Store;
use warehouse::fault::Refusal;
use warehouse::reading::Reading;
use warehouse::record::Warehouse;

pub(crate) fn given_up(back: RefusedLoad) -> u32 {
    let RefusedLoad { load, refusal: _ } = back;
    let _ = load.give_up();
    0
}

// An open load with all its values, which are drawn.
pub(crate) fn filled<S: Store>(
    warehouse: &Warehouse<S>,
    buffer: &mut [i64],
    draw: &mut Draw,
    level: u8,
    index: u32,
) -> Option<OpenLoad> {
    let Ok(mut load) = begin(warehouse, level, index) else {
        return None;
    };
    for _ in 0..1u32 << level.min(12) {
        // by match: either arm hands the load on
        load = match load.value(buffer, draw.seconds()) {
            Ok(load) => load,
            Err(back) => {
                let _ = given_up(back);
                return None;
            }
        };
    }
    Some(load)
}

fn load<S: Store>(
    warehouse: &mut Warehouse<S>,
    buffer: &mut [i64],
    draw: &mut Draw,
    level: u8,
    index: u32,
) -> u32 {
    match filled(warehouse, buffer, draw, level, index) {
        Some(load) => load.finish(warehouse, buffer).unwrap_or_else(given_up),
        None => 0,
    }
}

// Loads of one level at chunks that are drawn.
pub(crate) fn loads<S: Store>(
    warehouse: &mut Warehouse<S>,
    buffer: &mut [i64],
    draw: &mut Draw,
    level: u8,
    chunks: u32,
    times: u32,
) {
    for _ in 0..times {
        let index = draw.below(chunks);
        let written = load(warehouse, buffer, draw, level, index);
        draw.note(i64::from(written));
    }
}

pub(crate) fn additions<S: Store>(warehouse: &mut Warehouse<S>, draw: &mut Draw, times: u32) {
    for _ in 0..times {
        let minute = draw.below(1 << warehouse.size());
        let value = draw.seconds();
        let written = add_point(warehouse, minute, value).unwrap_or(0);
        draw.note(i64::from(written));
    }
}

pub(crate) fn points<S: Store>(warehouse: &Warehouse<S>, draw: &mut Draw, times: u32) {
    for _ in 0..times {
        let minute = draw.below(1 << warehouse.size());
        note(draw, warehouse.point(minute));
    }
}

// Sums of ranges that are drawn.
pub(crate) fn sums<S: Store>(warehouse: &Warehouse<S>, draw: &mut Draw, times: u32) {
    let ends = (1 << warehouse.size()) + 1;
    for _ in 0..times {
        let a = draw.below(ends);
        let b = draw.below(ends);
        note(draw, warehouse.sum(a.min(b), a.max(b)));
    }
}

pub(crate) fn note(draw: &mut Draw, answer: Result<Reading, Refusal>) {
    if let Ok(reading) = answer {
        draw.note(reading.value);
        draw.note(i64::from(reading.cells));
    }
}

// As many loads as forty machines have in two years, 16,384 chunks of 64 minutes each, all into one warehouse; then a sum of
// most of it.
pub(crate) fn floor_years<S: Store>(
    warehouse: &mut Warehouse<S>,
    buffer: &mut [i64],
    draw: &mut Draw,
) {
    for chunk in 0..655_360 {
        let written = load(warehouse, buffer, draw, 6, chunk % 16_384);
        draw.note(i64::from(written));
    }
    note(draw, warehouse.sum(1_000, 900_000));
}
