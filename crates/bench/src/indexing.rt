// The work on an indexed warehouse: loads, and the busiest minutes of ranges, by the question and as the best of points.
use crate::draw::Draw;
use crate::work::{filled, given_up, note};
use indexed::indexed::Indexed;
use store::interface::Store;
use warehouse::record::Warehouse;

// Loads of one level at chunks that are drawn.
pub(crate) fn indexed_loads<S: Store, I: Store>(
    indexed: &mut Indexed<S, I>,
    buffer: &mut [i64],
    draw: &mut Draw,
    level: u8,
    chunks: u32,
    times: u32,
) {
    for _ in 0..times {
        let index = draw.below(chunks);
        let written = match filled(indexed.plain(), buffer, draw, level, index) {
            Some(load) => indexed.finish(load, buffer).unwrap_or_else(given_up),
            None => 0,
        };
        draw.note(i64::from(written));
    }
}

// The busiest minutes of ranges that are drawn.
pub(crate) fn busiest<S: Store, I: Store>(indexed: &Indexed<S, I>, draw: &mut Draw, times: u32) {
    let ends = (1 << indexed.plain().size()) + 1;
    for _ in 0..times {
        let a = draw.below(ends);
        let b = draw.below(ends);
        note(draw, indexed.busiest(a.min(b), a.max(b)));
    }
}

// The largest of the minutes from `from` to `to - 1`, each asked as a point.
fn best_point<S: Store>(warehouse: &Warehouse<S>, from: u32, to: u32) -> i64 {
    (from..to)
        .filter_map(|minute| warehouse.point(minute).ok())
        .fold(i64::MIN, |best, reading| best.max(reading.value))
}

// The same by points.
pub(crate) fn best_points<S: Store>(warehouse: &Warehouse<S>, draw: &mut Draw, times: u32) {
    let ends = (1 << warehouse.size()) + 1;
    for _ in 0..times {
        let a = draw.below(ends);
        let b = draw.below(ends);
        draw.note(best_point(warehouse, a.min(b), a.max(b)));
    }
}
