// What was accepted of a feed, in two indexed warehouses, and the busiest minutes of ranges that one answers beside those of plain minutes.
ghost use Rattle.std.specs.Prelude.{◌≤◌};

use crate::counts::cells_read;
use crate::draft::Chance;
use crate::plain::Deed;
use compare::comparison::Comparison;
use flat::slice::Flat;
use holdback::held::HoldBack;
use indexed::comparing::{Comparisons, compare};
use indexed::indexed::Indexed;
use loads::loading::begin;
use loads::open::RefusedLoad;
use std::alloc::{AllocError, Global};
use store::interface::Store;
use store::sparse::Sparse;
use warehouse::reading::Reading;

// The numbers of a flat store of 3 bands.
const CELLS: usize = 4368;

// The ranges asked after each feed.
const RANGES: u32 = 12;

#[derive(Clone, Copy)]
pub(crate) struct Busiest {
    pub(crate) asked: u64,
    // answered otherwise than plain minutes say
    pub(crate) differ: u64,
    // points, loads and growths that one of the two refused
    pub(crate) refused: u64,
    pub(crate) found: Comparisons,
}

impl Busiest {
    // Whether the two share every cell of both piles, and refused nothing.
    pub(crate) fn is_alike(&self) -> bool {
        self.refused == 0
            && self.found.first == Comparison::Alike
            && self.found.index == Comparison::Alike
    }
}

// The minutes that the deeds come to, from a size of 4 on.
fn plain_minutes(heap: Global, deeds: &[Deed]) -> Result<Vec<i64>, AllocError> {
    let mut minutes = vec![in heap; 0i64; 16usize << growths(deeds)]?;
    for deed in deeds {
        if let Deed::Point { minute, value } = *deed
            && let Some(number) = minutes.get_mut(minute)
        {
            *number = number.wrapping_add(value);
        }
    }
    Ok(minutes)
}

// At most 8, since gymfeed's pile has 3 bands.
fn growths(deeds: &[Deed]) -> u32
    ensures { result ≤ 8 }
{
    let many = deeds.iter().filter(|deed| **deed == Deed::Growth).count();
    many.min(8) as u32
}

// The cells read for one minute of a range: at the start of a tile whose minutes all lie in it one for all of them, else those of a point.
fn cells_for(minute: u32, from: u32, to: u32, size: u8) -> u32 {
    let span = 1u32 << size.min(12);
    let tile = minute / 16 * 16;
    if tile < from || tile.saturating_add(16).min(span) > to {
        return cells_read(0, size);
    }
    u32::from(minute == tile)
}

// The busiest minute from `from` to `to - 1`, with the cells read for it.
fn expected(minutes: &[i64], size: u8, from: u32, to: u32) -> Reading {
    Reading {
        value: minutes
            .iter()
            .take(to as usize)
            .skip(from as usize)
            .fold(i64::MIN, |most, minute| most.max(*minute)),
        cells: (from..to)
            .map(|minute| cells_for(minute, from, to, size))
            .fold(0u32, |cells, more| cells.saturating_add(more)),
    }
}

// Whether the range is answered as plain minutes say; an empty one is refused.
fn agrees<S: Store, I: Store>(
    indexed: &Indexed<S, I>,
    minutes: &[i64],
    from: u32,
    to: u32,
) -> bool {
    match indexed.busiest(from, to) {
        Ok(reading) => {
            from < to && reading == expected(minutes, indexed.plain().size(), from, to)
        }
        Err(refusal) => from == to && refusal.fault.number() == 16,
    }
}

// Ranges that are drawn, and the whole: how many are answered otherwise.
fn count_differing<S: Store, I: Store>(indexed: &Indexed<S, I>, minutes: &[i64]) -> u64 {
    let span = 1u32 << indexed.plain().size().min(12);
    let mut chance = Chance::new(0x2545_f491_4f6c_dd1d);
    let mut differ = u64::from(!agrees(indexed, minutes, 0, span));
    for _ in 1..RANGES {
        let a = chance.below(span.saturating_add(1));
        let b = chance.below(span.saturating_add(1));
        let agree = agrees(indexed, minutes, a.min(b), a.max(b));
        differ = differ.saturating_add(u64::from(!agree));
    }
    differ
}

// One deed, as a point or a growth: whether it is accepted.
fn repeat<S: Store, I: Store>(kept: &mut Indexed<S, I>, deed: Deed) -> bool {
    match deed {
        Deed::Point { minute, value } => {
            let minute = u32::try_from(minute).unwrap_or(u32::MAX);
            kept.add_point(minute, value).is_ok()
        }
        Deed::Growth => kept.grow().is_ok(),
    }
}

// All of them in their order: how many are refused.
fn repeat_all<S: Store, I: Store>(kept: &mut Indexed<S, I>, deeds: &[Deed]) -> u64 {
    deeds.iter().filter(|deed| !repeat(kept, **deed)).count() as u64
}

// So many growths: how many are refused.
fn grow_all<S: Store, I: Store>(fresh: &mut Indexed<S, I>, times: u32) -> u64 {
    (0..times).filter(|_| fresh.grow().is_err()).count() as u64
}

fn given_up(back: RefusedLoad) -> bool {
    let RefusedLoad { load, refusal: _ } = back;
    let _ = load.give_up();
    false
}

// A point as a load of one minute.
fn load_one<S: Store, I: Store>(fresh: &mut Indexed<S, I>, minute: usize, value: i64) -> bool {
    let mut buffer = [0; 1];
    let minute = u32::try_from(minute).unwrap_or(u32::MAX);
    let Ok(load) = begin(fresh.plain(), 0, minute) else {
        return false;
    };
    match load.value(&mut buffer, value) {
        Ok(load) => match fresh.finish(load, &mut buffer) {
            Ok(_) => true,
            Err(back) => given_up(back),
        },
        Err(back) => given_up(back),
    }
}

// The points as loads of one minute, the last first.
fn load_back<S: Store, I: Store>(fresh: &mut Indexed<S, I>, deeds: &[Deed]) -> u64 {
    let mut refused = 0u64;
    for deed in deeds.iter().rev() {
        if let Deed::Point { minute, value } = *deed {
            let accepted = load_one(fresh, minute, value);
            refused = refused.saturating_add(u64::from(!accepted));
        }
    }
    refused
}

// The deeds in their order on a flat store, with a sparse index; and, from size 0 on, all growths and then all loads on a flat store,
// with a layer over a sparse one as index.
pub(crate) fn play_indexed(heap: Global, deeds: &[Deed]) -> Result<Busiest, AllocError> {
    let mut numbers = vec![in heap; 0i64; CELLS]?;
    let mut other_numbers = vec![in heap; 0i64; CELLS]?;
    let minutes = plain_minutes(heap, deeds)?;
    let mut kept = Indexed::take_over(Flat::new(&mut numbers), Sparse::new(3, 1024), 4, 0);
    let layer = HoldBack::new(Sparse::new(3, 1024));
    let mut fresh = Indexed::take_over(Flat::new(&mut other_numbers), layer, 0, 0);
    let refused = repeat_all(&mut kept, deeds);
    let stuck = grow_all(&mut fresh, growths(deeds).saturating_add(4));
    let lost = load_back(&mut fresh, deeds);
    Ok(Busiest {
        asked: u64::from(RANGES),
        differ: count_differing(&kept, &minutes),
        refused: refused.saturating_add(stuck).saturating_add(lost),
        found: compare(&kept, &fresh),
    })
}
