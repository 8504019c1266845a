// A feed played into the pile that gymfeed uses, and what was accepted of it, as points, into a flat store.
use crate::handover::{HandOver, hand_over};
use crate::plain::Deed;
use compare::comparing::compare;
use compare::comparison::Comparison;
use feed::run::{end, step};
use feed::stepped::Stepped;
use flat::slice::Flat;
use holdback::held::HoldBack;
use loads::growth::grow;
use loads::point::add_point;
use std::alloc::{AllocError, Global};
use store::interface::Store;
use store::sparse::Sparse;
use warehouse::record::Warehouse;

// The numbers of a flat store of 3 bands.
const CELLS: usize = 4368;

#[derive(Clone, Copy)]
pub(crate) struct Twice {
    pub(crate) commands: u64,
    pub(crate) points: u64,
    // points and growths that the flat store refused
    pub(crate) refused: u64,
    pub(crate) found: Comparison,
    // none if an audit said no
    pub(crate) handed_over: Option<HandOver>,
}

// The whole feed, command by command: how many there are.
fn play<K: Store>(kept: &mut Warehouse<K>, buffer: &mut [i64], bytes: &[u8]) -> u64 {
    // counted beside the walk, which is no iterator whose items could be counted
    let mut commands = 0u64;
    let mut loading = None;
    let mut rest = bytes;
    // the commands differ in length, so that no range has their offsets
    while !rest.is_empty() {
        let offset = bytes.len().saturating_sub(rest.len()) as u64;
        let Stepped {
            loading: next,
            reply: _,
            width,
        } = step(kept, loading, buffer, rest, offset);
        loading = next;
        match width {
            Some(width) => {
                commands = commands.saturating_add(1);
                rest = &rest[width.clamp(1, rest.len())..];
            }
            None => rest = &[],
        }
    }
    let _ = end(loading);
    commands
}

// One accepted point or growth: whether the warehouse accepts it too.
fn repeat<F: Store>(fresh: &mut Warehouse<F>, deed: Deed) -> bool {
    match deed {
        Deed::Point { minute, value } => {
            let minute = u32::try_from(minute).unwrap_or(u32::MAX);
            add_point(fresh, minute, value).is_ok()
        }
        Deed::Growth => grow(fresh).is_ok(),
    }
}

// All of them in their order: how many the warehouse refuses.
fn repeat_all<F: Store>(fresh: &mut Warehouse<F>, deeds: &[Deed]) -> u64 {
    deeds.iter().filter(|deed| !repeat(fresh, **deed)).count() as u64
}

fn count_points(deeds: &[Deed]) -> u64 {
    deeds.iter().filter(|deed| **deed != Deed::Growth).count() as u64
}

// The feed and the deeds in two warehouses of size 4, and what comparing them finds.
pub(crate) fn play_twice(
    heap: Global,
    buffer: &mut [i64],
    feed: &[u8],
    deeds: &[Deed],
) -> Result<Twice, AllocError> {
    let mut numbers = vec![in heap; 0i64; CELLS]?;
    let mut kept = Warehouse::take_over(HoldBack::new(Sparse::new(3, 1024)), 4, 0);
    let mut fresh = Warehouse::take_over(Flat::new(&mut numbers), 4, 0);
    Ok(Twice {
        commands: play(&mut kept, buffer, feed),
        points: count_points(deeds),
        refused: repeat_all(&mut fresh, deeds),
        found: compare(&kept, &fresh),
        handed_over: hand_over(kept, fresh, buffer),
    })
}
