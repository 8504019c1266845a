// Lists of calls played on two warehouses, which are then compared.
use crate::call::Call;
use crate::comparing::compare;
use crate::comparison::Comparison;
use crate::playing::play;
use store::sparse::Sparse;
use warehouse::record::Warehouse;

#[test]
fn a_load_and_its_points_agree(rt: HostRuntime) {
    let mut kept = Warehouse::take_over(Sparse::new(2, 64), 4, 0);
    let mut fresh = Warehouse::take_over(Sparse::new(2, 64), 4, 0);
    // the load takes the second and the third
    let mut numbers = [9, 3, -1];
    let load = Call::Load {
        level: 1,
        index: 2,
        from: 1,
    };
    play(&mut kept, &[load, Call::Grow, Call::Settle], &mut numbers);
    let first = Call::Add {
        minute: 4,
        value: 3,
    };
    let second = Call::Add {
        minute: 5,
        value: -1,
    };
    play(&mut fresh, &[second, first], &mut []);
    // growth from size 4 writes the total to slot 0 of the tile that comes in use, cell 0
    assert_eq!(rt; compare(&kept, &fresh), Comparison::Differ(0));
    play(&mut fresh, &[Call::Grow], &mut []);
    assert_eq!(rt; compare(&kept, &fresh), Comparison::Alike);
    assert_eq!(rt; kept.size(), 5);
}

#[test]
fn a_load_that_is_refused_changes_nothing(rt: HostRuntime) {
    let mut kept = Warehouse::take_over(Sparse::new(2, 64), 4, 0);
    let fresh = Warehouse::take_over(Sparse::new(2, 64), 4, 0);
    let mut numbers = [3, -1];
    let short = Call::Load {
        level: 1,
        index: 2,
        from: 1,
    };
    let past = Call::Load {
        level: 4,
        index: 1,
        from: 0,
    };
    play(&mut kept, &[short, past], &mut numbers);
    assert_eq!(rt; compare(&kept, &fresh), Comparison::Alike);
}
