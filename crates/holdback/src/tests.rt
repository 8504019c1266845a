// The layer over a sparse store, on small examples.
use crate::held::HoldBack;
use store::fault::CellFault;
use store::free::free_cells;
use store::interface::Store;
use store::sparse::Sparse;

#[test]
fn reads_back(rt: HostRuntime) {
    let mut layer = HoldBack::new(Sparse::new(2, 8));
    assert_eq!(rt; layer.write(5, 7), Ok(()));
    assert_eq!(rt; layer.write(3, -2), Ok(()));
    assert_eq!(rt; layer.write(5, 9), Ok(()));
    assert_eq!(rt; layer.read(5), Ok(9));
    assert!(rt; !layer.is_clean());
    layer.settle();
    assert!(rt; layer.is_clean());
    assert_eq!(rt; layer.read(5), Ok(9));
    let below = layer.into_inner();
    assert_eq!(rt; below.read(5), Ok(9));
    assert_eq!(rt; below.read(3), Ok(-2));
}

#[test]
fn zero_removes(rt: HostRuntime) {
    let mut layer = HoldBack::new(Sparse::new(2, 8));
    assert_eq!(rt; layer.write(5, 7), Ok(()));
    layer.settle();
    assert_eq!(rt; layer.write(5, 8), Ok(()));
    assert_eq!(rt; layer.write(5, 0), Ok(()));
    assert_eq!(rt; layer.read(5), Ok(0));
    let below = layer.into_inner();
    assert_eq!(rt; below.read(5), Ok(0));
}

#[test]
fn refuses_without_room(rt: HostRuntime) {
    let mut layer = HoldBack::new(Sparse::new(1, 1));
    assert_eq!(rt; layer.write(16, 7).map_err(CellFault::number), Err(19));
    assert_eq!(rt; layer.write(5, 7), Ok(()));
    assert!(rt; !layer.fits(1));
    assert_eq!(rt; layer.write(6, 7).map_err(CellFault::number), Err(23));
    assert_eq!(rt; layer.read(6), Ok(0));
}

#[test]
fn holds_no_more_than_64(rt: HostRuntime) {
    let mut layer = HoldBack::new(Sparse::new(2, 100));
    for cell in 0..65 {
        assert_eq!(rt; layer.write(cell, 3), Ok(()));
    }
    let below = layer.into_inner();
    assert_eq!(rt; below.read(63), Ok(0));
    assert_eq!(rt; below.read(64), Ok(3));
}

#[test]
fn pile_settles(rt: HostRuntime) {
    let mut pile = HoldBack::new(HoldBack::new(Sparse::new(1, 4)));
    assert_eq!(rt; pile.write(2, 5), Ok(()));
    assert_eq!(rt; pile.write(9, 6), Ok(()));
    pile.settle();
    assert!(rt; pile.is_clean());
    assert_eq!(rt; pile.read(2), Ok(5));
    let below = pile.into_inner().into_inner();
    assert_eq!(rt; below.read(9), Ok(6));
}

#[test]
fn held_cells_are_not_free(rt: HostRuntime) {
    let mut layer = HoldBack::new(Sparse::new(1, 1024));
    assert_eq!(rt; layer.write(5, 7), Ok(()));
    assert_eq!(rt; free_cells(&layer), 15);
    assert_eq!(rt; free_cells(&layer.into_inner()), 16);
}
