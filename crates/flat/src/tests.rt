// The flat store on small slices.
ghost use Rattle.std.specs.Prelude.{◌≡◌, Ok, Err, slice_set};

use crate::slice::Flat;
use store::fault::CellFault;
use store::interface::Store;

// The caller's slice after a write, once the store is gone.
fn written(numbers: &mut [i64], cell: u32, value: i64) -> Result<(), CellFault>
    ensures put { result ≡ Ok tt → numbers.new ≡ slice_set numbers.old cell value }
    ensures kept { (f : CellFault) → result ≡ Err f → numbers.new ≡ numbers.old }
{
    let mut store = Flat::new(numbers);
    store.write(cell, value)
}

#[test]
fn twenty_numbers_are_one_band(rt: HostRuntime) {
    assert_eq!(rt; Flat::new(&mut [0; 15]).bands(), 0);
    assert_eq!(rt; Flat::new(&mut [0; 20]).bands(), 1);
}

#[test]
fn reads_what_was_written(rt: HostRuntime) {
    let mut numbers = [0; 20];
    let mut store = Flat::new(&mut numbers);
    assert_eq!(rt; store.write(15, -7), Ok(()));
    assert_eq!(rt; store.read(15), Ok(-7));
    assert_eq!(rt; store.read(14), Ok(0));
    assert!(rt; store.fits(15));
    assert!(rt; !store.fits(16));
}

#[test]
fn refuses_what_lies_past_the_cells(rt: HostRuntime) {
    let mut numbers = [9; 20];
    assert_eq!(rt; Flat::new(&mut numbers).read(16), Err(CellFault::Cell(16)));
    assert_eq!(rt;
        written(&mut numbers, 16, 1).map_err(CellFault::number),
        Err(19)
    );
    assert_eq!(rt; written(&mut numbers, 15, 1), Ok(()));
    assert_eq!(rt; numbers[15], 1);
    assert_eq!(rt; numbers[16], 9);
}

#[test]
fn is_never_full(rt: HostRuntime) {
    let mut numbers = [1; 16];
    let mut store = Flat::new(&mut numbers);
    assert!(rt; !store.fits(1));
    assert_eq!(rt; store.write(3, 5), Ok(()));
    assert_eq!(rt; store.write(3, 0), Ok(()));
    assert!(rt; store.fits(1));
    assert_eq!(rt; store.write(3, 5), Ok(()));
}
