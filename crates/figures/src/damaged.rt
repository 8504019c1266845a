// Questions on damaged cells: they are refused, not answered.
use store::interface::Store;
use store::sparse::Sparse;
use warehouse::fault::{Fault, Refusal};
use warehouse::record::Warehouse;

// A store of one band with a sum and a difference over its first two minutes.
fn made(sum: i64, difference: i64) -> Warehouse<Sparse> {
    let mut store = Sparse::new(1, 16);
    let _ = store.write(0, sum);
    let _ = store.write(8, difference);
    Warehouse::take_over(store, 1, 0)
}

pub(crate) fn ask(rt: &HostRuntime, sum: i64, difference: i64) -> anyhow::Result<()> {
    print!(rt; "sum {sum}, difference {difference}: ")?;
    match made(sum, difference).point(1) {
        Ok(reading) => println!(rt;
            "minute 1 is {}, from {} cells",
            reading.value, reading.cells
        )?,
        Err(Refusal { fault, .. }) => match fault {
            Fault::Torn(cell) => println!(rt; "refusal {} at cell {cell}", fault.number())?,
            _ => println!(rt; "refusal {}", fault.number())?,
        },
    }
    Ok(())
}
