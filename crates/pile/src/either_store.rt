// A store that is one of two: its calls are those of the store it is.
ghost use Rattle.pile.specs.Either.{either_means, either_puts, either_settled, either_lawful};

use crate::either::Either;
use store::fault::CellFault;
use store::interface::Store;

impl<A: Store, B: Store> Store for Either<A, B> {
    ghost means = { either_means A.Store.means B.Store.means };

    ghost puts = { either_puts A.Store.puts B.Store.puts };

    ghost settled = { either_settled A.Store.settled B.Store.settled };

    ghost laws = { either_lawful _ _ A.Store.laws B.Store.laws };

    fn bands(&self) -> u8 {
        match self {
            Either::Left(store) => store.bands(),
            Either::Right(store) => store.bands(),
        }
    }

    fn read(&self, cell: u32) -> Result<i64, CellFault> {
        match self {
            Either::Left(store) => store.read(cell),
            Either::Right(store) => store.read(cell),
        }
    }

    fn write(&mut self, cell: u32, value: i64) -> Result<(), CellFault> {
        match self {
            Either::Left(store) => store.write(cell, value),
            Either::Right(store) => store.write(cell, value),
        }
    }

    fn fits(&self, more: u32) -> bool {
        match self {
            Either::Left(store) => store.fits(more),
            Either::Right(store) => store.fits(more),
        }
    }

    fn is_clean(&self) -> bool {
        match self {
            Either::Left(store) => store.is_clean(),
            Either::Right(store) => store.is_clean(),
        }
    }

    fn settle(&mut self) {
        match self {
            Either::Left(store) => store.settle(),
            Either::Right(store) => store.settle(),
        }
    }
}
