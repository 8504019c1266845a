// Making a flat store of a slice, and giving the slice back.
ghost use Rattle.std.specs.Prelude.{◌≡◌};
ghost use Rattle.flat.specs.FlatMeaning.{flat_means};
ghost use Rattle.flat.specs.Slice.{Greatest, Made, MadeUpTo};

use crate::slice::Flat;
use crate::zeros::count_zeros;
use haar::cells::cell_count;

impl<'a> Flat<'a> {
    // A store of as many bands as the slice has room for, with the slice's numbers in its cells.
    pub fn new(numbers: &'a mut [i64]) -> Flat<'a>
        ensures made { Made numbers.old (flat_means result) }
        ensures lender { result.numbers.ghost_name ≡ numbers.entry.ghost_name }
        ensures same { result.numbers.now ≡ numbers.old }
    {
        Flat::with_bands(numbers, 5)
    }

    // A store of so many bands, or as many as the slice has room for, with the slice's numbers in its cells.
    pub fn with_bands(numbers: &'a mut [i64], most: u8) -> Flat<'a>
        ensures made { MadeUpTo most numbers.old (flat_means result) }
        ensures lender { result.numbers.ghost_name ≡ numbers.entry.ghost_name }
        ensures same { result.numbers.now ≡ numbers.old }
    {
        let bands = most_bands(numbers.len()).min(most);
        let count = cell_count(bands);
        let zeros = count_zeros(numbers, count);
        Flat {
            numbers,
            bands,
            count,
            zeros,
        }
    }

    // The whole slice: the cells, and what lies past them.
    pub fn numbers(&self) -> &[i64]
        ensures { result.now ≡ self.now.numbers.now }
    {
        self.numbers
    }

    // The slice back, in place of the store.
    pub fn into_numbers(self) -> &'a mut [i64]
        ensures lender { result.ghost_name ≡ self.entry.numbers.ghost_name }
        ensures same { result.now ≡ self.entry.numbers.now }
    {
        let Flat { numbers, .. } = self;
        numbers
    }
}

// The most bands whose cells fit so many numbers.
fn most_bands(numbers: usize) -> u8
    ensures { Greatest numbers result }
{
    (1..=5)
        .rev()
        .find(|&bands| cell_count(bands) as usize <= numbers)
        .unwrap_or(0)
}
