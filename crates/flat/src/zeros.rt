// Counting zeros.
ghost use Rattle.std.specs.Prelude.{◌≡◌, ◌+◌, ◌^◌, ◌<◌, ◌≤◌, length};
ghost use Rattle.store.specs.Meaning.{filled, weight};
ghost use Rattle.flat.specs.Slice.{number_at};

// 1 for zero, and 0 for any other number.
fn zero_weight(number: i64) -> u32
    ensures { result + weight number ≡ 1 }
{
    u32::from(number == 0)
}

// How many of the first so many numbers are zero.
pub(crate) fn count_zeros(numbers: &[i64], cells: u32) -> u32
    requires { cells ≤ length numbers.now }
    ensures { result + filled (number_at numbers.now) cells ≡ cells }
{
    // by a loop over the slice: a `filter` and `count` of it are not made into instructions for several numbers at once
    let mut zeros = 0;
    for number in &numbers[..cells as usize] {
        zeros += zero_weight(*number);
    }
    zeros
}

// The count of zeros after a number took another's place.
pub(crate) fn zeros_after(zeros: u32, old: i64, new: i64) -> u32
    requires few { zeros < 2 ^ 31 }
    requires counted { weight old ≡ 0 → 0 < zeros }
    ensures { result + weight new ≡ zeros + weight old }
{
    zeros + u32::from(new == 0) - u32::from(old == 0)
}
