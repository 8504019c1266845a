// The chunk's tree in place: the sum at 0, D(j,k) at k * 2^j + 2^(j-1); and the way back.
ghost use Rattle.std.specs.Prelude.{◌≡◌, ℕ, ◌+◌, ◌-◌, ◌*◌, ◌^◌, ◌<◌, ◌≤◌, length};
ghost use Rattle.loads.specs.Transform.{haar, unhaar, joined, parted, Within};
ghost use Rattle.loads.specs.Share.{Ready};

use crate::reach::Reach;
use crate::share::ChunkTree;

// the first number and the one at half become their sum and their difference
#[inline(always)]
fn join(numbers: &mut [i64], half: usize)
    requires { (0 < half) × ((half < length numbers.old) × (Within (2 ^ 61) numbers.old)) }
    ensures { numbers.new ≡ joined half numbers.old }
{
    let a = numbers[0];
    let b = numbers[half];
    numbers[0] = a + b;
    numbers[half] = a - b;
}

// the way back
#[inline(always)]
fn part(numbers: &mut [i64], half: usize)
    requires { (0 < half) × ((half < length numbers.old) × (Within (2 ^ 61) numbers.old)) }
    ensures { numbers.new ≡ parted half numbers.old }
{
    let s = numbers[0];
    let d = numbers[half];
    numbers[0] = (s + d) / 2;
    numbers[half] = (s - d) / 2;
}

// Two, four, eight and sixteen numbers, with no call between them: a call for each number would cost more than its work.
#[inline(always)]
fn two(numbers: &mut [i64])
    requires { (length numbers.old ≡ 2) × (Within (2 ^ 31) numbers.old) }
    ensures { numbers.new ≡ haar 1 numbers.old }
{
    join(numbers, 1);
}

#[inline(always)]
fn four(numbers: &mut [i64])
    requires { (length numbers.old ≡ 4) × (Within (2 ^ 31) numbers.old) }
    ensures { numbers.new ≡ haar 2 numbers.old }
{
    let (low, high) = numbers.split_at_mut(2);
    two(low);
    two(high);
    join(numbers, 2);
}

#[inline(always)]
fn eight(numbers: &mut [i64])
    requires { (length numbers.old ≡ 8) × (Within (2 ^ 31) numbers.old) }
    ensures { numbers.new ≡ haar 3 numbers.old }
{
    let (low, high) = numbers.split_at_mut(4);
    four(low);
    four(high);
    join(numbers, 4);
}

#[inline(always)]
fn sixteen(numbers: &mut [i64])
    requires { (length numbers.old ≡ 16) × (Within (2 ^ 31) numbers.old) }
    ensures { numbers.new ≡ haar 4 numbers.old }
{
    let (low, high) = numbers.split_at_mut(8);
    eight(low);
    eight(high);
    join(numbers, 8);
}

// The length and the level stay apart, here and on the way back: a struct of both would be made anew at each half.
fn transform(numbers: &mut [i64], m: u8)
    requires { (length numbers.old ≡ 2 ^ m) × ((m ≤ 12) × (Within (2 ^ 31) numbers.old)) }
    ensures { numbers.new ≡ haar m numbers.old }
{
    match m {
        0 => {}
        1 => two(numbers),
        2 => four(numbers),
        3 => eight(numbers),
        4 => sixteen(numbers),
        _ => {
            let half = numbers.len() / 2;
            let (low, high) = numbers.split_at_mut(half);
            transform(low, m - 1);
            transform(high, m - 1);
            join(numbers, half);
        }
    }
}

// the way back of two, four, eight and sixteen
#[inline(always)]
fn two_back(numbers: &mut [i64])
    requires { (length numbers.old ≡ 2) × (Within (2 ^ 61) numbers.old) }
    ensures { numbers.new ≡ unhaar 1 numbers.old }
{
    part(numbers, 1);
}

#[inline(always)]
fn four_back(numbers: &mut [i64])
    requires { (length numbers.old ≡ 4) × (Within (2 ^ 61) numbers.old) }
    ensures { numbers.new ≡ unhaar 2 numbers.old }
{
    part(numbers, 2);
    let (low, high) = numbers.split_at_mut(2);
    two_back(low);
    two_back(high);
}

#[inline(always)]
fn eight_back(numbers: &mut [i64])
    requires { (length numbers.old ≡ 8) × (Within (2 ^ 61) numbers.old) }
    ensures { numbers.new ≡ unhaar 3 numbers.old }
{
    part(numbers, 4);
    let (low, high) = numbers.split_at_mut(4);
    four_back(low);
    four_back(high);
}

#[inline(always)]
fn sixteen_back(numbers: &mut [i64])
    requires { (length numbers.old ≡ 16) × (Within (2 ^ 61) numbers.old) }
    ensures { numbers.new ≡ unhaar 4 numbers.old }
{
    part(numbers, 8);
    let (low, high) = numbers.split_at_mut(8);
    eight_back(low);
    eight_back(high);
}

fn restore(numbers: &mut [i64], m: u8)
    requires { (length numbers.old ≡ 2 ^ m) × (Within (2 ^ 61) numbers.old) }
    ensures { numbers.new ≡ unhaar m numbers.old }
{
    match m {
        0 => {}
        1 => two_back(numbers),
        2 => four_back(numbers),
        3 => eight_back(numbers),
        4 => sixteen_back(numbers),
        _ => {
            let half = numbers.len() / 2;
            part(numbers, half);
            let (low, high) = numbers.split_at_mut(half);
            restore(low, m - 1);
            restore(high, m - 1);
        }
    }
}

// A caller's buffer while it holds the tree of a chunk's values; dropped, it holds the values again.
pub struct Transformed<'a> {
    pub numbers: &'a mut [i64],
    pub reach: Reach,
    ghost many: { length numbers.now ≡ 2 ^ reach.level },
    ghost small: { Within (2 ^ 61) numbers.now },
}

impl<'a> Transformed<'a> {
    // `same_buffer` says that the same loan comes back: no type can.
    pub(crate) fn of(values: &'a mut [i64], reach: Reach) -> Transformed<'a>
        requires { (length values.old ≡ 2 ^ reach.level) × (Within (2 ^ 31) values.old) }
        ensures same_buffer { result.numbers.ghost_name ≡ values.entry.ghost_name }
        ensures reach { result.reach ≡ reach }
        ensures tree { Ready result.reach.level result.numbers.now }
        ensures back { unhaar result.reach.level result.numbers.now ≡ values.old }
    {
        transform(values, reach.level);
        Transformed {
            numbers: values,
            reach,
        }
    }

    // What the buffer holds, as the chunk's tree.
    pub(crate) fn tree(&self) -> ChunkTree<'_>
        requires { Ready self.now.reach.level self.now.numbers.now }
        ensures { (result.reach ≡ self.now.reach) × (result.numbers.now ≡ self.now.numbers.now) }
    {
        ChunkTree {
            numbers: &self.numbers[..],
            reach: self.reach,
        }
    }
}

impl Drop for Transformed<'_> {
    fn drop(self)
        ensures { self.exit.0.now ≡ unhaar self.entry.reach.level self.entry.numbers.now }
    {
        let Transformed { numbers, reach } = self;
        restore(numbers, reach.level);
    }
}
