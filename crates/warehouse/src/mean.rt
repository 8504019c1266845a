// The mean of minutes, from their sum and their count.
ghost use Rattle.std.specs.Prelude.{◌≡◌, ◌≤◌};
ghost use Rattle.warehouse.specs.Mean.{mean_of};

// To the nearest whole number; exactly half goes up from an odd one, and down to an even one.
pub(crate) fn mean_of(sum: i64, minutes: u32) -> i64
    requires { 1 ≤ minutes }
    ensures { result ≡ mean_of sum minutes }
{
    let minutes = i64::from(minutes);
    let below = sum.div_euclid(minutes);
    let rest = sum.rem_euclid(minutes);
    let odd = below.rem_euclid(2);
    if 2 * rest + odd > minutes {
        return below + 1;
    }
    below
}
