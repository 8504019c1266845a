//! The amount of a trend as text.
ghost use Rattle.std.specs.Prelude.{◌≡◌, ◌≤◌, ◌<◌, ◌+◌, ◌/◌, ◌^◌, IfOk, string_bytes};
ghost use Rattle.shell.specs.Amount.{whole, part, nearest, scaled, places as places_of, rounded, reads_back, amount_text};
ghost use Rattle.shell.specs.Answers.{Appends};

use std::alloc::{AllocError, Global};
use std::fmt::Write;
use std::num::{nearest_u64_to_f64, saturating_f64_to_u64};

/// No amount has more decimal places: it is a whole number over at most 2^19.
const PLACES: u32 = 19;

/// In how many parts the fraction of an amount is told.
const PARTS: u128 = 1 << PLACES;

fn whole(x: f64) -> u64
    ensures { result ≡ whole x }
{
    saturating_f64_to_u64(x)
}

fn part(x: f64) -> u64
    ensures { result ≡ part x }
{
    saturating_f64_to_u64((x - nearest_u64_to_f64(whole(x))) * (1u64 << PLACES) as f64)
}

fn power(places: u32) -> u128
    requires { places ≤ 19 }
    ensures is { result ≡ 10 ^ places }
    ensures some { 0 < result }
    ensures most { result ≤ 10 ^ 19 }
{
    10u128.pow(places)
}

// n over `PARTS`, to the nearest; of two as near, to that which makes an even number with `even`.
fn nearest(even: u128, n: u128) -> u128
    ensures is { result ≡ nearest even n (2 ^ 19) }
    ensures most { result ≤ n / 2 ^ 19 + 1 }
{
    let below = n / PARTS;
    let twice = 2 * (n % PARTS);
    if twice > PARTS {
        below + 1
    } else if twice == PARTS {
        below + (even % 2 + below) % 2
    } else {
        below
    }
}

// x in units of 10^-places.
fn scaled(x: f64, places: u32) -> u128
    requires { places ≤ 19 }
    ensures { result ≡ scaled x places }
{
    let power = power(places);
    let whole = u128::from(whole(x)) * power;
    whole + nearest(whole, u128::from(part(x)) * power)
}

// The last `places` digits of n.
fn push_places(text: &mut String, places: u32, n: u128) -> Result<(), AllocError>
    requires { places ≤ 19 }
    ensures { Appends (places_of places n) result (string_bytes text.old) (string_bytes text.new) }
{
    let mut left = places;
    'places: while left > 0 {
        left -= 1;
        write!(text, "{}", n / power(left) % 10)?;
    }
    Ok(())
}

fn rounded(x: f64, places: u32, heap: Global) -> Result<String, AllocError>
    requires { places ≤ 19 }
    ensures { IfOk result (λ text. string_bytes text ≡ rounded x places) }
{
    let n = scaled(x, places);
    let mut text = String::new(heap);
    write!(text, "{}", n / power(places))?;
    if places > 0 {
        write!(text, ".")?;
        push_places(&mut text, places, n)?;
    }
    Ok(text)
}

fn reads_back(x: f64, text: &str) -> bool
    ensures { result ≡ reads_back x text.now }
{
    match text.parse::<f64>() {
        Ok(read) => read == x,
        Err(_) => false,
    }
}

// An amount with the fewest decimal places that read back as the same number.
pub(crate) fn amount_text(x: f64, heap: Global) -> Result<String, AllocError>
    ensures { IfOk result (λ text. string_bytes text ≡ amount_text x) }
{
    for places in 0..PLACES {
        let text = rounded(x, places, heap)?;
        if reads_back(x, text.as_str()) {
            return Ok(text);
        }
    }
    rounded(x, PLACES, heap)
}
