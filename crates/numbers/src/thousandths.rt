// A float's size in thousandths, rounded, in integer arithmetic.
ghost use Rattle.std.specs.Prelude.{◌≡◌, ◌+◌, ◌*◌, ◌%◌, ◌^◌, ◌<◌, ◌≤◌, from_bits, nat_le};
ghost use Rattle.std.specs.Float.{binary32};
ghost use Rattle.std.specs.Float.Ieee.Exact.{HasValue};
ghost use Rattle.std.specs.Float.Ieee.Nearest.{closest};
ghost use Rattle.numbers.specs.Printed.{thousandths_of};

use std::cmp::Ordering;

// n / 2 ^ `times`, to the nearest whole number, a tie to the even one.
fn halved(n: u64, times: u32) -> u64
    requires { (n < 2 ^ 40) × (times < 40) }
    ensures { result ≡ closest n (2 ^ times) }
{
    let unit = 1u64 << times;
    let quotient = n / unit;
    match (n % unit * 2).cmp(&unit) {
        Ordering::Less => quotient,
        Ordering::Equal => quotient + quotient % 2,
        Ordering::Greater => quotient + 1,
    }
}

// The finite float of `word` as m * 2 ^ k of the smallest, which is 2 ^ -149.
// A pair and no struct, since it is made once and taken apart once.
#[tactic(auto, using(crate::proofs::Fields::no_field, crate::proofs::Fields::with_field))]
fn parts(word: u32) -> (u64, u32)
    requires { word % 2 ^ 31 < 0x7F80_0000 }
    ensures value { HasValue (from_bits binary32 word) (nat_le (2 ^ 31) word) (result.0 * 2 ^ result.1) (2 ^ 149) }
    ensures digits { result.0 < 2 ^ 24 }
    ensures power { word % 2 ^ 31 < 0x4F00_0000 → result.1 < 157 }
{
    let size = word % 0x8000_0000;
    let field = size / 0x80_0000;
    let digits = word % 0x80_0000;
    if field == 0 {
        (u64::from(digits), 0)
    } else {
        (0x80_0000 + u64::from(digits), field - 1)
    }
}

// The size of the float of `word`, which is below 2 ^ 31, in thousandths, a tie to the even one.
pub(crate) fn thousandths(word: u32) -> u64
    requires { word % 2 ^ 31 < 0x4F00_0000 }
    ensures value { result ≡ thousandths_of (from_bits binary32 word) }
    ensures bound { result < 2 ^ 41 }
{
    let (digits, power) = parts(word);
    let whole = digits * 1000;
    if power >= 149 {
        whole << (power - 149)
    } else if power < 114 {
        0
    } else {
        halved(whole, 149 - power)
    }
}
