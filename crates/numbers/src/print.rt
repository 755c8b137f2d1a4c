// The text of a value.
// By `push_str`, which cannot fail where there is room; `write!` answers a result that may be an error.
ghost use Rattle.std.specs.Prelude.{◌≡◌, ◌^◌, ◌<◌, ◌≤◌, ◌+◌, ◌%◌, ◌++◌, ◌∷◌, []};
ghost use Rattle.arrayvec.specs.ArrayString.{array_string_len};
ghost use Rattle.numbers.specs.Printed.{int_text, boolean_text, float_text, minus, rounded};
ghost use Rattle.numbers.specs.Shown.{shown, ending_text};

use crate::text::{Ending, Text};
use crate::thousandths::thousandths;
use arrayvec::ArrayString;
use itoa::Buffer;

// A newline alone.
pub fn newline() -> Text
    ensures { shown result ≡ ending_text Ending.Newline }
{
    Text::ended(ArrayString::new(), Ending::Newline)
}

// The boolean of `word`: true or false.
pub fn print_boolean(word: u32, ending: Ending) -> Text
    ensures { shown result ≡ boolean_text word ++ ending_text ending }
{
    let mut chars = ArrayString::new();
    chars.push_str(if word != 0 { "true" } else { "false" });
    Text::ended(chars, ending)
}

// The int of `word` in decimal.
pub fn print_int(word: u32, ending: Ending) -> Text
    ensures { shown result ≡ int_text word ++ ending_text ending }
{
    let mut chars = ArrayString::new();
    let mut digits = Buffer::new();
    chars.push_str(digits.format(word.cast_signed()));
    Text::ended(chars, ending)
}

// The float of `word`, to three decimals.
// Not by `{:.3}`, since no clause of the library says what that prints of a float.
#[tactic(auto, using(crate::proofs::Printing::text_nan, crate::proofs::Printing::text_over, crate::proofs::Printing::text_finite))]
pub fn print_float(word: u32, ending: Ending) -> Text
    ensures { shown result ≡ float_text word ++ ending_text ending }
{
    let size = word % 0x8000_0000;
    let negative = word >= 0x8000_0000;
    let mut chars = ArrayString::new();
    if size > 0x7F80_0000 {
        chars.push_str("nan");
    } else if size >= 0x4F00_0000 {
        push_sign(&mut chars, negative);
        chars.push_str("over");
    } else {
        push_thousandths(&mut chars, negative, thousandths(word));
    }
    Text::ended(chars, ending)
}

// Writes `n` thousandths, with a minus only where some digit is not 0.
#[tactic(auto, using(crate::proofs::Figures::length_whole))]
fn push_thousandths(chars: &mut ArrayString<16>, negative: bool, n: u64)
    requires { (n < 2 ^ 41) × (array_string_len chars.old ≡ 0) }
    ensures text { chars.new.bytes ≡ rounded negative n }
    ensures room { array_string_len chars.new ≤ 15 }
{
    push_sign(chars, negative && n > 0);
    let mut digits = Buffer::new();
    chars.push_str(digits.format(n / 1000));
    chars.push_str(".");
    push_digit(chars, n / 100);
    push_digit(chars, n / 10);
    push_digit(chars, n);
}

// Writes the last digit of `n`.
fn push_digit(chars: &mut ArrayString<16>, n: u64)
    requires { array_string_len chars.old < 16 }
    ensures text { chars.new.bytes ≡ chars.old.bytes ++ (48 + n % 10) ∷ [] }
    ensures room { array_string_len chars.new ≡ array_string_len chars.old + 1 }
{
    chars.push(char::from(b'0' + (n % 10) as u8));
}

// Writes a minus if `negative`.
fn push_sign(chars: &mut ArrayString<16>, negative: bool)
    requires { array_string_len chars.old < 16 }
    ensures text { chars.new.bytes ≡ chars.old.bytes ++ minus negative }
    ensures room { array_string_len chars.new ≤ array_string_len chars.old + 1 }
{
    if negative {
        chars.push('-');
    }
}
