// From an int to a float.
ghost use Rattle.std.specs.Prelude.{◌≡◌};
ghost use Rattle.numbers.specs.Conversion.{nearest_float};

use std::num::{f32_to_bits_with_nan, nearest_i32_to_f32};

// The word of the float nearest to the int of `word`, a tie to the even one.
pub fn to_float(word: u32) -> u32
    ensures { result ≡ nearest_float word }
{
    f32_to_bits_with_nan(nearest_i32_to_f32(word.cast_signed()))
}
