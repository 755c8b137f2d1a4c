// The two kinds of number.
#![tactic(auto, using(std::proofs::lemmas::Int::wraps))]

ghost use Rattle.std.specs.Prelude.{◌≡◌, ℕ, ◌||◌, refl};
ghost use Rattle.std.specs.Ordering.{partial_lt, partial_le};
ghost use Rattle.std.proofs.Common.{rules};
ghost use Rattle.numbers.specs.Arithmetic.{Arithmetic, ints, floats};

use std::num::{f32_from_bits_with_nan, f32_to_bits_with_nan};

// A kind of number. `meaning` says what its words and its operators are.
// Words are read and stored by methods, since std alone may write a `From` for its own types,
// and `plus` and the like are methods, since an int's wrap where std's operators must fit.
pub trait Number: Copy + PartialOrd {
    // the type of its values, and the word of its zero
    const TYPE: u8;

    ghost TYPE: { ℕ };

    const ZERO: u32;

    ghost ZERO: { ℕ };

    ghost meaning: { Arithmetic Self };

    fn of_word(word: u32) -> Self
        ensures { result ≡ meaning.value word };

    fn word(self) -> u32
        ensures { result ≡ meaning.bits self };

    fn plus(self, other: Self) -> Self
        ensures { result ≡ meaning.sum self other };

    fn minus(self, other: Self) -> Self
        ensures { result ≡ meaning.difference self other };

    fn times(self, other: Self) -> Self
        ensures { result ≡ meaning.product self other };

    // `None` where there is no quotient: an int over zero.
    fn over(self, other: Self) -> Option<Self>
        ensures { result ≡ meaning.quotient self other };

    fn negated(self) -> Self
        ensures { result ≡ meaning.negative self };

    // Laws: the constants, `==`, `<` and `<=` are those of the meaning.
    ghost code: { TYPE ≡ meaning.code };

    ghost zero: { ZERO ≡ meaning.zero };

    ghost equal: { (x y : Self) → Self.eq x y ≡ meaning.equal x y };

    ghost less: { (x y : Self) → partial_lt Self.partial_cmp x y ≡ meaning.less x y };

    ghost at_most: { (x y : Self) → partial_le Self.partial_cmp x y ≡ (meaning.less x y || meaning.equal x y) };
}

impl Number for i32 {
    const TYPE: u8 = 2;

    ghost TYPE = { 2 };

    const ZERO: u32 = 0;

    ghost ZERO = { 0 };

    ghost meaning = { ints };

    ghost code = { refl };

    ghost zero = { refl };

    ghost equal = { λ x y. refl };

    ghost less = { Prim.search rules };

    ghost at_most = { Prim.search rules };

    fn of_word(word: u32) -> i32 {
        word.cast_signed()
    }

    fn word(self) -> u32 {
        self.cast_unsigned()
    }

    fn plus(self, other: i32) -> i32 {
        self.wrapping_add(other)
    }

    fn minus(self, other: i32) -> i32 {
        self.wrapping_sub(other)
    }

    fn times(self, other: i32) -> i32 {
        self.wrapping_mul(other)
    }

    // Not `checked_div`, which answers `None` for the lowest int over -1 too.
    fn over(self, other: i32) -> Option<i32> {
        if other == 0 {
            None
        } else {
            Some(self.wrapping_div(other))
        }
    }

    fn negated(self) -> i32 {
        self.wrapping_neg()
    }
}

impl Number for f32 {
    const TYPE: u8 = 3;

    ghost TYPE = { 3 };

    const ZERO: u32 = 0;

    ghost ZERO = { 0 };

    ghost meaning = { floats };

    ghost code = { refl };

    ghost zero = { refl };

    ghost equal = { λ x y. refl };

    ghost less = { Prim.search rules };

    ghost at_most = { Prim.search rules };

    fn of_word(word: u32) -> f32 {
        f32_from_bits_with_nan(word)
    }

    fn word(self) -> u32 {
        f32_to_bits_with_nan(self)
    }

    fn plus(self, other: f32) -> f32 {
        self + other
    }

    fn minus(self, other: f32) -> f32 {
        self - other
    }

    fn times(self, other: f32) -> f32 {
        self * other
    }

    fn over(self, other: f32) -> Option<f32> {
        Some(self / other)
    }

    fn negated(self) -> f32 {
        -self
    }
}
