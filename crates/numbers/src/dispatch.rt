// The operators on values of any type.
// The type is a byte, since one that is none of the three has an answer too: no rule.
ghost use Rattle.std.specs.Prelude.{◌≡◌};
ghost use Rattle.numbers.specs.Applied.{applied, prefixed, zero_of};

use crate::answer::{Answer, NoAnswer};
use crate::boolean::{apply_to_boolean, apply_to_booleans};
use crate::generic::{apply_to_number, apply_to_numbers};
use crate::number::Number;
use crate::operator::{Operator, Prefix};
use memories::Value;

// An operator between two words of the type `ty`.
pub fn apply(operator: Operator, ty: u8, left: u32, right: u32) -> Answer
    ensures { result ≡ applied operator ty left right }
{
    match ty {
        1 => apply_to_booleans(operator, left, right),
        2 => apply_to_numbers::<i32>(operator, left, right),
        3 => apply_to_numbers::<f32>(operator, left, right),
        _ => Err(NoAnswer::NoRule),
    }
}

// An operator before a value.
pub fn apply_prefix(prefix: Prefix, value: Value) -> Answer
    ensures { result ≡ prefixed prefix value }
{
    match value.ty {
        1 => apply_to_boolean(prefix, value.word),
        2 => apply_to_number::<i32>(prefix, value.word),
        3 => apply_to_number::<f32>(prefix, value.word),
        _ => Err(NoAnswer::NoRule),
    }
}

// The word that a variable of the type `ty` has at first.
pub fn zero_word(ty: u8) -> Option<u32>
    ensures { result ≡ zero_of ty }
{
    match ty {
        1 => Some(0),
        2 => Some(i32::ZERO),
        3 => Some(f32::ZERO),
        _ => None,
    }
}
