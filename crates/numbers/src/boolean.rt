// The operators on booleans, whose words are 0 and 1.
ghost use Rattle.std.specs.Prelude.{◌≡◌};
ghost use Rattle.numbers.specs.Applied.{says, on_booleans, on_boolean};

use crate::answer::{Answer, NoAnswer};
use crate::operator::{Comparison, Operator, Prefix};
use memories::Value;

// A boolean as an answer.
pub fn boolean_answer(holds: bool) -> Answer
    ensures { result ≡ says holds }
{
    Ok(Value {
        ty: 1,
        word: u32::from(holds),
    })
}

// Two booleans are compared by == and != alone.
pub fn apply_to_booleans(operator: Operator, left: u32, right: u32) -> Answer
    ensures { result ≡ on_booleans operator left right }
{
    let same = (left != 0) == (right != 0);
    match operator {
        Operator::Compare(Comparison::Equal) => boolean_answer(same),
        Operator::Compare(Comparison::NotEqual) => boolean_answer(!same),
        _ => Err(NoAnswer::NoRule),
    }
}

pub fn apply_to_boolean(prefix: Prefix, word: u32) -> Answer
    ensures { result ≡ on_boolean prefix word }
{
    match prefix {
        Prefix::Not => boolean_answer(word == 0),
        _ => Err(NoAnswer::NoRule),
    }
}
