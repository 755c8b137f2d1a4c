// One text of the operators for both kinds of number.
ghost use Rattle.std.specs.Prelude.{◌≡◌};
ghost use Rattle.numbers.specs.Arithmetic.{compared, calculated};
ghost use Rattle.numbers.specs.Applied.{gives, on_numbers, on_number};

use crate::answer::{Answer, NoAnswer};
use crate::boolean::boolean_answer;
use crate::number::Number;
use crate::operator::{Calculation, Comparison, Operator, Prefix};
use memories::Value;

fn compare<N: Number>(comparison: Comparison, left: N, right: N) -> bool
    ensures { result ≡ compared N.Number.meaning comparison left right }
{
    match comparison {
        Comparison::Equal => left == right,
        Comparison::NotEqual => left != right,
        Comparison::Less => left < right,
        Comparison::LessOrEqual => left <= right,
        Comparison::Greater => right < left,
        Comparison::GreaterOrEqual => right <= left,
    }
}

// `None` where there is no quotient.
fn calculate<N: Number>(calculation: Calculation, left: N, right: N) -> Option<N>
    ensures { result ≡ calculated N.Number.meaning calculation left right }
{
    match calculation {
        Calculation::Add => Some(left.plus(right)),
        Calculation::Subtract => Some(left.minus(right)),
        Calculation::Multiply => Some(left.times(right)),
        Calculation::Divide => left.over(right),
    }
}

// A number as an answer.
fn number_answer<N: Number>(number: N) -> Answer
    ensures { result ≡ gives N.Number.meaning number }
{
    Ok(Value {
        ty: N::TYPE,
        word: number.word(),
    })
}

// An operator between the words of two numbers of one kind.
pub fn apply_to_numbers<N: Number>(operator: Operator, left: u32, right: u32) -> Answer
    ensures { result ≡ on_numbers N.Number.meaning operator left right }
{
    let a = N::of_word(left);
    let b = N::of_word(right);
    match operator {
        Operator::Compare(comparison) => boolean_answer(compare(comparison, a, b)),
        Operator::Calculate(calculation) => {
            number_answer(calculate(calculation, a, b).ok_or(NoAnswer::ZeroDivisor)?)
        }
    }
}

// An operator before the word of a number.
pub fn apply_to_number<N: Number>(prefix: Prefix, word: u32) -> Answer
    ensures { result ≡ on_number N.Number.meaning prefix word }
{
    let operand = N::of_word(word);
    match prefix {
        Prefix::Plus => number_answer(operand),
        Prefix::Minus => number_answer(operand.negated()),
        Prefix::Not => Err(NoAnswer::NoRule),
    }
}
