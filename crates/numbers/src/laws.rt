// What holds of the definitions that the contracts cite: each contract here is a theorem.
ghost use Rattle.numbers.specs.Laws.{IntsReadBack, ThousandthsAreNearest, OneWordEach, NanIsUnlikeAll, WorkedExamples};
ghost use Rattle.std.specs.Prelude.{◌≡◌, Ok, codes};
ghost use Rattle.numbers.specs.Shown.{shown};

use crate::answer::Answer;
use crate::convert::to_float;
use crate::dispatch::apply;
use crate::operator::{Calculation, Operator};
use crate::print::print_float;
use crate::text::{Ending, Text};

// The printed thousandths are the whole number nearest to the float's; of two, the even one.
pub fn thousandths_are_nearest()
    ensures { ThousandthsAreNearest }
{}

// An int that is printed and read is that int again.
pub fn ints_read_back()
    ensures { IntsReadBack }
{}

// Every number has its own word, and what is not a number has one.
pub fn floats_keep_their_words()
    ensures { OneWordEach }
{}

// What is not a number is unlike everything.
pub fn nan_is_unlike_all()
    ensures { NanIsUnlikeAll }
{}

// -7 / 2, 16777219 as a float, and the text of 0.0625.
#[derive(Clone, Copy, Debug, PartialEq, Eq)]
pub struct Examples {
    pub quotient: Answer,
    pub turned: u32,
    pub text: Text,
}

// The examples, by the definitions and by the code.
pub fn worked_examples() -> Examples
    ensures defined { WorkedExamples }
    ensures quotient { result.quotient ≡ Ok (record { ty = 2; word = 0xFFFF_FFFD }) }
    ensures turned { result.turned ≡ 0x4B80_0002 }
    ensures text { shown result.text ≡ codes "0.062" }
{
    let divide = Operator::Calculate(Calculation::Divide);
    Examples {
        quotient: apply(divide, 2, 0xFFFF_FFF9, 2),
        turned: to_float(16777219),
        text: print_float(0x3D80_0000, Ending::Nothing),
    }
}
