// How a script stands.
ghost use Rattle.std.specs.Prelude.{◌≡◌};
ghost use Rattle.runner.specs.Verdicts.{verdict_number, verdict_value};

use crate::trap::Trap;

#[derive(Clone, Copy, Debug, Eq, PartialEq)]
pub enum Verdict {
    Running,
    // the end, with main's answer
    Ended { value: i32 },
    // a trap, at the node `place`
    Trapped { trap: Trap, place: u16 },
}

impl Verdict {
    pub fn number(self) -> u8
        ensures { result ≡ verdict_number self }
    {
        // by cases, since `as` takes only an enum whose cases have no fields
        match self {
            Verdict::Running => 0,
            Verdict::Ended { value: _ } => 1,
            Verdict::Trapped { trap: _, place: _ } => 2,
        }
    }

    // 0 while it runs, main's answer, or the trap's number.
    pub fn value(self) -> i32
        ensures { result ≡ verdict_value self }
    {
        match self {
            Verdict::Running => 0,
            Verdict::Ended { value } => value,
            Verdict::Trapped { trap, place: _ } => trap.number() as i32,
        }
    }
}
