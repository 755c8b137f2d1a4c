// Why a call is refused.
ghost use Rattle.std.specs.Prelude.{◌≡◌};
ghost use Rattle.runner.specs.declared.refusal.OpenRefusal.TheVariants.{Check};
ghost use Rattle.runner.specs.Refusals.{open_number, of_check, open_node, open_line, grant_number};

use checker::refusal::Refusal;

// Why a session is not opened. Each case has a number that hosts know it by.
#[derive(Clone, Copy, Debug, PartialEq, Eq)]
pub enum OpenRefusal {
    // a question of the check
    Check(Refusal),
    // Is the cell limit 1 to 65,535, and at most the memory's size?
    CellLimit,
    // Are there at most 64 inputs, each lawful?
    Inputs,
}

impl From<Refusal> for OpenRefusal {
    ghost from_gives = { λ e r. r ≡ Check e };

    fn from(e: Refusal) -> OpenRefusal {
        OpenRefusal::Check(e)
    }
}

impl OpenRefusal {
    // The number that hosts know it by.
    pub fn number(self) -> u8
        ensures { result ≡ open_number self }
    {
        match self {
            // by cases: a refusal of the check has the check's own number
            OpenRefusal::Check(refusal) => refusal.question.number(),
            OpenRefusal::CellLimit => 31,
            OpenRefusal::Inputs => 32,
        }
    }

    // What the check refused, if it was the check.
    fn of_check(self) -> Option<Refusal>
        ensures { result ≡ of_check self }
    {
        match self {
            OpenRefusal::Check(refusal) => Some(refusal),
            OpenRefusal::CellLimit | OpenRefusal::Inputs => None,
        }
    }

    // The node that is refused, or 0, which hosts know as none.
    pub fn node(self) -> u16
        ensures { result ≡ open_node self }
    {
        self.of_check().map_or(0, |refusal| refusal.node)
    }

    // The line of that node, or 0, which hosts know as none.
    pub fn line(self) -> u16
        ensures { result ≡ open_line self }
    {
        self.of_check().map_or(0, |refusal| refusal.line)
    }
}

// The questions that a grant is asked. Each has a number that hosts know it by.
#[derive(Clone, Copy, Debug, Eq, PartialEq)]
pub enum GrantRefusal {
    // Is the session open?
    NotOpen = 40,
    // Is the grant at most 1,000,000 steps?
    GrantTooLarge = 41,
    // Are the steps taken and the grant at most 1,099,511,627,776?
    TooManySteps = 42,
}

impl GrantRefusal {
    // The number that hosts know it by.
    pub fn number(self) -> u8
        ensures { result ≡ grant_number self }
    {
        self as u8
    }
}
