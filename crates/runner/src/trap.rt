// Why a script cannot go on.
ghost use Rattle.std.specs.Prelude.{◌≡◌};
ghost use Rattle.runner.specs.Verdicts.{trap_number};

// Each has the number that hosts know it by.
#[derive(Clone, Copy, Debug, Eq, PartialEq)]
pub enum Trap {
    // a text does not fit the output
    OutputFull = 9,
    // as many nodes as there may be are begun and unfinished
    TooDeep = 10,
    // no rule fits the node at hand
    NoRule = 11,
}

impl Trap {
    // The number that hosts know it by.
    pub fn number(self) -> u8
        ensures { result ≡ trap_number self }
    {
        self as u8
    }
}
