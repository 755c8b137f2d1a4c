// Why a table is refused, and where.
ghost use Rattle.std.specs.Prelude.{◌≡◌};
ghost use Rattle.checker.specs.Questions.{question_number};

// The questions that a check asks. Each has a number that hosts know it by.
#[derive(Clone, Copy, Debug, PartialEq, Eq)]
pub enum Question {
    // Are there 1 to 4,096 nodes, and as many places for notes?
    TableSize = 1,
    // Does each node have the form of its kind?
    NodeForm = 2,
    // Is each node but the first linked exactly once?
    LinkedOnce = 3,
    // Is every node at most 200 deep?
    Depth = 4,
    // Is a declared name new in its block?
    NewName = 5,
    // Is a used name in scope?
    InScope = 9,
    // Are there as many arguments as parameters?
    ArgumentCount = 11,
    // Does a value have the type that is wanted?
    WantedType = 12,
    // Is main an int function without parameters, and is there one?
    MainForm = 18,
    // Is a called function not main?
    NotMain = 19,
    // Are at most 512 names on the shelf?
    ShelfRoom = 20,
}

impl Question {
    pub fn number(self) -> u8
        ensures { result ≡ question_number self }
    {
        self as u8
    }
}

#[derive(Clone, Copy, Debug, PartialEq, Eq)]
pub struct Refusal {
    pub question: Question,
    pub node: u16,
    pub line: u16,
}

impl Refusal {
    pub(crate) fn new(question: Question, node: u16, line: u16) -> Refusal
        ensures { result ≡ record { question = question; node = node; line = line } }
    {
        Refusal {
            question,
            node,
            line,
        }
    }
}
