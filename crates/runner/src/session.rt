// A session: a script that was opened, and how far it has come.
ghost use Rattle.std.specs.Prelude.{◌≡◌, ◌≤◌, length};

use crate::lawful::Inputs;
use crate::machine::Course;
use crate::verdict::Verdict;

// What a session was opened with.
#[derive(Debug, Drop, Eq, PartialEq)]
pub(crate) struct OpenedWith {
    // the script has the cells below this one
    pub(crate) limit: usize,
    pub(crate) inputs: Inputs,
    ghost few: { length inputs.items ≤ 64 },
}

#[derive(Debug, Default, Drop, Eq, PartialEq)]
pub struct Session {
    pub(crate) course: Course,
    // nothing for a session that is not open
    pub(crate) opened: Option<OpenedWith>,
}

impl Session {
    ghost use Rattle.runner.specs.Books.{place_of};
    ghost use Rattle.runner.specs.Calls.{Fresh};
    ghost use Rattle.runner.specs.Written.{written};

    // A session that is not open.
    pub fn new() -> Session
        ensures { Fresh result }
    {
        Session::default()
    }

    // The steps taken since the session was opened.
    pub fn steps(&self) -> u64
        ensures { result ≡ self.now.course.steps }
    {
        self.course.steps
    }

    pub fn verdict(&self) -> Verdict
        ensures { result ≡ self.now.course.machine.verdict }
    {
        self.course.machine.verdict
    }

    // The node of the trap, or else the one begun last; 0 before the first, which hosts know as none.
    pub fn place(&self) -> u16
        ensures { result ≡ place_of self.now.course.machine.verdict self.now.course.last }
    {
        match self.verdict() {
            Verdict::Trapped { trap: _, place } => place,
            _ => self.course.last,
        }
    }

    // What the script has printed.
    pub fn output(&self) -> &[u8]
        ensures { result.now ≡ written self.now.course.machine.output }
    {
        self.course.machine.output.as_slice()
    }
}
