// The report of a job: a line on how it stands, and then its output.
ghost use Rattle.std.specs.Prelude.{◌≡◌, Some, IfOk};
ghost use Rattle.job.specs.Printed.{verdict_number, headline, printed};

use std::alloc::{AllocError, Global};
use std::fmt;

// How a job stands. Each verdict has a number that hosts know it by.
// Not the runner's verdict: a refused job has no session, and its value stands beside the verdict.
#[derive(Clone, Copy, Debug, PartialEq, Eq)]
pub enum Verdict {
    Running = 0,
    Ended = 1,
    Trapped = 2,
    Refused = 3,
}

impl Verdict {
    pub fn number(&self) -> u8
        ensures { result ≡ verdict_number self.now }
    {
        *self as u8
    }
}

// The verdict with its value, the node and the line that it speaks of, and the steps taken.
#[derive(Clone, Copy, Debug, PartialEq, Eq)]
pub struct Headline {
    pub verdict: Verdict,
    pub value: i32,
    pub node: u16,
    pub line: u32,
    pub steps: u64,
}

impl fmt::Display for Headline {
    ghost output = { λ h. Some (headline h) };

    fn fmt<W: fmt::Write>(&self, f: &mut fmt::Formatter<W>) -> fmt::Result {
        let verdict = self.verdict.number();
        let Headline {
            value,
            node,
            line,
            steps,
            ..
        } = *self;
        write!(f, "V,{verdict},{value},{node},{line},{steps}\n")
    }
}

// The bytes of a report.
pub fn print(heap: Global, head: &Headline, output: &[u8]) -> Result<Vec<u8>, AllocError>
    ensures { IfOk result (λ v. v.items ≡ printed head.now output.now) }
{
    let mut bytes = format!(in heap; "{head}")?.into_bytes();
    bytes.extend_from_slice(output)?;
    Ok(bytes)
}
