// What is wrong with a job: its sheet, or the script that it opens.
ghost use Rattle.std.specs.Prelude.{◌≡◌};
ghost use Rattle.job.specs.declared.fault.Fault.TheVariants.{Sheet, Opening};
ghost use Rattle.job.specs.Jobs.{refused_head};

use crate::report::{Headline, Verdict};
use crate::sheet::SheetRefusal;
use runner::refusal::OpenRefusal;

// A fault of the sheet, or of the check or the opening, handed up whole.
#[derive(Clone, Copy, Debug, PartialEq, Eq)]
pub enum Fault {
    Sheet(SheetRefusal),
    Opening(OpenRefusal),
}

impl From<SheetRefusal> for Fault {
    ghost from_gives = { λ e r. r ≡ Sheet e };

    fn from(e: SheetRefusal) -> Fault {
        Fault::Sheet(e)
    }
}

impl From<OpenRefusal> for Fault {
    ghost from_gives = { λ e r. r ≡ Opening e };

    fn from(e: OpenRefusal) -> Fault {
        Fault::Opening(e)
    }
}

// The headline of a refused job. A sheet's refusal has the sheet's line.
impl From<Fault> for Headline {
    ghost from_gives = { λ f h. h ≡ refused_head f };

    fn from(fault: Fault) -> Headline {
        match fault {
            Fault::Sheet(refusal) => Headline {
                verdict: Verdict::Refused,
                value: refusal.question.number() as i32,
                node: 0,
                line: refusal.line,
                steps: 0,
            },
            Fault::Opening(refusal) => Headline {
                verdict: Verdict::Refused,
                value: refusal.number() as i32,
                node: refusal.node(),
                line: refusal.line() as u32,
                steps: 0,
            },
        }
    }
}
