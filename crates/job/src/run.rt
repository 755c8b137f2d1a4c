// Runs a job: from the bytes of its sheet to the bytes that it prints.
ghost use Rattle.std.specs.Prelude.{◌≡◌, ◌+◌, ◌≤◌, true, length, IfOk};
ghost use Rattle.runner.specs.Calls.{is_open, seen};
ghost use Rattle.runner.specs.Run.{ran};
ghost use Rattle.job.specs.Format.{sheet_of};
ghost use Rattle.job.specs.Meant.{meant};
ghost use Rattle.job.specs.Jobs.{line_of, head_of, verdict_of, told, Plays, reported, report_of, prints};

use crate::fault::Fault;
use crate::report::{Headline, Verdict, print};
use crate::sheet::{Sheet, read_sheet};
use checker::node::{MOST_NODES, Node};
use checker::note::Note;
use checker::shelf::{Name, SHELF_PLACES, Shelf};
use checker::table::item_at;
use memories::{CellRecords, Memory, Value, Window};
use runner::granting::GRANT;
use runner::refusal::OpenRefusal;
use runner::session::Session;
use runner::verdict::Verdict as RunVerdict;
use runner::{advance, open};
use std::alloc::{AllocError, Global};

// The cells below the window belong to the layout program.
const SHIFT: usize = 64;

// Grants the steps in pieces, until they are spent or the script has stopped.
fn spend<M: Memory>(
    session: &mut Session,
    table: &[Node],
    notes: &[Note],
    memory: &mut M,
    steps: u64,
)
    requires opened { is_open session.old ≡ true }
    requires few { session.old.course.steps + steps ≤ 1_099_511_627_776 }
    ensures { seen session.new (M.Memory.cells memory.new) ≡ ran table.now notes.now steps (seen session.old (M.Memory.cells memory.old)) }
{
    // A `while`: the last grant is smaller, and a stop ends it early.
    let mut left = steps;
    while left > 0 {
        let grant = left.min(GRANT as u64) as u32;
        let Ok(taken) = advance(session, table, notes, memory, grant) else {
            return;
        };
        if taken != grant {
            return;
        }
        left -= grant as u64;
    }
}

// A sheet that was read, so that its steps are within the limit of a session.
#[derive(Debug, Drop, Eq, PartialEq)]
struct Job {
    sheet: Sheet,
    ghost few: { sheet.steps ≤ 1_099_511_627_776 },
}

impl Job {
    // Opens the sheet's script over a memory of 4,096 cells and grants it the
    // sheet's steps.
    fn play<M: Memory>(&self, session: &mut Session, memory: &mut M) -> Result<(), OpenRefusal>
        requires { length (M.Memory.cells memory.old) ≡ 4096 }
        ensures { Plays (meant self.now.sheet) result session.new }
    {
        let mut notes = [Note::default(); MOST_NODES];
        let mut shelf = Shelf::default();
        let mut names = [Name::default(); SHELF_PLACES];
        let table = self.sheet.table();
        let inputs = self.sheet.inputs();
        let limit = self.sheet.cells as usize;
        open(
            session, table, &mut notes, &mut shelf, &mut names, memory, inputs, limit,
        )?;
        spend(session, table, &notes, memory, self.sheet.steps);
        Ok(())
    }

    // The script sees the cells above those of the layout program.
    fn play_above(&self, session: &mut Session) -> Result<(), OpenRefusal>
        ensures { Plays (meant self.now.sheet) result session.new }
    {
        let mut records = [Value::default(); 4160];
        let mut memory = Window::new(CellRecords::new(&mut records), SHIFT);
        self.play(session, &mut memory)
    }
}

// The line of a node, or 0, which hosts know as none.
fn line_of(table: &[Node], node: u16) -> u16
    ensures { result ≡ line_of table.now node }
{
    item_at(table, node).map_or(0, |node| node.line)
}

impl From<RunVerdict> for Verdict {
    ghost from_gives = { λ v r. r ≡ verdict_of v };

    fn from(verdict: RunVerdict) -> Verdict {
        match verdict {
            RunVerdict::Running => Verdict::Running,
            RunVerdict::Ended { .. } => Verdict::Ended,
            RunVerdict::Trapped { .. } => Verdict::Trapped,
        }
    }
}

fn head_of(table: &[Node], session: &Session) -> Headline
    ensures { result ≡ head_of table.now (told session.now) }
{
    let verdict = session.verdict();
    let node = session.place();
    Headline {
        verdict: verdict.into(),
        value: verdict.value(),
        node,
        line: line_of(table, node).into(),
        steps: session.steps(),
    }
}

// Reads the sheet and runs its script; the session keeps the output.
fn run_sheet(bytes: &[u8], session: &mut Session) -> Result<Headline, Fault>
    ensures { reported result session.new ≡ report_of (sheet_of bytes.now) }
{
    let job = Job {
        sheet: read_sheet(bytes)?,
    };
    job.play_above(session)?;
    Ok(head_of(job.sheet.table(), session))
}

// The bytes that the job of a sheet prints.
pub fn run(heap: Global, bytes: &[u8]) -> Result<Vec<u8>, AllocError>
    ensures { IfOk result (λ v. v.items ≡ prints bytes.now) }
{
    let mut session = Session::new();
    match run_sheet(bytes, &mut session) {
        Ok(head) => print(heap, &head, session.output()),
        Err(fault) => print(heap, &fault.into(), &[]),
    }
}
