// Opens a session on a script.
ghost use Rattle.std.specs.Prelude.{◌≡◌, ◌≤◌, length, take, drop, replicate, None, Ok, Err, OnErr, MatchResult};
ghost use Rattle.std.specs.List.{find};
ghost use Rattle.runner.specs.Given.{given};
ghost use Rattle.runner.specs.Calls.{asked, is_main, main_body, limit_fits, AtStart, Opened};

use crate::lawful::{Inputs, accepted};
use crate::refusal::OpenRefusal;
use crate::session::{OpenedWith, Session};
use checker::node::Node;
use checker::note::Note;
use checker::shelf::{MAIN, Name, SHELF_PLACES, Shelf};
use checker::{check_table, clear_notes};
use memories::{Memory, Value};

// The most cells of a script.
const CELLS: usize = 65_535;

fn limit_fits(limit: usize, size: usize) -> bool
    ensures { result ≡ limit_fits limit size }
{
    (1..=CELLS).contains(&limit) && limit <= size
}

// Is it the function of the name 10?
fn is_main(node: Node) -> bool
    ensures { result ≡ is_main node }
{
    node.kind == 2 && node.value == MAIN
}

// The first main.
fn first_main(table: &[Node]) -> Option<Node>
    ensures { result ≡ find is_main table.now }
{
    table.iter().copied().find(|node| is_main(*node))
}

// The block of the first main, or 0, which is a table's number for none.
fn main_body(table: &[Node]) -> u16
    ensures { result ≡ main_body table.now }
{
    first_main(table).map_or(0, |main| main.b)
}

// Clears the cells below the limit.
#[tactic(auto, using(crate::proofs::Below::fills))]
fn clear_below<M: Memory>(memory: &mut M, limit: usize)
    requires { limit ≤ length (M.Memory.cells memory.old) }
    ensures below { take limit (M.Memory.cells memory.new) ≡ replicate limit None }
    ensures beyond { drop limit (M.Memory.cells memory.new) ≡ drop limit (M.Memory.cells memory.old) }
{
    // a `for`, since a chain would need a closure that holds the memory, and be no shorter
    for cell in 0..limit {
        let _ = memory.clear(cell);
    }
}

// Sets the session to the start of its script.
fn set_to_start(session: &mut Session, table: &[Node], inputs: Inputs, limit: usize)
    ensures { AtStart (record { script = table.now; inputs = given inputs; limit = limit }) session.new }
{
    session.course.machine.reset();
    session.course.machine.next = main_body(table);
    session.course.steps = 0;
    session.course.last = 0;
    session.opened = Some(OpenedWith { limit, inputs });
}

// The questions after the check, for a memory of so many cells; the inputs, kept.
fn ask(inputs: &[Value], limit: usize, size: usize) -> Result<Inputs, OpenRefusal>
    ensures { MatchResult result (λ v. (Ok tt ≡ asked inputs.now limit size) × (given v ≡ inputs.now)) (λ e. Err e ≡ asked inputs.now limit size) }
{
    if !limit_fits(limit, size) {
        return Err(OpenRefusal::CellLimit);
    }
    accepted(inputs).ok_or(OpenRefusal::Inputs)
}

// Checks the script, and sets the session and the cells below the limit to its start.
pub fn open<M: Memory>(
    session: &mut Session,
    table: &[Node],
    notes: &mut [Note],
    shelf: &mut Shelf,
    names: &mut [Name; SHELF_PLACES],
    memory: &mut M,
    inputs: &[Value],
    limit: usize,
) -> Result<(), OpenRefusal>
    ensures does { Opened (record { script = table.now; inputs = inputs.now; limit = limit }) notes.old notes.new session.old (M.Memory.cells memory.old) result session.new (M.Memory.cells memory.new) }
    ensures emptied { shelf.new.count ≡ 0 }
    ensures refused { OnErr result (memory.new ≡ memory.old) }
{
    check_table(table, notes, shelf, names)?;
    match ask(inputs, limit, memory.size()) {
        Ok(inputs) => {
            clear_below(memory, limit);
            set_to_start(session, table, inputs, limit);
            Ok(())
        }
        Err(refusal) => {
            clear_notes(notes, table.len());
            Err(refusal)
        }
    }
}
