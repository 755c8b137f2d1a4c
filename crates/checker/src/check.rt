// The public call: all questions in their order.
ghost use Rattle.std.specs.Prelude.{◌≡◌, ◌≤◌, length, drop};
ghost use Rattle.checker.specs.Questions.{then};
ghost use Rattle.checker.specs.Notes.{cleared};
ghost use Rattle.checker.specs.Form.{formed};
ghost use Rattle.checker.specs.Judge.{program, leaves};
ghost use Rattle.checker.specs.Check.{Checked};

use crate::declarations::walk_program;
use crate::form::{ask_nodes, ask_size};
use crate::node::Node;
use crate::note::Note;
use crate::refusal::Refusal;
use crate::script::Table;
use crate::shelf::{Name, SHELF_PLACES, Shelf};

// Takes the first `count` notes back, or as many as there are.
pub fn clear_notes(notes: &mut [Note], count: usize)
    ensures { notes.new ≡ cleared count notes.old }
{
    let end = count.min(notes.len());
    notes[..end].fill(Note::default());
}

// All questions but the first: the table's notes, or the first no.
#[tactic(auto, using(crate::proofs::Noted::cleared_beyond))]
fn judge_table(
    table: Table,
    notes: &mut [Note],
    shelf: &mut Shelf,
    names: &mut [Name; SHELF_PLACES],
) -> Result<(), Refusal>
    requires { length table.nodes.now ≤ length notes.old }
    ensures result { then (formed table.entry.nodes.now) (λ _. program table.entry.nodes.now (cleared (length table.entry.nodes.now) notes.old)) ≡ leaves result notes.new }
    ensures beyond { drop (length table.entry.nodes.now) notes.new ≡ drop (length table.entry.nodes.now) notes.old }
{
    let script = ask_nodes(table)?;
    clear_notes(notes, table.nodes.len());
    walk_program(script, shelf, names, notes)
}

// Checks a table: its notes, or the first question whose answer is no. The
// shelf is empty afterwards, and a refused table has no notes.
pub fn check_table(
    table: &[Node],
    notes: &mut [Note],
    shelf: &mut Shelf,
    names: &mut [Name; SHELF_PLACES],
) -> Result<(), Refusal>
    ensures { Checked table.now notes.old result notes.new shelf.new.count }
{
    shelf.count = 0;
    ask_size(table.len(), notes.len())?;
    let result = judge_table(Table { nodes: table }, notes, shelf, names);
    shelf.count = 0;
    let refused = result.is_err();
    if refused {
        clear_notes(notes, table.len());
    }
    result
}
