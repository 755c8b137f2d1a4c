// The walk through statements. A block's names are taken off at its end.
ghost use Rattle.std.specs.Prelude.{◌≡◌, ◌≤◌, length};
ghost use Rattle.checker.specs.Search.{newest_first};
ghost use Rattle.checker.specs.Tree.{tree};
ghost use Rattle.checker.specs.Typing.{values};
ghost use Rattle.checker.specs.Judge.{statement_at, statements, Walks};

use crate::expressions::type_chain;
use crate::note::Note;
use crate::refusal::{Question, Refusal};
use crate::script::{Place, Script};
use crate::shelf::{Mark, Name, Shelf};

// A struct of script and notes would have to promise at each call that it still lends the same
// places; so notes go beside the script, and each walk asks for as many as there are nodes.
#[cycle(walking)]
fn walk_statement(
    place: Place,
    shelf: &mut Shelf,
    names: &[Name],
    notes: &mut [Note],
) -> Result<(), Refusal>
    requires { length place.script.nodes.now ≤ length notes.old }
    ensures { Walks place.entry.script.nodes.now (statement_at place.entry.number place.entry.node (values (newest_first names.now shelf.old.count) (tree place.entry.script.nodes.now place.entry.node.a)) (statements (newest_first names.now shelf.old.count) (tree place.entry.script.nodes.now place.entry.node.b)) notes.old) shelf.old.count notes.old result shelf.new.count notes.new }
{
    let node = place.node;
    match node.kind {
        10 => {
            let old = shelf.count;
            let mark = Mark { shelf, old };
            walk_statements(place.script, node.b, mark.shelf, names, notes)?;
            Ok(())
        }
        18 if node.a == 0 => Ok(()),
        18 => {
            type_chain(place.script, node.a, shelf.count, names, notes)?;
            Ok(())
        }
        _ => Err(place.no(Question::NodeForm)),
    }
}

#[cycle(walking)]
pub(crate) fn walk_statements(
    script: Script,
    first: u16,
    shelf: &mut Shelf,
    names: &[Name],
    notes: &mut [Note],
) -> Result<(), Refusal>
    requires { length script.nodes.now ≤ length notes.old }
    ensures { Walks script.entry.nodes.now (statements (newest_first names.now shelf.old.count) (tree script.entry.nodes.now first) notes.old) shelf.old.count notes.old result shelf.new.count notes.new }
{
    for (number, node) in script.chain(first) {
        let place = Place {
            script,
            number,
            node,
        };
        walk_statement(place, shelf, names, notes)?;
    }
    Ok(())
}
