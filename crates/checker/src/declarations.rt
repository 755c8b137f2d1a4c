// The walk through declarations, and the whole program.
ghost use Rattle.std.specs.Prelude.{◌≡◌, ◌≤◌, length, drop};
ghost use Rattle.checker.specs.Search.{newest_first};
ghost use Rattle.checker.specs.Scope.{built_ins};
ghost use Rattle.checker.specs.Tree.{tree};
ghost use Rattle.checker.specs.Judge.{enter, function, declarations, program, leaves, Enters, Declares};

use crate::note::Note;
use crate::refusal::{Question, Refusal};
use crate::script::{Place, Script};
use crate::search::newest;
use crate::shelf::{MAIN, Mark, Name, SHELF_PLACES, Shelf};
use crate::statements::walk_statements;

const BUILT_INS: usize = 9;

// Puts the names that every script has on an empty shelf.
fn enter_built_ins(names: &mut [Name; SHELF_PLACES])
    ensures { newest_first names.new 9 ≡ built_ins 9 }
{
    for (i, place) in names[..BUILT_INS].iter_mut().enumerate() {
        *place = Name {
            name: i as u32 + 1,
            declaration: 0,
        };
    }
}

// A function is judged, then entered.
fn enter_function(
    place: Place,
    shelf: &mut Shelf,
    names: &mut [Name; SHELF_PLACES],
) -> Result<(), Refusal>
    ensures { Enters (enter (newest_first names.old shelf.old.count) place.entry.number place.entry.node) result names.new shelf.new.count }
{
    let count = shelf.count;
    let node = place.node;
    if newest(names, count, node.value).is_some() {
        return Err(place.no(Question::NewName));
    }
    if count >= SHELF_PLACES {
        return Err(place.no(Question::ShelfRoom));
    }
    if node.ty != 2 {
        return Err(place.no(Question::MainForm));
    }
    names[count] = Name {
        name: node.value,
        declaration: place.number,
    };
    shelf.count = count + 1;
    Ok(())
}

// A function's body is walked with the function in scope; its own names are
// taken off at its end.
fn walk_function(
    place: Place,
    shelf: &mut Shelf,
    names: &mut [Name; SHELF_PLACES],
    notes: &mut [Note],
) -> Result<(), Refusal>
    requires { length place.script.nodes.now ≤ length notes.old }
    ensures { Declares place.entry.script.nodes.now (function (newest_first names.old shelf.old.count) place.entry.number place.entry.node (tree place.entry.script.nodes.now place.entry.node.b) notes.old) shelf.old.count notes.old result names.new shelf.new.count notes.new }
{
    enter_function(place, shelf, names)?;
    let old = shelf.count;
    let mark = Mark { shelf, old };
    walk_statements(place.script, place.node.b, mark.shelf, names, notes)?;
    Ok(())
}

fn walk_declarations(
    script: Script,
    first: u16,
    shelf: &mut Shelf,
    names: &mut [Name; SHELF_PLACES],
    notes: &mut [Note],
) -> Result<(), Refusal>
    requires { length script.nodes.now ≤ length notes.old }
    ensures { Declares script.entry.nodes.now (declarations (newest_first names.old shelf.old.count) (tree script.entry.nodes.now first) notes.old) shelf.old.count notes.old result names.new shelf.new.count notes.new }
{
    for (number, node) in script.chain(first) {
        let place = Place {
            script,
            number,
            node,
        };
        walk_function(place, shelf, names, notes)?;
    }
    Ok(())
}

// The whole program, over notes that are taken back.
pub(crate) fn walk_program(
    script: Script,
    shelf: &mut Shelf,
    names: &mut [Name; SHELF_PLACES],
    notes: &mut [Note],
) -> Result<(), Refusal>
    requires { length script.nodes.now ≤ length notes.old }
    ensures result { program script.entry.nodes.now notes.old ≡ leaves result notes.new }
    ensures beyond { drop (length script.entry.nodes.now) notes.new ≡ drop (length script.entry.nodes.now) notes.old }
{
    enter_built_ins(names);
    shelf.count = BUILT_INS;
    let root = script.nodes[0];
    walk_declarations(script, root.a, shelf, names, notes)?;
    if newest(names, shelf.count, MAIN).is_none() {
        return Err(Refusal::new(Question::MainForm, 1, root.line));
    }
    Ok(())
}
