// The walk through expressions: each gets its type and its note.
ghost use Rattle.std.specs.Prelude.{◌≡◌, ◌≤◌, length, if◌then◌else◌, Some, None};
ghost use Rattle.checker.specs.Search.{newest_first};
ghost use Rattle.checker.specs.Typing.{note_of, parameters, is_int, earlier, arguments_fit, call_of, Types, Gathers};

use crate::note::Note;
use crate::refusal::{Question, Refusal};
use crate::script::{Place, Script};
use crate::search::newest;
use crate::shelf::Name;
use crate::types::{Arguments, Ty, Valued};

fn note_of(ty: Ty) -> Note
    ensures { result ≡ note_of ty }
{
    Note {
        ty: ty as u8,
        turned: false,
        declaration: 0,
    }
}

// How many parameters a built-in has; all are int.
fn parameter_count(name: u32) -> usize
    ensures { result ≡ parameters name }
{
    match name {
        2 | 3 => 1,
        _ => 0,
    }
}

fn is_int(ty: Ty) -> bool
    ensures { result ≡ is_int ty }
{
    ty == Ty::Int
}

// The first argument that is no int, where `before` is the first among the earlier ones.
fn first_unfit(before: Option<Valued>, argument: Valued) -> Option<Valued>
    ensures { result ≡ earlier before (if is_int argument.ty then None else Some argument) }
{
    before.or((!is_int(argument.ty)).then_some(argument))
}

// A call is judged once its arguments have their types.
fn judge_call(place: Place, meaning: Option<Name>, arguments: Arguments) -> Result<Ty, Refusal>
    ensures { result ≡ call_of place.entry.number place.entry.node meaning arguments.count arguments.unfit }
{
    match meaning {
        None => Err(place.no(Question::InScope)),
        Some(name) if name.declaration != 0 => Err(place.no(Question::NotMain)),
        Some(_) if arguments.count != parameter_count(place.node.value) => {
            Err(place.no(Question::ArgumentCount))
        }
        Some(_) => fitting(arguments.unfit),
    }
}

fn fitting(unfit: Option<Valued>) -> Result<Ty, Refusal>
    ensures { result ≡ arguments_fit unfit }
{
    match unfit {
        None => Ok(Ty::Void),
        Some(argument) => Err(Refusal::new(Question::WantedType, argument.node, argument.line)),
    }
}

#[cycle(typing)]
fn type_expression(
    place: Place,
    count: usize,
    names: &[Name],
    notes: &mut [Note],
) -> Result<Ty, Refusal>
    requires { length place.script.nodes.now ≤ length notes.old }
    ensures { Types place.entry.script.nodes.now (newest_first names.now count) place.entry.number place.entry.node notes.old result notes.new }
{
    let node = place.node;
    match node.kind {
        20 => Ok(Ty::Int),
        25 => {
            let arguments = type_chain(place.script, node.a, count, names, notes)?;
            judge_call(place, newest(names, count, node.value), arguments)
        }
        _ => Err(place.no(Question::NodeForm)),
    }
}

// A chain of expressions, one after the other. Names come with their count, as the shelf lends them.
#[cycle(typing)]
pub(crate) fn type_chain(
    script: Script,
    first: u16,
    count: usize,
    names: &[Name],
    notes: &mut [Note],
) -> Result<Arguments, Refusal>
    requires { length script.nodes.now ≤ length notes.old }
    ensures { Gathers script.entry.nodes.now (newest_first names.now count) first notes.old result notes.new }
{
    let mut so_far = Arguments {
        count: 0,
        unfit: None,
    };
    for (number, node) in script.chain(first) {
        let place = Place {
            script,
            number,
            node,
        };
        let ty = type_expression(place, count, names, notes)?;
        notes[number as usize - 1] = note_of(ty);
        let argument = Valued {
            node: number,
            line: node.line,
            ty,
        };
        so_far = Arguments {
            count: so_far.count + 1,
            unfit: first_unfit(so_far.unfit, argument),
        };
    }
    Ok(so_far)
}
