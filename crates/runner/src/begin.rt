// What begins at a node, by its kind; kinds and names are told by number, as tables write them.
ghost use Rattle.std.specs.Prelude.{◌≡◌};
ghost use Rattle.runner.specs.State.{Core, core_of};
ghost use Rattle.runner.specs.Rules.{Follows, flow_of, begins, begin_at, begin_node, begin_put};

use crate::frame::Frame;
use crate::machine::Machine;
use crate::script::Script;
use crate::trap::Trap;
use crate::turn::{Signal, Turn};
use crate::verdict::Verdict;
use checker::node::Node;
use checker::note::Note;
use memories::Value;
use numbers::newline;
use std::ops::ControlFlow;

// Begins the node `machine.next`; what it hands down at once, unless the step is over.
pub fn begin(machine: &mut Machine, script: Script) -> ControlFlow<(), Signal>
    ensures { Follows (core_of machine.old) (begins script.entry.table.now script.entry.notes.now (core_of machine.old)) result (core_of machine.new) }
{
    let number = machine.next;
    if machine.frames.is_full() {
        machine.verdict = Verdict::Trapped {
            trap: Trap::TooDeep,
            place: number,
        };
        return ControlFlow::Break(());
    }
    machine.perform(begin_at(script, number))
}

fn begin_at(script: Script, number: u16) -> Turn
    ensures { (s : Core) → flow_of result s ≡ begin_at script.entry.table.now script.entry.notes.now number s }
{
    let Some(node) = script.node(number) else {
        return Turn::no_rule(number);
    };
    let Some(note) = script.note(number) else {
        return Turn::no_rule(number);
    };
    begin_node(number, node, note)
}

fn begin_node(number: u16, node: Node, note: Note) -> Turn
    ensures { (s : Core) → flow_of result s ≡ begin_node number node note s }
{
    match node.kind {
        10 if node.b == 0 => Turn::Hands(None),
        10 => Turn::Waits {
            frame: Frame::InBlock {
                block: number,
                statement: node.b,
            },
            next: node.b,
        },
        18 if node.a == 0 => Turn::Hands(None),
        18 => Turn::Waits {
            frame: Frame::InStatement { statement: number },
            next: node.a,
        },
        20 => Turn::Hands(Some(Value {
            ty: 2,
            word: node.value,
        })),
        25 if note.declaration == 0 => begin_put(number, node),
        _ => Turn::no_rule(number),
    }
}

// Begins a call of the built-in that the node names.
fn begin_put(number: u16, node: Node) -> Turn
    ensures { (s : Core) → flow_of result s ≡ begin_put number node s }
{
    match node.value {
        9 if node.a == 0 => Turn::Prints {
            call: number,
            text: newline(),
        },
        2..=3 if node.a != 0 => Turn::Waits {
            frame: Frame::InCall { call: number },
            next: node.a,
        },
        _ => Turn::no_rule(number),
    }
}
