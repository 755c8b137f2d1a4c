// What a frame does with what it is handed.
ghost use Rattle.std.specs.Prelude.{◌≡◌};
ghost use Rattle.runner.specs.State.{Core};
ghost use Rattle.runner.specs.Rules.{flow_of, resumes, in_block, in_call};

use crate::frame::Frame;
use crate::script::Script;
use crate::turn::{Signal, Turn};
use numbers::{Ending, print_int};

// Hands `signal` to `frame`, which is taken off.
pub fn resume(script: Script, signal: Signal, frame: Frame) -> Turn
    ensures { (s : Core) → flow_of result s ≡ resumes script.entry.table.now signal frame s }
{
    match frame {
        Frame::InBlock { block, statement } => in_block(script, signal, block, statement),
        Frame::InStatement { statement: _ } => Turn::Hands(None),
        Frame::InCall { call } => in_call(script, signal, call),
    }
}

fn in_block(script: Script, signal: Signal, block: u16, statement: u16) -> Turn
    ensures { (s : Core) → flow_of result s ≡ in_block script.entry.table.now signal block statement s }
{
    let None = signal else {
        return Turn::no_rule(block);
    };
    let Some(node) = script.node(statement) else {
        return Turn::no_rule(block);
    };
    if node.next == 0 {
        return Turn::Hands(None);
    }
    Turn::Waits {
        frame: Frame::InBlock {
            block,
            statement: node.next,
        },
        next: node.next,
    }
}

fn in_call(script: Script, signal: Signal, call: u16) -> Turn
    ensures { (s : Core) → flow_of result s ≡ in_call script.entry.table.now signal call s }
{
    let Some(value) = signal else {
        return Turn::no_rule(call);
    };
    let Some(node) = script.node(call) else {
        return Turn::no_rule(call);
    };
    let text = match node.value {
        2 if value.ty == 2 => print_int(value.word, Ending::Nothing),
        3 if value.ty == 2 => print_int(value.word, Ending::Newline),
        _ => return Turn::no_rule(call),
    };
    Turn::Prints { call, text }
}
