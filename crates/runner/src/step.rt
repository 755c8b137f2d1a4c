// A step: a node begins, and all follows that comes before the next one.
// The memory and its limit stay two parameters: a struct that held the `&mut` would need one clause more in each
// contract, that it still holds the same one.
ghost use Rattle.std.specs.Prelude.{◌≡◌, ◌+◌, ◌^◌, ◌<◌, take, drop};
ghost use Rattle.runner.specs.Newest.{held};
ghost use Rattle.runner.specs.State.{scene, view};
ghost use Rattle.runner.specs.Run.{settles, played, stepped, ran, running, steps_taken};

use crate::begin::begin;
use crate::machine::{Course, Machine};
use crate::resume::resume;
use crate::script::Script;
use crate::turn::Signal;
use crate::verdict::Verdict;
use memories::Memory;
use std::ops::ControlFlow;

// Hands `first` down, frame after frame, until a node is to begin or the script is over.
#[tactic(auto, using(crate::proofs::Held::popped_room, crate::proofs::Settled::settled_stop, crate::proofs::Settled::settled_again, crate::proofs::Settled::settled_last))]
fn settle<M: Memory>(
    machine: &mut Machine,
    script: Script,
    memory: &mut M,
    limit: usize,
    first: Signal,
)
    ensures after { scene machine.new (take limit (M.Memory.cells memory.new)) ≡ settles script.entry.table.now (scene machine.old (take limit (M.Memory.cells memory.old))) first (held machine.old.frames) }
    ensures beyond { drop limit (M.Memory.cells memory.new) ≡ drop limit (M.Memory.cells memory.old) }
{
    let mut signal = first;
    while let Some(frame) = machine.frames.pop() {
        match machine.perform(resume(script, signal, frame)) {
            ControlFlow::Continue(more) => signal = more,
            ControlFlow::Break(()) => return,
        }
    }
    machine.finish(signal);
}

// Begins the next node, and does all that follows before another one begins.
#[tactic(auto, using(crate::proofs::Settled::played_stop, crate::proofs::Settled::played_again))]
fn play<M: Memory>(machine: &mut Machine, script: Script, memory: &mut M, limit: usize)
    ensures after { scene machine.new (take limit (M.Memory.cells memory.new)) ≡ played script.entry.table.now script.entry.notes.now (scene machine.old (take limit (M.Memory.cells memory.old))) }
    ensures beyond { drop limit (M.Memory.cells memory.new) ≡ drop limit (M.Memory.cells memory.old) }
{
    if let ControlFlow::Continue(signal) = begin(machine, script) {
        settle(machine, script, memory, limit, signal);
    }
}

// One step, if the script runs; `false` if it does not.
#[tactic(auto, unfolding(crate::specs::Run::stepped))]
fn step<M: Memory>(course: &mut Course, script: Script, memory: &mut M, limit: usize) -> bool
    requires { course.old.steps + 1 < 2 ^ 64 }
    ensures says { result ≡ running (view course.old (take limit (M.Memory.cells memory.old))) }
    ensures after { view course.new (take limit (M.Memory.cells memory.new)) ≡ stepped script.entry.table.now script.entry.notes.now (view course.old (take limit (M.Memory.cells memory.old))) }
    ensures beyond { drop limit (M.Memory.cells memory.new) ≡ drop limit (M.Memory.cells memory.old) }
{
    match course.machine.verdict {
        Verdict::Running => {
            course.steps += 1;
            course.last = course.machine.next;
            play(&mut course.machine, script, memory, limit);
            true
        }
        _ => false,
    }
}

// As many steps as are granted, or those left until the script is over; how many.
#[tactic(auto, using(crate::proofs::Runs::still, crate::proofs::Runs::counts, crate::proofs::Runs::ran_none, crate::proofs::Runs::ran_more, crate::proofs::Runs::ran_past))]
pub fn walk<M: Memory>(
    course: &mut Course,
    script: Script,
    memory: &mut M,
    limit: usize,
    grant: u32,
) -> u32
    requires { course.old.steps + grant < 2 ^ 64 }
    ensures value { result ≡ steps_taken script.entry.table.now script.entry.notes.now grant (view course.old (take limit (M.Memory.cells memory.old))) }
    ensures after { view course.new (take limit (M.Memory.cells memory.new)) ≡ ran script.entry.table.now script.entry.notes.now grant (view course.old (take limit (M.Memory.cells memory.old))) }
    ensures beyond { drop limit (M.Memory.cells memory.new) ≡ drop limit (M.Memory.cells memory.old) }
{
    // a `for` that can stop early; `take_while` and `count` would hide the step in a test
    for count in 0..grant {
        if !step(course, script, memory, limit) {
            return count;
        }
    }
    grant
}
