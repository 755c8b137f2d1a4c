// Grants of steps.
ghost use Rattle.std.specs.Prelude.{◌≡◌, OnErr};
ghost use Rattle.runner.specs.Calls.{Advanced};

use crate::refusal::GrantRefusal;
use crate::script::Script;
use crate::session::Session;
use crate::step::walk;
use checker::node::Node;
use checker::note::Note;
use memories::Memory;

// The most steps of one grant.
pub const GRANT: u32 = 1_000_000;
// The most steps of a session, from one open to the next.
pub const STEPS: u64 = 1_099_511_627_776;

// Hosts lend table, notes and memory apart, and keep them between calls.
// Takes as many steps as are granted, or those left until the script ends or traps; how many.
pub fn advance<M: Memory>(
    session: &mut Session,
    table: &[Node],
    notes: &[Note],
    memory: &mut M,
    grant: u32,
) -> Result<u32, GrantRefusal>
    ensures does { Advanced table.now notes.now grant session.old (M.Memory.cells memory.old) result session.new (M.Memory.cells memory.new) }
    ensures refused { OnErr result (memory.new ≡ memory.old) }
{
    let Some(opened) = &session.opened else {
        return Err(GrantRefusal::NotOpen);
    };
    let limit = opened.limit;
    if grant > GRANT {
        return Err(GrantRefusal::GrantTooLarge);
    }
    if session.course.steps > STEPS - grant as u64 {
        return Err(GrantRefusal::TooManySteps);
    }
    let script = Script { table, notes };
    Ok(walk(&mut session.course, script, memory, limit, grant))
}
