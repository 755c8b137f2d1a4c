// The machine that steps work on, and what each end of a rule does to it.
ghost use Rattle.std.specs.Prelude.{◌≡◌, ◌≤◌, true, length};

use crate::frame::Frame;
use crate::trap::Trap;
use crate::turn::{Signal, Turn};
use crate::verdict::Verdict;
use arrayvec::ArrayVec;
use numbers::Text;
use std::ops::ControlFlow;

// What a rule may change, but the cells.
#[derive(Debug, Drop, Eq, PartialEq)]
pub struct Machine {
    pub frames: ArrayVec<Frame, 1024>,
    // the node to begin next; until another is known, the one begun last
    pub next: u16,
    pub verdict: Verdict,
    pub output: ArrayVec<u8, 4096>,
    // how many inputs are taken
    pub taken: usize,
    // so that a frame fits once one was taken off
    ghost fits: { length frames.items ≤ 1024 },
    // so that hosts know how much they may have to take
    ghost printed: { length output.items ≤ 4096 },
}

// By hand, since no default is derived where a ghost field stands.
impl Default for Machine {
    ghost use Rattle.runner.specs.State.{core_of, resting};

    ghost is_default = { λ m. core_of m ≡ resting };

    fn default() -> Machine {
        Machine {
            frames: ArrayVec::new(),
            next: 0,
            verdict: Verdict::Running,
            output: ArrayVec::new(),
            taken: 0,
        }
    }
}

impl Machine {
    ghost use Rattle.numbers.specs.Shown.{shown};
    ghost use Rattle.runner.specs.Newest.{held, room};
    ghost use Rattle.runner.specs.State.{core_of, resting};
    ghost use Rattle.runner.specs.Rules.{Follows, flow_of, put, bottom};

    // Back to where nothing is begun, printed or taken; places are kept, since to make them anew would cost more.
    pub fn reset(&mut self)
        ensures { core_of self.new ≡ resting }
    {
        self.frames.clear();
        self.next = 0;
        self.verdict = Verdict::Running;
        self.output.clear();
        self.taken = 0;
    }

    // Does what a rule ends with; what is handed down then, unless the step is over.
    pub fn perform(&mut self, turn: Turn) -> ControlFlow<(), Signal>
        requires { room 1024 (held self.old.frames) ≡ true }
        ensures { Follows (core_of self.old) (flow_of turn (core_of self.old)) result (core_of self.new) }
    {
        match turn {
            Turn::Hands(signal) => return ControlFlow::Continue(signal),
            Turn::Waits { frame, next } => {
                self.frames.push(frame);
                self.next = next;
            }
            Turn::Prints { call, text } => return self.print(call, text),
            Turn::Traps { trap, place } => self.verdict = Verdict::Trapped { trap, place },
        }
        ControlFlow::Break(())
    }

    // Prints `text` for the call at the node `place`.
    fn print(&mut self, place: u16, text: Text) -> ControlFlow<(), Signal>
        ensures { Follows (core_of self.old) (put place (shown text) (core_of self.old)) result (core_of self.new) }
    {
        match self.output.try_extend_from_slice(text.as_bytes()) {
            Ok(()) => ControlFlow::Continue(None),
            Err(_) => {
                self.verdict = Verdict::Trapped {
                    trap: Trap::OutputFull,
                    place,
                };
                ControlFlow::Break(())
            }
        }
    }

    // No frame is left to hand `signal` to.
    pub fn finish(&mut self, signal: Signal)
        ensures { core_of self.new ≡ bottom signal (core_of self.old) }
    {
        self.verdict = match signal {
            None => Verdict::Ended { value: 0 },
            Some(_) => Verdict::Trapped {
                trap: Trap::NoRule,
                place: self.next,
            },
        };
    }
}

// What a step may change, but the cells.
#[derive(Debug, Default, Drop, Eq, PartialEq)]
pub struct Course {
    pub machine: Machine,
    pub steps: u64,
    // the node begun last, or 0, which hosts know as none
    pub last: u16,
}
