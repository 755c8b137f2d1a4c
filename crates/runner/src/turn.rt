// How a rule ends.
ghost use Rattle.std.specs.Prelude.{◌≡◌};

use crate::frame::Frame;
use crate::trap::Trap;
use memories::Value;
use numbers::Text;

// What a node that is finished hands to the frame below: its value, or none where it is only done.
pub type Signal = Option<Value>;

#[derive(Clone, Copy, Debug, PartialEq, Eq)]
pub enum Turn {
    // the frame below is handed something
    Hands(Signal),
    // a frame more waits for the node `next`
    Waits { frame: Frame, next: u16 },
    // the call at the node `call` prints
    Prints { call: u16, text: Text },
    // the script cannot go on
    Traps { trap: Trap, place: u16 },
}

impl Turn {
    // No rule fits at the node `place`.
    pub fn no_rule(place: u16) -> Turn
        ensures { result ≡ Turn.Traps Trap.NoRule place }
    {
        Turn::Traps {
            trap: Trap::NoRule,
            place,
        }
    }
}
