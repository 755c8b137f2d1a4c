// A script: nodes and notes by their number, which counts from 1.
ghost use Rattle.std.specs.Prelude.{◌≡◌};
ghost use Rattle.checker.specs.Tree.{item_at};

use checker::node::Node;
use checker::note::Note;
use checker::table::item_at;

// A table and the notes on it.
#[derive(Clone, Copy, Debug, PartialEq, Eq)]
pub struct Script<'a> {
    pub table: &'a [Node],
    pub notes: &'a [Note],
}

impl Script<'_> {
    pub fn node(self, number: u16) -> Option<Node>
        ensures { result ≡ item_at self.entry.table.now number }
    {
        item_at(self.table, number)
    }

    pub fn note(self, number: u16) -> Option<Note>
        ensures { result ≡ item_at self.entry.notes.now number }
    {
        item_at(self.notes, number)
    }
}
