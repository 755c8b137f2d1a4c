// The shelf of names in scope.
//
// `Shelf` counts the names in use; their places are lent beside it. A block
// sets a mark: while it lives, names are added through it, and its end takes
// them off, however the block is left.
ghost use Rattle.std.specs.Prelude.{◌≡◌};

use crate::search::Keyed;

pub const SHELF_PLACES: usize = 512;

// The name of main.
pub const MAIN: u32 = 10;

#[derive(Clone, Copy, Debug, Default, PartialEq, Eq)]
pub struct Name {
    pub name: u32,
    // the node that declares it; 0 for a built-in, as in the note of a node that uses it
    pub declaration: u16,
}

impl Keyed for Name {
    ghost key = { λ e. e.name };

    fn key(&self) -> u32 {
        self.name
    }
}

// The places of names stand beside it, so that a mark guards the count and names stay readable.
#[derive(Debug, Default, PartialEq, Eq, Drop)]
pub struct Shelf {
    pub count: usize,
}

pub struct Mark<'a> {
    pub(crate) shelf: &'a mut Shelf,
    pub(crate) old: usize,
}

impl Drop for Mark<'_> {
    fn drop(self)
        ensures { self.exit.0.now.count ≡ self.entry.old }
    {
        self.shelf.count = self.old;
        let Mark { shelf: _, old: _ } = self;
    }
}
